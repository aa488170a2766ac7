// Words of eight bytes, the lowest byte first, and spans that meet them.
ghost use Rattle.std.specs.Prelude.{◌≡◌, ◌<◌, ◌^◌};
ghost use Rattle.line_device.specs.Word.{word_over, byte_over, reaches};
ghost use Rattle.nvm_model.specs.Cell.{touches, covers};

use line_device::{word_bytes, word_in};

// The byte at a place once bytes are put at an offset.
#[tactic(auto, unfolding(line_device::specs::Word::byte_over))]
fn put_byte(at: u64, bytes: &[u8], place: u64, old: u8) -> u8
    ensures { result ≡ byte_over at bytes.now place old }
{
    if at <= place && place - at < bytes.len() as u64 {
        bytes[(place - at) as usize]
    } else {
        old
    }
}

/// Word w of the storage once bytes are put at an offset.
pub fn put_word(at: u64, bytes: &[u8], w: u64, old: u64) -> u64
    requires { w < 2 ^ 60 }
    ensures { result ≡ word_over at bytes.now w old }
{
    let place = 8 * w;
    let [a, b, c, d, e, f, g, h] = word_bytes(old);
    let new = [
        put_byte(at, bytes, place, a),
        put_byte(at, bytes, place + 1, b),
        put_byte(at, bytes, place + 2, c),
        put_byte(at, bytes, place + 3, d),
        put_byte(at, bytes, place + 4, e),
        put_byte(at, bytes, place + 5, f),
        put_byte(at, bytes, place + 6, g),
        put_byte(at, bytes, place + 7, h),
    ];
    word_in(&new, 0)
}

/// The span reaches word w of the storage.
#[tactic(auto, unfolding(line_device::specs::Word::reaches))]
pub fn reaches_word(start: u64, len: u64, w: u64) -> bool
    requires { w < 2 ^ 60 }
    ensures { result ≡ reaches start len w }
{
    start < 8 * w + 8 && 8 * w < start.saturating_add(len)
}

/// The span touches line n.
pub fn touches_line(start: u64, len: u64, n: u64) -> bool
    requires { n < 2 ^ 57 }
    ensures { result ≡ touches start len n }
{
    start < 64 * n + 64 && 64 * n < start.saturating_add(len)
}

/// The span holds all of line n.
pub fn covers_line(start: u64, len: u64, n: u64) -> bool
    requires { n < 2 ^ 57 }
    ensures { result ≡ covers start len n }
{
    start <= 64 * n && 64 * n + 64 <= start.saturating_add(len)
}
