// Words of eight bytes, the lowest first.
ghost use Rattle.std.specs.Prelude.{◌≡◌, ◌+◌, ◌*◌, ◌≤◌, length};
ghost use Rattle.std.specs.Int.{w64, to_le_bytes};
ghost use Rattle.line_device.specs.Word.{word_at};

use byteorder::{ByteOrder, LittleEndian};

/// Word w of these bytes.
pub fn word_in(bytes: &[u8], w: u64) -> u64
    requires { 8 * w + 8 ≤ length bytes.now }
    ensures { result ≡ word_at bytes.now w }
{
    LittleEndian::read_u64(&bytes[8 * w as usize..])
}

/// The eight bytes of a word.
pub fn word_bytes(word: u64) -> [u8; 8]
    ensures { result ≡ to_le_bytes w64 word }
{
    let mut bytes = [0; 8];
    LittleEndian::write_u64(&mut bytes, word);
    bytes
}
