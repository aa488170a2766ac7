// The words of lines that are not bad. Each call here is one call of the device.
ghost use Rattle.std.specs.Prelude.{◌≡◌, ◌+◌, ◌*◌, ◌/◌, ◌<◌, ℕ, IsTrue, IfOk, MatchResult, length, slice_index};
ghost use Rattle.line_device.specs.Word.{word_at};
ghost use Rattle.line_device.specs.Medium.{WritesBack, IsHealthy, last_image};
ghost use Rattle.line_device.specs.Panel.{Runs};
ghost use Rattle.line_words.specs.Words.{with_word};
ghost use Rattle.line_words.specs.Ending.{ended};

use crate::Interruption;
use crate::interruption::stop_of;
use byteorder::{ByteOrder, LittleEndian};
use line_device::{Lines, word_bytes, word_in};
use nvm_base::LineNo;

// All words of a line's bytes.
fn words_in(bytes: &[u8]) -> [u64; 8]
    requires { length bytes.now ≡ 64 }
    ensures words { (w : ℕ) → w < 8 → slice_index result w ≡ word_at bytes.now w }
    ensures size { length result ≡ 8 }
{
    let mut words = [0; 8];
    LittleEndian::read_u64_into(bytes, &mut words);
    words
}

/// The word at a place, as last stored.
pub fn load_word<L: Lines>(dev: &mut L, place: u64) -> Result<u64, Interruption>
    requires healthy { IsHealthy (L.state dev.old).medium (place / 8) }
    requires on { IsTrue (L.state dev.old).panel.power }
    ensures value { IfOk result (λ value. value ≡ last_image (L.state dev.old).medium place) }
    ensures lines { WritesBack (L.state dev.old).medium (L.state dev.new).medium }
    ensures runs { Runs 1 0 (ended result) (L.state dev.old).panel (L.state dev.new).panel }
{
    match dev.load(LineNo(place / 8)) {
        Ok(bytes) => Ok(word_in(bytes, place % 8)),
        Err(fault) => Err(stop_of(fault, place / 8)),
    }
}

/// The words of a line, as last stored, by one call.
pub fn load_words<L: Lines>(dev: &mut L, line: u64) -> Result<[u64; 8], Interruption>
    requires healthy { IsHealthy (L.state dev.old).medium line }
    requires on { IsTrue (L.state dev.old).panel.power }
    ensures words { IfOk result (λ words. (w : ℕ) → w < 8 → slice_index words w ≡ last_image (L.state dev.old).medium (8 * line + w)) }
    ensures size { IfOk result (λ words. length words ≡ 8) }
    ensures lines { WritesBack (L.state dev.old).medium (L.state dev.new).medium }
    ensures runs { Runs 1 0 (ended result) (L.state dev.old).panel (L.state dev.new).panel }
{
    match dev.load(LineNo(line)) {
        Ok(bytes) => Ok(words_in(bytes)),
        Err(fault) => Err(stop_of(fault, line)),
    }
}

/// Gives the word at a place a value, which a cut may lose until its line is persisted.
pub fn store_word<L: Lines>(dev: &mut L, place: u64, value: u64) -> Result<(), Interruption>
    requires healthy { IsHealthy (L.state dev.old).medium (place / 8) }
    requires on { IsTrue (L.state dev.old).panel.power }
    ensures lines { MatchResult result
        (λ _. WritesBack (with_word (L.state dev.old).medium place value) (L.state dev.new).medium)
        (λ _. WritesBack (L.state dev.old).medium (L.state dev.new).medium) }
    ensures runs { Runs 1 0 (ended result) (L.state dev.old).panel (L.state dev.new).panel }
{
    match dev.store(LineNo(place / 8), 8 * (place % 8), &word_bytes(value)) {
        Ok(()) => Ok(()),
        Err(fault) => Err(stop_of(fault, place / 8)),
    }
}
