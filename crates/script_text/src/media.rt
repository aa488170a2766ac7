// Commands on bad and weak lines.
ghost use Rattle.std.specs.Prelude.{◌≡◌, option_map};
ghost use Rattle.script_text.specs.Action.{action_of};
ghost use Rattle.script_text.specs.Action.Action.{ClearFile, ClearVolume, WeakenFile, WeakenVolume};
ghost use Rattle.script_text.specs.Operands.{placed_action};
ghost use Rattle.script_text.specs.Script.{media_action, poison_action, words_of};

use crate::Command;
use crate::operands::{read_only, read_part, read_sized, read_span};
use crate::power::read_power;
use crate::words::next_word;

// One of these, or one further.
pub(crate) fn read_media(name: &[u8], words: &[u8]) -> Option<Command>
    ensures { option_map action_of result ≡ media_action name.now (words_of words.now) }
{
    if name == b"poison".as_slice() {
        read_poison(words)
    } else if name == b"weaken".as_slice() {
        read_weaken(words)
    } else if name == b"clear".as_slice() {
        read_clear(words)
    } else if name == b"check".as_slice() {
        read_part(words).map(|(name, offset, len)| Command::CheckFile { name, offset, len })
    } else {
        read_power(name, words)
    }
}

// `block`, its number and a line in it, `file`, its name and an offset, `volume` and an offset, or `meta` and a line.
fn read_poison(words: &[u8]) -> Option<Command>
    ensures { option_map action_of result ≡ poison_action (words_of words.now) }
{
    let (word, rest) = next_word(words)?;
    if word == b"block".as_slice() {
        read_span(rest).map(|(block, line)| Command::PoisonBlock { block, line })
    } else if word == b"file".as_slice() {
        read_sized(rest).map(|(name, offset)| Command::PoisonFile { name, offset })
    } else if word == b"volume".as_slice() {
        read_only(rest).map(|offset| Command::PoisonVolume { offset })
    } else if word == b"meta".as_slice() {
        read_only(rest).map(|line| Command::PoisonMeta { line })
    } else {
        None
    }
}

// `file`, its name and an offset, or `volume` and an offset.
fn read_weaken(words: &[u8]) -> Option<Command>
    ensures { option_map action_of result ≡ placed_action WeakenFile WeakenVolume (words_of words.now) }
{
    let (word, rest) = next_word(words)?;
    if word == b"file".as_slice() {
        read_sized(rest).map(|(name, offset)| Command::WeakenFile { name, offset })
    } else if word == b"volume".as_slice() {
        read_only(rest).map(|offset| Command::WeakenVolume { offset })
    } else {
        None
    }
}

// The same words.
fn read_clear(words: &[u8]) -> Option<Command>
    ensures { option_map action_of result ≡ placed_action ClearFile ClearVolume (words_of words.now) }
{
    let (word, rest) = next_word(words)?;
    if word == b"file".as_slice() {
        read_sized(rest).map(|(name, offset)| Command::ClearFile { name, offset })
    } else if word == b"volume".as_slice() {
        read_only(rest).map(|offset| Command::ClearVolume { offset })
    } else {
        None
    }
}
