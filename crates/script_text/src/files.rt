// Commands on files.
ghost use Rattle.std.specs.Prelude.{◌≡◌, option_map};
ghost use Rattle.script_text.specs.Action.{action_of};
ghost use Rattle.script_text.specs.Script.{files_action, words_of};

use crate::Command;
use crate::mapped::read_mapped;
use crate::operands::{read_bare, read_name, read_names, read_part, read_sized};

// One of these, or one further.
pub(crate) fn read_files(name: &[u8], words: &[u8]) -> Option<Command>
    ensures { option_map action_of result ≡ files_action name.now (words_of words.now) }
{
    if name == b"create".as_slice() {
        read_sized(words).map(|(name, pages)| Command::Create { name, pages })
    } else if name == b"delete".as_slice() {
        read_name(words).map(|name| Command::Delete { name })
    } else if name == b"rename".as_slice() {
        read_names(words).map(|(name, to)| Command::Rename { name, to })
    } else if name == b"resize".as_slice() {
        read_sized(words).map(|(name, pages)| Command::Resize { name, pages })
    } else if name == b"list".as_slice() {
        read_bare(Command::List, words)
    } else if name == b"fread".as_slice() {
        read_part(words).map(|(name, offset, len)| Command::FRead { name, offset, len })
    } else if name == b"fdiscard".as_slice() {
        read_part(words).map(|(name, page, count)| Command::FDiscard { name, page, count })
    } else if name == b"fsync".as_slice() {
        read_name(words).map(|name| Command::FSync { name })
    } else {
        read_mapped(name, words)
    }
}
