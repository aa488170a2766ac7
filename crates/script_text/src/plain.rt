// Commands on blocks and on the volume that bring no list.
ghost use Rattle.std.specs.Prelude.{◌≡◌, option_map};
ghost use Rattle.script_text.specs.Action.{action_of};
ghost use Rattle.script_text.specs.Script.{plain_action, volume_action, words_of};

use crate::Command;
use crate::files::read_files;
use crate::operands::{read_bare, read_only, read_span};

// A command that brings no list.
pub(crate) fn read_plain(name: &[u8], words: &[u8]) -> Option<Command>
    ensures { option_map action_of result ≡ plain_action name.now (words_of words.now) }
{
    if name == b"bread".as_slice() {
        read_span(words).map(|(block, count)| Command::BRead { block, count })
    } else if name == b"bdiscard".as_slice() {
        read_span(words).map(|(block, count)| Command::BDiscard { block, count })
    } else if name == b"bdiscardif".as_slice() {
        read_span(words).map(|(block, count)| Command::BDiscardIf { block, count })
    } else if name == b"bexists".as_slice() {
        read_only(words).map(|block| Command::BExists { block })
    } else {
        read_volume(name, words)
    }
}

// A command on the volume, or one further.
fn read_volume(name: &[u8], words: &[u8]) -> Option<Command>
    ensures { option_map action_of result ≡ volume_action name.now (words_of words.now) }
{
    if name == b"vload".as_slice() {
        read_span(words).map(|(offset, len)| Command::VLoad { offset, len })
    } else if name == b"vsync".as_slice() {
        read_span(words).map(|(offset, len)| Command::VSync { offset, len })
    } else if name == b"vpsync".as_slice() {
        read_span(words).map(|(address, len)| Command::VPSync { address, len })
    } else if name == b"vdiscard".as_slice() {
        read_span(words).map(|(page, count)| Command::VDiscard { page, count })
    } else if name == b"vdiscardif".as_slice() {
        read_span(words).map(|(page, count)| Command::VDiscardIf { page, count })
    } else if name == b"vexists".as_slice() {
        read_only(words).map(|page| Command::VExists { page })
    } else if name == b"vranges".as_slice() {
        read_bare(Command::VRanges, words)
    } else {
        read_files(name, words)
    }
}
