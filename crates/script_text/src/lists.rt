// Commands that bring a list or a word of any length.
ghost use Rattle.std.specs.Prelude.{◌≡◌, IfErr};
ghost use Rattle.script_text.specs.Action.{action_of};
ghost use Rattle.script_text.specs.Action.Action.{Attr, BAtomic, BMulti, BScar, BWrite, VStore};
ghost use Rattle.script_text.specs.Operands.{data_action, ranges_action, spans_action, word_action};
ghost use Rattle.script_text.specs.Parsing.{IsLong, ParsesAs};
ghost use Rattle.script_text.specs.Script.{command_action, words_of};

use crate::operands::{read_data, read_word};
use crate::ranges::read_ranges;
use crate::spans::read_spans;
use crate::writes::read_writing;
use crate::{Command, LineFault};
use std::alloc::Global;

// The command of that name with those words after it.
#[tactic(auto, unfolding(crate::specs::Script::command_action))]
pub(crate) fn read_command(alloc: Global, name: &[u8], words: &[u8]) -> Result<Command, LineFault>
    ensures command { ParsesAs action_of (command_action name.now (words_of words.now)) result }
    ensures memory { IfErr result (λ e. e ≡ LineFault.Memory → IsLong name.now) }
{
    if name == b"bwrite".as_slice() {
        read_write(alloc, words)
    } else if name == b"vstore".as_slice() {
        read_store(alloc, words)
    } else if name == b"bscar".as_slice() {
        read_scar(alloc, words)
    } else if name == b"batomic".as_slice() {
        read_atomic(alloc, words)
    } else if name == b"bmulti".as_slice() {
        read_multi(alloc, words)
    } else if name == b"attr".as_slice() {
        read_attribute(alloc, words)
    } else {
        read_writing(alloc, name, words)
    }
}

fn read_write(alloc: Global, words: &[u8]) -> Result<Command, LineFault>
    ensures { ParsesAs action_of (data_action BWrite (words_of words.now)) result }
{
    match read_data(alloc, words) {
        Ok((block, bytes)) => Ok(Command::BWrite { block, bytes }),
        Err(fault) => Err(fault),
    }
}

fn read_store(alloc: Global, words: &[u8]) -> Result<Command, LineFault>
    ensures { ParsesAs action_of (data_action VStore (words_of words.now)) result }
{
    match read_data(alloc, words) {
        Ok((offset, bytes)) => Ok(Command::VStore { offset, bytes }),
        Err(fault) => Err(fault),
    }
}

fn read_scar(alloc: Global, words: &[u8]) -> Result<Command, LineFault>
    ensures { ParsesAs action_of (spans_action BScar (words_of words.now)) result }
{
    match read_spans(alloc, words) {
        Ok(ranges) => Ok(Command::BScar { ranges }),
        Err(fault) => Err(fault),
    }
}

fn read_atomic(alloc: Global, words: &[u8]) -> Result<Command, LineFault>
    ensures { ParsesAs action_of (data_action BAtomic (words_of words.now)) result }
{
    match read_data(alloc, words) {
        Ok((block, bytes)) => Ok(Command::BAtomic { block, bytes }),
        Err(fault) => Err(fault),
    }
}

fn read_multi(alloc: Global, words: &[u8]) -> Result<Command, LineFault>
    ensures { ParsesAs action_of (ranges_action BMulti (words_of words.now)) result }
{
    match read_ranges(alloc, words) {
        Ok((ranges, bytes)) => Ok(Command::BMulti { ranges, bytes }),
        Err(fault) => Err(fault),
    }
}

fn read_attribute(alloc: Global, words: &[u8]) -> Result<Command, LineFault>
    ensures { ParsesAs action_of (word_action Attr (words_of words.now)) result }
{
    match read_word(alloc, words) {
        Ok(name) => Ok(Command::Attr { name }),
        Err(fault) => Err(fault),
    }
}
