// Writes to a file.
ghost use Rattle.std.specs.Prelude.{◌≡◌, ℕ, IfErr, List};
ghost use Rattle.nvm_base.specs.declared.units.Span.{Span as Stretch};
ghost use Rattle.script_text.specs.Action.{Action, action_of};
ghost use Rattle.script_text.specs.Action.Action.{FAtomic, FMulti, FWrite};
ghost use Rattle.script_text.specs.Operands.{data_action, named_action, ranges_action};
ghost use Rattle.script_text.specs.Parsing.{IsLong, ParsesAs};
ghost use Rattle.script_text.specs.Script.{words_of, writing_action};

use crate::mapped::read_storing;
use crate::operands::read_data;
use crate::ranges::read_ranges;
use crate::words::next_word;
use crate::{Command, LineFault};
use nvm_base::{Bytes, Name, Spans};
use std::alloc::Global;

// One of these, or one further.
pub(crate) fn read_writing(alloc: Global, name: &[u8], words: &[u8]) -> Result<Command, LineFault>
    ensures command { ParsesAs action_of (writing_action name.now (words_of words.now)) result }
    ensures memory { IfErr result (λ e. e ≡ LineFault.Memory → IsLong name.now) }
{
    if name == b"fwrite".as_slice() {
        read_file_write(alloc, words)
    } else if name == b"fatomic".as_slice() {
        read_file_atomic(alloc, words)
    } else if name == b"fmulti".as_slice() {
        read_file_multi(alloc, words)
    } else {
        read_storing(alloc, name, words)
    }
}

fn read_file_write(alloc: Global, words: &[u8]) -> Result<Command, LineFault>
    ensures { ParsesAs action_of (named_action (λ file. data_action (FWrite file)) (words_of words.now)) result }
{
    match read_named_data(alloc, words) {
        Ok((name, offset, bytes)) => Ok(Command::FWrite {
            name,
            offset,
            bytes,
        }),
        Err(fault) => Err(fault),
    }
}

fn read_file_atomic(alloc: Global, words: &[u8]) -> Result<Command, LineFault>
    ensures { ParsesAs action_of (named_action (λ file. data_action (FAtomic file)) (words_of words.now)) result }
{
    match read_named_data(alloc, words) {
        Ok((name, offset, bytes)) => Ok(Command::FAtomic {
            name,
            offset,
            bytes,
        }),
        Err(fault) => Err(fault),
    }
}

fn read_file_multi(alloc: Global, words: &[u8]) -> Result<Command, LineFault>
    ensures { ParsesAs action_of (named_action (λ file. ranges_action (FMulti file)) (words_of words.now)) result }
{
    match read_named_ranges(alloc, words) {
        Ok((name, ranges, bytes)) => Ok(Command::FMulti {
            name,
            ranges,
            bytes,
        }),
        Err(fault) => Err(fault),
    }
}

// A name, a number and DATA.
fn read_named_data(alloc: Global, words: &[u8]) -> Result<(Name, u64, Bytes), LineFault>
    ensures { (make : List ℕ → ℕ → List ℕ → Action)
        → ParsesAs (λ p. make p.0 p.1 p.2.items) (named_action (λ file. data_action (make file)) (words_of words.now)) result }
{
    let Some((name, rest)) = next_word(words) else {
        return Err(LineFault::Syntax);
    };
    let Some(name) = Name::read(name) else {
        return Err(LineFault::Syntax);
    };
    match read_data(alloc, rest) {
        Ok((offset, bytes)) => Ok((name, offset, bytes)),
        Err(fault) => Err(fault),
    }
}

// A name and ranges.
fn read_named_ranges(alloc: Global, words: &[u8]) -> Result<(Name, Spans, Bytes), LineFault>
    ensures { (make : List ℕ → List Stretch → List ℕ → Action)
        → ParsesAs (λ p. make p.0 p.1.items p.2.items) (named_action (λ file. ranges_action (make file)) (words_of words.now)) result }
{
    let Some((name, rest)) = next_word(words) else {
        return Err(LineFault::Syntax);
    };
    let Some(name) = Name::read(name) else {
        return Err(LineFault::Syntax);
    };
    match read_ranges(alloc, rest) {
        Ok((ranges, bytes)) => Ok((name, ranges, bytes)),
        Err(fault) => Err(fault),
    }
}
