// What a line asks for.
ghost use Rattle.std.specs.Prelude.{◌≡◌, ◌↔◌, ◌<◌, Err, IfOk, IfErr, IfSome, length};
ghost use Rattle.std.specs.Io.BufRead.{strip_last};
ghost use Rattle.script_text.specs.Action.{action_of};
ghost use Rattle.script_text.specs.Parsing.{BringsMore, InBounds, Parses};
ghost use Rattle.script_text.specs.Script.{line_input, words_input, words_of};

use crate::Command;
use crate::lists::read_command;
use crate::words::next_word;
use nvm_base::MOST;
use std::alloc::Global;

/// Why a line has no command.
#[derive(Clone, Copy, Debug, PartialEq, Eq)]
pub enum LineFault {
    Syntax,
    /// Line of more than `MOST` bytes.
    TooLong,
    Memory,
}

/// The command that a line asks for, None where there is nothing to do.
#[tactic(auto, unfolding(crate::specs::Script::line_input))]
pub fn parse(alloc: Global, line: &[u8]) -> Result<Option<Command>, LineFault>
    ensures input { Parses (line_input line.now) result }
    ensures long { (result ≡ Err LineFault.TooLong) ↔ (65536 < length line.now) }
    ensures memory { IfErr result
        (λ e. e ≡ LineFault.Memory → BringsMore (words_of (strip_last 13 line.now))) }
    ensures bounds { IfOk result (λ parsed. IfSome parsed (λ command. InBounds (action_of command))) }
{
    if line.len() as u64 > MOST {
        return Err(LineFault::TooLong);
    }
    parse_words(alloc, without_return(line))
}

fn parse_words(alloc: Global, text: &[u8]) -> Result<Option<Command>, LineFault>
    ensures input { Parses (words_input (words_of text.now)) result }
    ensures memory { IfErr result (λ e. e ≡ LineFault.Memory → BringsMore (words_of text.now)) }
{
    match next_word(text) {
        None | Some(([b'#', ..], _)) => Ok(None),
        Some((name, words)) => Ok(Some(read_command(alloc, name, words)?)),
    }
}

fn without_return(line: &[u8]) -> &[u8]
    ensures { result.now ≡ strip_last 13 line.now }
{
    match line {
        [rest @ .., b'\r'] => rest,
        _ => line,
    }
}
