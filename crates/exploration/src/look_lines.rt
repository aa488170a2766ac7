// What a line of the look is.
ghost use Rattle.std.specs.Prelude.{◌≡◌};
ghost use Rattle.script_text.specs.Action.{action_of};
ghost use Rattle.script_text.specs.Parsing.{InBounds};
ghost use Rattle.script_text.specs.Script.{line_input};
ghost use Rattle.exploration.specs.Lines.{look_input, look_line};
ghost use Rattle.exploration.specs.Reads.{read_of};
ghost use Rattle.exploration.specs.Steps.{Finds, look_line_of};

use crate::asking::Wanted;
use crate::reason::Reason;
use crate::stop::LineStop;
use asked_reads::Read;
use questions::{QuestionFault, QuestionKind, Replies, read_question};
use script_text::{Command, LineFault, parse};
use std::alloc::Global;

#[derive(Debug, Drop)]
pub(crate) enum LookLine {
    /// Nothing.
    Passes,
    Reads(Read),
    /// A table of what the reads may find.
    Table,
    /// A list of all outcomes.
    List,
    /// A question, by the replies to all reads.
    Asks(Wanted, Replies),
}

pub(crate) fn read_look_line(alloc: Global, line: &[u8]) -> Result<LookLine, LineStop>
    ensures { Finds look_line_of (look_line line.now) result }
{
    match read_question(alloc, line) {
        Ok(QuestionKind::Plain) => read_plain_line(alloc, line),
        Ok(QuestionKind::Never(replies)) => Ok(LookLine::Asks(Wanted::Never, replies)),
        Ok(QuestionKind::May(replies)) => Ok(LookLine::Asks(Wanted::May, replies)),
        Ok(QuestionKind::Table) => Ok(LookLine::Table),
        Ok(QuestionKind::List) => Ok(LookLine::List),
        Ok(QuestionKind::Look) => Err(LineStop::Untaken(Reason::Again)),
        Ok(QuestionKind::Begin | QuestionKind::Refused) => {
            Err(LineStop::Untaken(Reason::NotInALook))
        },
        Err(QuestionFault::Spelling) => Err(LineStop::Untaken(Reason::Spelling)),
        Err(QuestionFault::Reply(k)) => Err(LineStop::Untaken(Reason::Reply(k))),
        Err(QuestionFault::Memory) => Err(LineStop::Memory),
    }
}

// One that is no question.
fn read_plain_line(alloc: Global, line: &[u8]) -> Result<LookLine, LineStop>
    ensures { Finds look_line_of (look_input (line_input line.now)) result }
{
    match parse(alloc, line) {
        Ok(None) => Ok(LookLine::Passes),
        Ok(Some(command)) => match read_of(&command) {
            Some(read) => Ok(LookLine::Reads(read)),
            None => Err(LineStop::Untaken(Reason::NotInALook)),
        },
        Err(LineFault::Syntax) => Err(LineStop::Untaken(Reason::Command)),
        Err(LineFault::TooLong) => Err(LineStop::Untaken(Reason::TooLong)),
        Err(LineFault::Memory) => Err(LineStop::Memory),
    }
}

fn read_of(command: &Command) -> Option<Read>
    requires { InBounds (action_of command.now) }
    ensures { result ≡ read_of (action_of command.now) }
{
    match command {
        Command::VLoad { offset, len } => Some(Read::Volume {
            start: *offset,
            len: *len,
        }),
        Command::BRead { block, count } => Some(Read::Blocks {
            first: *block as u32,
            count: *count,
        }),
        Command::FRead { name, offset, len } => Some(Read::File {
            name: *name,
            start: *offset as u32,
            len: *len,
        }),
        Command::BWrite { .. }
        | Command::BAtomic { .. }
        | Command::BMulti { .. }
        | Command::BDiscard { .. }
        | Command::BDiscardIf { .. }
        | Command::BExists { .. }
        | Command::BScar { .. }
        | Command::VStore { .. }
        | Command::VSync { .. }
        | Command::VRanges
        | Command::VPSync { .. }
        | Command::VDiscard { .. }
        | Command::VDiscardIf { .. }
        | Command::VExists { .. }
        | Command::Create { .. }
        | Command::Delete { .. }
        | Command::Rename { .. }
        | Command::Resize { .. }
        | Command::List
        | Command::FWrite { .. }
        | Command::FAtomic { .. }
        | Command::FMulti { .. }
        | Command::FDiscard { .. }
        | Command::FSync { .. }
        | Command::Map { .. }
        | Command::Unmap { .. }
        | Command::Load { .. }
        | Command::Store { .. }
        | Command::Sync { .. }
        | Command::Flush { .. }
        | Command::FlushVerify { .. }
        | Command::DeepFlush { .. }
        | Command::NextEvent
        | Command::CheckFile { .. }
        | Command::PoisonBlock { .. }
        | Command::PoisonVolume { .. }
        | Command::PoisonFile { .. }
        | Command::PoisonMeta { .. }
        | Command::WeakenFile { .. }
        | Command::WeakenVolume { .. }
        | Command::ClearFile { .. }
        | Command::ClearVolume { .. }
        | Command::Cut
        | Command::CutIn { .. }
        | Command::FailIn { .. }
        | Command::Restart { .. }
        | Command::Recover
        | Command::Attr { .. }
        | Command::Evict { .. } => None,
    }
}
