// What a line of the program is.
ghost use Rattle.std.specs.Prelude.{◌≡◌, IfOk};
ghost use Rattle.script_text.specs.Action.{action_of};
ghost use Rattle.script_text.specs.Script.{line_input};
ghost use Rattle.outcomes.specs.Stops.{is_of_program};
ghost use Rattle.exploration.specs.Lines.{program_input, program_line};
ghost use Rattle.exploration.specs.Steps.{Finds, IsRightLine, program_line_of};

use crate::reason::Reason;
use crate::stop::LineStop;
use questions::{QuestionFault, QuestionKind, read_question};
use script_text::{Command, LineFault, parse};
use std::alloc::Global;

#[derive(Drop)]
pub(crate) enum ProgramLine {
    /// A command, or none.
    Does(Option<Command>),
    /// Cuts are asked about from the next line on.
    Begins,
    /// The next command is to be refused.
    Refuses,
    /// The look begins.
    Ends,
}

pub(crate) fn read_program_line(alloc: Global, line: &[u8]) -> Result<ProgramLine, LineStop>
    ensures line { Finds program_line_of (program_line line.now) result }
    ensures right { IfOk result (λ line. IsRightLine line) }
{
    match read_question(alloc, line) {
        Ok(QuestionKind::Plain) => read_command(alloc, line),
        Ok(QuestionKind::Begin) => Ok(ProgramLine::Begins),
        Ok(QuestionKind::Refused) => Ok(ProgramLine::Refuses),
        Ok(QuestionKind::Look) => Ok(ProgramLine::Ends),
        Ok(QuestionKind::List | QuestionKind::Table)
        | Ok(QuestionKind::Never(_) | QuestionKind::May(_))
        | Err(QuestionFault::Reply(_)) => Err(LineStop::Untaken(Reason::BeforeTheLook)),
        Err(QuestionFault::Spelling) => Err(LineStop::Untaken(Reason::Spelling)),
        Err(QuestionFault::Memory) => Err(LineStop::Memory),
    }
}

// One that is no question.
fn read_command(alloc: Global, line: &[u8]) -> Result<ProgramLine, LineStop>
    ensures line { Finds program_line_of (program_input (line_input line.now)) result }
    ensures right { IfOk result (λ line. IsRightLine line) }
{
    match parse(alloc, line) {
        Ok(None) => Ok(ProgramLine::Does(None)),
        Ok(Some(command)) => {
            if is_of_program(&command) {
                Ok(ProgramLine::Does(Some(command)))
            } else {
                Err(LineStop::Untaken(Reason::NotInAProgram))
            }
        }
        Err(LineFault::Syntax) => Err(LineStop::Untaken(Reason::Command)),
        Err(LineFault::TooLong) => Err(LineStop::Untaken(Reason::TooLong)),
        Err(LineFault::Memory) => Err(LineStop::Memory),
    }
}

fn is_of_program(command: &Command) -> bool
    ensures { result ≡ is_of_program (action_of command.now) }
{
    !matches!(
        command,
        Command::PoisonMeta { .. }
            | Command::Cut
            | Command::FailIn { .. }
            | Command::Restart { .. }
            | Command::Recover
    )
}
