// What comes later in a program.
ghost use Rattle.std.specs.Prelude.{◌≡◌, IfErr, IfOk};
ghost use Rattle.script_text.specs.Script.{lines_of};
ghost use Rattle.exploration.specs.Program.{has_command};

use crate::lines::next_line;
use crate::program_lines::{ProgramLine, read_program_line};
use crate::stop::LineStop;
use std::alloc::Global;

// Whether a command of the program is among these lines.
pub(crate) fn has_command(alloc: Global, text: &[u8]) -> Result<bool, LineStop>
    ensures value { IfOk result (λ there. there ≡ has_command (lines_of text.now)) }
    ensures cause { IfErr result (λ e. e ≡ LineStop.Memory) }
{
    let mut rest = text;
    while let Some((line, others)) = next_line(rest) {
        match read_program_line(alloc, line) {
            Ok(ProgramLine::Does(Some(_))) => return Ok(true),
            Ok(ProgramLine::Ends) => return Ok(false),
            Ok(ProgramLine::Does(None) | ProgramLine::Begins | ProgramLine::Refuses)
            | Err(LineStop::Untaken(_)) => {}
            Err(LineStop::Memory) => return Err(LineStop::Memory),
        }
        rest = others;
    }
    Ok(false)
}
