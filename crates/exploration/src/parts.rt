// The two parts of a script.
ghost use Rattle.std.specs.Prelude.{◌≡◌, ◌≤◌, ◌<◌, ◌+◌, ◌^◌, [], IfOk, length, vec_len};
ghost use Rattle.script_text.specs.Script.{lines_of};
ghost use Rattle.exploration.specs.Program.{parts_from};
ghost use Rattle.exploration.specs.Steps.{ReadsParts};

use crate::exploration::ScriptFault;
use crate::lines::next_line;
use crate::program::Program;
use crate::reason::Reason;
use std::alloc::Global;

#[derive(Drop)]
pub(crate) struct Parts<'a> {
    pub(crate) program: Program,
    /// What comes after the program.
    pub(crate) look: &'a [u8],
}

// The program of a script, and the text of its look.
pub(crate) fn read_parts(alloc: Global, script: &[u8]) -> Result<Parts<'_>, ScriptFault>
    requires { length script.now < 2 ^ 32 }
    ensures script { ReadsParts (parts_from [] (lines_of script.now)) result }
    ensures room { IfOk result (λ parts. vec_len parts.program.lines + length parts.look.now ≤ length script.now) }
{
    let mut program = Program::new(alloc);
    let mut rest = script;
    while let Some((line, others)) = next_line(rest) {
        let number = program.lines.len() as u64 + 1;
        match program.take(alloc, line, others) {
            Ok(true) => {}
            Ok(false) => {
                return Ok(Parts {
                    program,
                    look: others,
                });
            },
            Err(stop) => return Err(stop.at(number)),
        }
        rest = others;
    }
    let end = program.lines.len() as u64 + 1;
    Err(ScriptFault::Line(end, Reason::NothingAsked))
}
