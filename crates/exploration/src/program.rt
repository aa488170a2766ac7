// The program of a script, line by line.
ghost use Rattle.std.specs.Prelude.{◌≡◌, [], ◌∷◌, ◌++◌, None, IfErr, IfOk, List, OnOk, option_map, replicate};
ghost use Rattle.script_text.specs.Action.{action_of};
ghost use Rattle.script_text.specs.Script.{lines_of};
ghost use Rattle.exploration.specs.Lines.{ProgramLine as LineOfProgram, program_line};
ghost use Rattle.exploration.specs.Lines.ProgramLine.{Begins, Does, Refuses};
ghost use Rattle.exploration.specs.Program.{placed, placed_line};
ghost use Rattle.exploration.specs.Steps.{AddsLine, AreCommands, IsProgramHeld, TakesProgramLine};

use crate::ahead::has_command;
use crate::program_lines::{ProgramLine, read_program_line};
use crate::reason::Reason;
use crate::stop::LineStop;
use script_text::Command;
use std::alloc::{AllocError, Global};
use std::mem;

#[derive(Drop)]
pub(crate) struct Program {
    /// One item for each line up to `# begin`.
    pub(crate) first: Vec<Option<Command>>,
    /// One item for each line, None up to `# begin`.
    pub(crate) lines: Vec<Option<Command>>,
    /// Whether the command of each line is to be refused.
    pub(crate) refused: Vec<bool>,
    /// Whether the next command is.
    marks: bool,
}

impl Program {
    pub(crate) fn new(alloc: Global) -> Self
        ensures { IsProgramHeld [] result }
    {
        Program {
            first: Vec::new(alloc),
            lines: Vec::new(alloc),
            refused: Vec::new(alloc),
            marks: false,
        }
    }

    // One line more, before others: whether it is one of the program.
    pub(crate) fn take(
        &mut self,
        alloc: Global,
        line: &[u8],
        others: &[u8],
    ) -> Result<bool, LineStop>
        ensures { (before : List LineOfProgram) → IsProgramHeld before self.old
            → TakesProgramLine before (placed_line before (lines_of others.now) (program_line line.now)) self.new result }
    {
        match read_program_line(alloc, line)? {
            ProgramLine::Does(command) => self.add(command)?,
            ProgramLine::Begins => self.begin(alloc)?,
            ProgramLine::Refuses => self.mark(alloc, others)?,
            ProgramLine::Ends => return Ok(false),
        }
        Ok(true)
    }

    // A line with this command, or without one.
    fn add(&mut self, command: Option<Command>) -> Result<(), LineStop>
        requires { AreCommands (command ∷ []) }
        ensures line { (before : List LineOfProgram) → IsProgramHeld before self.old
            → OnOk result (IsProgramHeld (before ++ Does (option_map action_of command) ∷ []) self.new) }
        ensures cause { IfErr result (λ e. e ≡ LineStop.Memory) }
    {
        let is_command = command.is_some();
        self.refused
            .push(self.marks && is_command)
            .map_err(AllocError::from)?;
        self.lines.push(command).map_err(AllocError::from)?;
        self.marks = self.marks && !is_command;
        Ok(())
    }

    // Cuts are asked about from the next line on.
    fn begin(&mut self, alloc: Global) -> Result<(), LineStop>
        ensures { (before : List LineOfProgram) → IsProgramHeld before self.old → AddsLine before (placed before [] Begins) self.new result }
    {
        if !self.first.is_empty() {
            return Err(LineStop::Untaken(Reason::Again));
        }
        self.add(None)?;
        let unasked = no_commands(alloc, self.lines.len())?;
        self.first = mem::replace(&mut self.lines, unasked);
        Ok(())
    }

    // The next command, which has to come, is to be refused.
    fn mark(&mut self, alloc: Global, others: &[u8]) -> Result<(), LineStop>
        ensures { (before : List LineOfProgram) → IsProgramHeld before self.old
            → AddsLine before (placed before (lines_of others.now) Refuses) self.new result }
    {
        if self.marks {
            return Err(LineStop::Untaken(Reason::Again));
        }
        if !has_command(alloc, others)? {
            return Err(LineStop::Untaken(Reason::NoCommand));
        }
        self.add(None)?;
        self.marks = true;
        Ok(())
    }
}

// Lines without a command, of this number.
fn no_commands(alloc: Global, n: usize) -> Result<Vec<Option<Command>>, AllocError>
    ensures { IfOk result (λ lines. lines.items ≡ replicate n None) }
{
    let mut lines = Vec::new(alloc);
    for _ in 0..n {
        lines.push(None).map_err(AllocError::from)?;
    }
    Ok(lines)
}
