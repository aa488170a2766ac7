ghost use Rattle.std.specs.Prelude.{◌≡◌, ◌<◌, ◌≤◌, ◌^◌, All, IfOk, length};
ghost use Rattle.word_tables.specs.Bounds.{IsValid};
ghost use Rattle.exploration.specs.Exploration.{script_of};
ghost use Rattle.outcomes.specs.Stops.{IsProgram};
ghost use Rattle.asked_reads.specs.Program.{IsBounded, inputs_of_lines};
ghost use Rattle.exploration.specs.Reading.{ReadsScript};

use crate::asking::Asking;
use crate::look::{Look, read_look};
use crate::parts::{Parts, read_parts};
use crate::program::Program;
use crate::reason::Reason;
use asked_reads::Read;
use script_text::Command;
use std::alloc::{AllocError, Global};
use word_tables::Geometry;

/// What a script has to be explored.
#[derive(Drop)]
pub struct Exploration {
    /// One item for each line up to `# begin`, None where it has no command; empty where there is no such line.
    pub first: Vec<Option<Command>>,
    /// One item for each line of the program, None where it has no command, and up to `# begin`.
    pub program: Vec<Option<Command>>,
    /// Whether the command of each line of the program is to be refused.
    pub refused: Vec<bool>,
    /// The reads of the look.
    pub reads: Vec<Read>,
    /// Whether a table of what they may find is asked for.
    pub table: bool,
    /// Whether a list of all outcomes is asked for.
    pub list: bool,
    pub questions: Vec<Asking>,
}

/// Why a script is not explored.
#[derive(Clone, Copy, Debug, PartialEq, Eq)]
pub enum ScriptFault {
    /// The first line that is not taken, by its number from 1 on, and why.
    Line(u64, Reason),
    Memory,
}

impl From<AllocError> for ScriptFault {
    ghost use Rattle.std.specs.Prelude.{◌≡◌};
    ghost use Rattle.exploration.specs.declared.exploration.ScriptFault.TheVariants.{Memory};

    ghost from_gives = { λ _ fault. fault ≡ Memory };

    fn from(_: AllocError) -> Self {
        ScriptFault::Memory
    }
}

/// The program of a script, and what it asks on a device of these sizes.
pub fn read_script(
    alloc: Global,
    geometry: Geometry,
    script: &[u8],
) -> Result<Exploration, ScriptFault>
    requires valid { IsValid geometry }
    requires few { length script.now < 2 ^ 32 }
    ensures script { ReadsScript (script_of geometry script.now) result }
    ensures first { IfOk result (λ e. IsProgram (inputs_of_lines e.first.items)) }
    ensures first_bounds { IfOk result (λ e. All IsBounded e.first.items) }
    ensures program { IfOk result (λ e. IsProgram (inputs_of_lines e.program.items)) }
    ensures bounds { IfOk result (λ e. All IsBounded e.program.items) }
    ensures first_len { IfOk result (λ e. length e.first.items ≤ length e.program.items) }
    ensures refused_len { IfOk result (λ e. length e.refused.items ≡ length e.program.items) }
{
    let Parts { program, look } = read_parts(alloc, script)?;
    let Program {
        first,
        lines,
        refused,
        ..
    } = program;
    let number = lines.len() as u64 + 2;
    let Look {
        reads,
        table,
        list,
        questions,
    } = read_look(alloc, geometry, look, number)?;
    Ok(Exploration {
        first,
        program: lines,
        refused,
        reads,
        table,
        list,
        questions,
    })
}
