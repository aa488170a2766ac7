// The table of a look through a program.
ghost use Rattle.std.specs.Prelude.{◌≡◌, All, IfOk, IsTrue, OnOk, is_none, length, map};
ghost use Rattle.script_text.specs.Action.{action_of};
ghost use Rattle.script_text.specs.Parsing.{InBounds};
ghost use Rattle.word_tables.specs.Bounds.{IsValid};
ghost use Rattle.cut_places.specs.MachineModel.Machine.{Machine};
ghost use Rattle.cut_places.specs.MachineModel.Commands.{refusal};
ghost use Rattle.cut_places.specs.Outcomes.Stops.{IsProgram, is_of_program};
ghost use Rattle.cut_places.specs.AskedReads.Program.{IsBounded, inputs_of_lines};
ghost use Rattle.cut_places.specs.Following.{AreDone, Follows};
ghost use Rattle.cut_places.specs.Places.{cut_places};
ghost use Rattle.value_tables.specs.Looking.{IsOf};
ghost use Rattle.value_tables.specs.Tables.{table_text};
ghost use Rattle.value_tables.specs.Walking.{Prints};

use crate::after::once_done;
use crate::looks::{rows_before, rows_inside};
use crate::table::Table;
use cut_places::reads_asked::Read;
use cut_places::{CutPlace, Sight};
use nvm_base::Bytes;
use script_text::Command;
use std::alloc::{AllocError, Global};
use word_tables::Geometry;

/// The values that each word and each block which the reads touch may have once the power is back, by the places of a cut in the program
/// at which they change. What is looked at are their lines and blocks, read by read.
pub fn table_of(
    alloc: Global,
    program: &[Option<Command>],
    done: &[bool],
    geometry: Geometry,
    reads: &[Read],
    sight: &mut Sight,
) -> Result<Bytes, AllocError>
    requires valid { IsValid geometry }
    requires program { IsProgram (inputs_of_lines program.now) }
    requires bounded { All IsBounded program.now }
    requires told { length done.now ≡ length program.now }
    requires looks { IsOf sight.old geometry reads.now }
    ensures { (h : Machine) → Follows sight.old geometry h → AreDone h program.now done.now
        → IfOk result (λ text. text.items ≡ table_text reads.now (cut_places 1 h (inputs_of_lines program.now))) }
{
    let mut table = Table::new(alloc);
    for (i, line) in program.iter().enumerate() {
        if let Some(command) = line {
            step(
                alloc,
                command,
                done[i],
                i as u64 + 1,
                geometry,
                reads,
                sight,
                &mut table,
            )?;
        }
    }
    let rows = rows_before(alloc, geometry, reads, sight)?;
    table.print(alloc, CutPlace::Before(program.len() as u64 + 1), rows)?;
    let Table { text, last: _ } = table;
    Ok(text)
}

// The places of a cut in the command of the line of that number. What is looked at is then as the command leaves it, where it is done.
fn step(
    alloc: Global,
    command: &Command,
    done: bool,
    line: u64,
    geometry: Geometry,
    reads: &[Read],
    sight: &mut Sight,
    table: &mut Table,
) -> Result<(), AllocError>
    requires valid { IsValid geometry }
    requires program { IsTrue (is_of_program (action_of command.now)) }
    requires bounded { InBounds (action_of command.now) }
    requires looks { IsOf sight.old geometry reads.now }
    ensures prints { (h : Machine) → Follows sight.old geometry h → is_none (refusal h (action_of command.now)) ≡ done
        → OnOk result (Prints reads.now geometry line (action_of command.now) h table.old table.new sight.new) }
    ensures looks { OnOk result (IsOf sight.new geometry reads.now) }
{
    let rows = rows_before(alloc, geometry, reads, sight)?;
    table.print(alloc, CutPlace::Before(line), rows)?;
    if !done {
        return Ok(());
    }
    let after = once_done(alloc, sight, geometry, command)?;
    let rows = rows_inside(alloc, geometry, reads, sight, &after, command)?;
    table.print(alloc, CutPlace::Inside(line), rows)?;
    *sight = after;
    Ok(())
}
