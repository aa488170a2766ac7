// All places of a cut in a program.
ghost use Rattle.std.specs.Prelude.{◌≡◌, ◌<◌, ◌^◌, ◌++◌, ◌∷◌, IfOk, OnOk};
ghost use Rattle.script_text.specs.Action.{action_of};
ghost use Rattle.explorer.specs.MachineModel.Machine.{Machine};
ghost use Rattle.explorer.specs.AskedReads.Program.{inputs_of_lines};
ghost use Rattle.explorer.specs.CutPlaces.SeesFiles.{SeesFiles};
ghost use Rattle.outcome_lists.specs.Courses.{IsCourse, IsFrom};
ghost use Rattle.outcome_lists.specs.Levels.{before_place, inside_places, places};
ghost use Rattle.outcome_lists.specs.Mixing.{ways_inside};

use crate::course::{Course, sight_of};
use crate::place::Place;
use crate::ways::Ways;
use explorer::follow;
use explorer::places::{CutPlace, FilesSeen};
use outcome_walk::Rows;
use script_text::Command;
use std::alloc::{AllocError, Global};

/// Before each command, inside each that is done, and at the end.
pub fn places(alloc: Global, course: &Course<'_>) -> Result<Vec<Place>, AllocError>
    requires course { IsCourse course.now }
    ensures { (h : Machine) → IsFrom course.now h → IfOk result (λ found. found.items ≡ places h (inputs_of_lines course.now.program.now)) }
{
    let mut seen = sight_of(alloc, &[], &[], &course.sight.files)?;
    let mut found = Vec::new(alloc);
    let mut state = 0;
    for (i, line) in course.program.iter().enumerate() {
        if let Some(command) = line {
            let done = course.done[i];
            add_places(command, done, i as u64 + 1, state, &seen.files, &mut found)?;
            state += 1;
            follow(course.geometry, command, done, &mut seen)?;
        }
    }
    found.push(before(course.program.len() as u64 + 1, state))?;
    Ok(found)
}

// Those of one command, on the line of that number, so many commands behind the first state.
fn add_places(
    command: &Command,
    done: bool,
    line: u64,
    state: usize,
    files: &FilesSeen,
    found: &mut Vec<Place>,
) -> Result<(), AllocError>
    requires few { state < 2 ^ 63 }
    ensures { (h : Machine) → SeesFiles files.now h → OnOk result (found.new.items ≡ found.old.items ++ (before_place line state
        ∷ inside_places line state done (ways_inside h.mappings (action_of command.now)))) }
{
    found.push(before(line, state))?;
    if done {
        found.push(Place {
            at: CutPlace::Inside(line),
            rows: Rows {
                old: state,
                new: state + 1,
            },
            ways: Ways::inside(files, command),
        })?;
    }
    Ok(())
}

fn before(line: u64, state: usize) -> Place
    ensures { result ≡ before_place line state }
{
    Place {
        at: CutPlace::Before(line),
        rows: Rows {
            old: state,
            new: state,
        },
        ways: Ways::still(),
    }
}
