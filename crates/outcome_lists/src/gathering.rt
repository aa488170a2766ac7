// What a part of a look is in each state of a program.
ghost use Rattle.std.specs.Prelude.{◌≡◌, [], ◌∷◌, IfOk, None};
ghost use Rattle.explorer.specs.MachineModel.Machine.{Machine};
ghost use Rattle.explorer.specs.AskedReads.Program.{inputs_of_lines};
ghost use Rattle.explorer.specs.CutPlaces.Following.{AreDone, Follows};
ghost use Rattle.explorer.specs.ValueTables.Looking.{IsOf};
ghost use Rattle.explorer.specs.ValueTables.Rows.{read_refusal};
ghost use Rattle.outcome_lists.specs.Choices.{sights_through, states, values_through};
ghost use Rattle.outcome_lists.specs.Courses.{IsCourse};

use crate::course::Course;
use crate::gathered::Gathered;
use explorer::follow;
use explorer::places::Sight;
use explorer::reads_asked::Read;
use std::alloc::{AllocError, Global};

/// All of them, from what is looked at before the program on: the line, the block or the file of the part alone.
pub fn gather(
    alloc: Global,
    course: &Course<'_>,
    part: &Read,
    sight: &mut Sight,
) -> Result<Gathered, AllocError>
    requires course { IsCourse course.now }
    requires taken { read_refusal course.now.geometry part.now ≡ None }
    requires looks { IsOf sight.old course.now.geometry (part.now ∷ []) }
    ensures values { (h : Machine) → Follows sight.old course.now.geometry h → AreDone h course.now.program.now course.now.done.now
        → IfOk result (λ gathered. gathered.word.word.values.items ≡ values_through part.now [] (states h (inputs_of_lines course.now.program.now))) }
    ensures blocks { (h : Machine) → Follows sight.old course.now.geometry h → AreDone h course.now.program.now course.now.done.now
        → IfOk result (λ gathered. gathered.blocks.items ≡ sights_through part.now [] (states h (inputs_of_lines course.now.program.now))) }
{
    let mut gathered = Gathered::none(alloc);
    for (i, line) in course.program.iter().enumerate() {
        if let Some(command) = line {
            gathered.add(part, sight)?;
            follow(course.geometry, command, course.done[i], sight)?;
        }
    }
    gathered.add(part, sight)?;
    Ok(gathered)
}
