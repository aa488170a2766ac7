// The parts of a look with their choices, and how they go together at each place of a cut.
ghost use Rattle.std.specs.Prelude.{◌≡◌, ◌∷◌, [], IfOk, None, map, option_map};
ghost use Rattle.explorer.specs.MachineModel.Machine.{Machine};
ghost use Rattle.explorer.specs.AskedReads.Program.{inputs_of_lines};
ghost use Rattle.explorer.specs.ValueTables.Looking.{IsOf};
ghost use Rattle.outcome_walk.specs.Holding.{parts_held};
ghost use Rattle.outcome_lists.specs.declared.place.Place.{Place as CutAt};
ghost use Rattle.outcome_lists.specs.Asking.{choices_held};
ghost use Rattle.outcome_lists.specs.Choices.{choices, states};
ghost use Rattle.outcome_lists.specs.Courses.{AllWith, IsAt, IsCourse, IsFrom};
ghost use Rattle.outcome_lists.specs.Levels.{levels};
ghost use Rattle.outcome_lists.specs.Mixing.{link};
ghost use Rattle.outcome_lists.specs.Outcomes.{nothing};
ghost use Rattle.outcome_lists.specs.Parts.{AreParts, IsPart};

use crate::choice::Choice;
use crate::choosing::choices_from;
use crate::course::Course;
use crate::fitting::fitted;
use crate::gathering::gather;
use crate::passed::Passed;
use crate::place::Place;
use explorer::reads_asked::Read;
use outcome_walk::{Level, Link};
use std::alloc::{AllocError, Global};

/// Levels of these parts, of which the course looks at the lines, blocks and files.
pub fn levels(
    alloc: Global,
    course: &Course<'_>,
    places: &[Place],
    parts: &[Read],
) -> Result<Vec<Level>, AllocError>
    requires course { IsCourse course.now }
    requires parts { AreParts course.now.geometry parts.now }
    requires looks { IsOf course.now.sight.now course.now.geometry parts.now }
    ensures { (h : Machine) → IsFrom course.now h
        → IfOk result (λ found. parts_held found.items ≡ levels places.now (states h (inputs_of_lines course.now.program.now)) None parts.now) }
{
    let mut found = Vec::new(alloc);
    let mut passed = Passed::none();
    let mut before = None;
    for part in parts {
        let choices = choices_of(alloc, course, part, &passed)?;
        found.push(Level {
            links: links(alloc, places, before, part)?,
            choices: fitted(alloc, course, part, &passed, &choices)?,
        })?;
        passed.pass(part);
        before = Some(part);
    }
    Ok(found)
}

// How a part goes with the one before it, place by place.
fn links(
    alloc: Global,
    places: &[Place],
    before: Option<&Read>,
    part: &Read,
) -> Result<Vec<Link>, AllocError>
    ensures { IfOk result (λ found. found.items ≡ map (λ (place : CutAt). link place.ways (option_map (λ read. read.now) before.entry) part.now) places.now) }
{
    let mut found = Vec::new(alloc);
    for place in places {
        found.push(place.ways.link(before, part))?;
    }
    Ok(found)
}

// The ways that a part may be found.
fn choices_of(
    alloc: Global,
    course: &Course<'_>,
    part: &Read,
    passed: &Passed,
) -> Result<Vec<Choice>, AllocError>
    requires course { IsCourse course.now }
    requires part { IsPart course.now.geometry part.now }
    requires at { IsAt course.now.sight.now part.now passed.now.lines passed.now.blocks }
    ensures choices { (h : Machine) → IsFrom course.now h → IfOk result (λ found. choices_held found.items ≡ choices (states h (inputs_of_lines course.now.program.now)) part.now) }
    ensures ways { IfOk result (λ found. AllWith course.now.sight.now course.now.geometry (part.now ∷ []) nothing (choices_held found.items)) }
{
    let mut sight = course.sight_of_part(alloc, part, passed)?;
    let gathered = gather(alloc, course, part, &mut sight)?;
    choices_from(alloc, part, &gathered)
}
