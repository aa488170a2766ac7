// Which states of a program show a choice alone.
ghost use Rattle.std.specs.Prelude.{◌≡◌, ◌∷◌, [], IfOk, map};
ghost use Rattle.word_tables.specs.Bounds.{IsValid};
ghost use Rattle.explorer.specs.MachineModel.Machine.{Machine};
ghost use Rattle.explorer.specs.Outcomes.Seen.{may_show};
ghost use Rattle.explorer.specs.AskedReads.Program.{inputs_of_lines};
ghost use Rattle.explorer.specs.CutPlaces.Following.{Follows, IsWhole};
ghost use Rattle.outcome_walk.specs.Holding.{way_held, ways_held};
ghost use Rattle.outcome_lists.specs.Asking.{asked, choice_held, choices_held};
ghost use Rattle.outcome_lists.specs.Choices.{states};
ghost use Rattle.outcome_lists.specs.Courses.{AllWith, AreOf, IsAt, IsCourse, IsFrom};
ghost use Rattle.outcome_lists.specs.Levels.{fitted, shows_alone};
ghost use Rattle.outcome_lists.specs.Outcomes.{and_seen, look_of, nothing};
ghost use Rattle.outcome_lists.specs.Parts.{IsPart};

use crate::choice::Choice;
use crate::copies::bytes_copy;
use crate::course::Course;
use crate::passed::Passed;
use explorer::follow;
use explorer::places::Sight;
use explorer::reads_asked::{Question, Read};
use explorer::sights_seen::may_be_replies;
use outcome_walk::Choice as Fitted;
use std::alloc::{AllocError, Global};
use word_tables::Geometry;

/// The choices of a part, each with the states that show it.
pub fn fitted(
    alloc: Global,
    course: &Course<'_>,
    part: &Read,
    passed: &Passed,
    choices: &[Choice],
) -> Result<Vec<Fitted>, AllocError>
    requires course { IsCourse course.now }
    requires part { IsPart course.now.geometry part.now }
    requires at { IsAt course.now.sight.now part.now passed.now.lines passed.now.blocks }
    requires ways { AllWith course.now.sight.now course.now.geometry (part.now ∷ []) nothing (choices_held choices.now) }
    ensures { (h : Machine) → IsFrom course.now h
        → IfOk result (λ found. ways_held found.items ≡ map (fitted (states h (inputs_of_lines course.now.program.now))) (choices_held choices.now)) }
{
    let mut found = Vec::new(alloc);
    for choice in choices {
        found.push(fitted_one(alloc, course, part, passed, choice)?)?;
    }
    Ok(found)
}

fn fitted_one(
    alloc: Global,
    course: &Course<'_>,
    part: &Read,
    passed: &Passed,
    choice: &Choice,
) -> Result<Fitted, AllocError>
    requires course { IsCourse course.now }
    requires part { IsPart course.now.geometry part.now }
    requires at { IsAt course.now.sight.now part.now passed.now.lines passed.now.blocks }
    requires way { AreOf course.now.sight.now course.now.geometry (part.now ∷ []) (and_seen nothing (choice_held choice.now).seen) }
    ensures { (h : Machine) → IsFrom course.now h
        → IfOk result (λ found. way_held found ≡ fitted (states h (inputs_of_lines course.now.program.now)) (choice_held choice.now)) }
{
    let mut question = Question {
        volume: Vec::new(alloc),
        blocks: Vec::new(alloc),
        files: Vec::new(alloc),
    };
    choice.asks.add_to(alloc, &mut question)?;
    Ok(Fitted {
        text: bytes_copy(alloc, choice.text.as_slice())?,
        fits: fits(alloc, course, part, passed, &question)?,
    })
}

// Whether each state shows what is asked of the part.
fn fits(
    alloc: Global,
    course: &Course<'_>,
    part: &Read,
    passed: &Passed,
    question: &Question,
) -> Result<Vec<bool>, AllocError>
    requires course { IsCourse course.now }
    requires part { IsPart course.now.geometry part.now }
    requires at { IsAt course.now.sight.now part.now passed.now.lines passed.now.blocks }
    requires way { AreOf course.now.sight.now course.now.geometry (part.now ∷ []) (asked question.now) }
    ensures { (h : Machine) → IsFrom course.now h
        → IfOk result (λ fits. fits.items ≡ map (may_show (look_of (asked question.now))) (states h (inputs_of_lines course.now.program.now))) }
{
    let mut sight = course.sight_of_part(alloc, part, passed)?;
    let mut fits = Vec::new(alloc);
    for (i, line) in course.program.iter().enumerate() {
        if let Some(command) = line {
            fits.push(shows(&sight, question, course.geometry))?;
            follow(course.geometry, command, course.done[i], &mut sight)?;
        }
    }
    fits.push(shows(&sight, question, course.geometry))?;
    Ok(fits)
}

// Whether the state that is looked at does.
fn shows(sight: &Sight, question: &Question, geometry: Geometry) -> bool
    requires valid { IsValid geometry }
    requires whole { IsWhole sight.now question.now }
    ensures { (h : Machine) → Follows sight.now geometry h → result ≡ may_show (look_of (asked question.now)) h }
{
    may_be_replies(question, geometry) && sight.shows(question)
}
