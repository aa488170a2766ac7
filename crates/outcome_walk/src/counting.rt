// How many outcomes a look has.
ghost use Rattle.std.specs.Prelude.{◌≡◌, ℕ, [], ◌∷◌, IfOk, List, length};
ghost use Rattle.outcome_walk.specs.declared.sides.Sides.{Sides as Standing};
ghost use Rattle.outcome_walk.specs.Walking.{begun, walked};
ghost use Rattle.outcome_walk.specs.Holding.{parts_held, ways_held};
ghost use Rattle.outcome_walk.specs.Counting.{below, weighed};
ghost use Rattle.outcome_walk.specs.Steps.{moves};

use crate::crowd::Crowd;
use crate::level::{Choice, Level, Link, Rows};
use crate::moving::all_standing;
use crate::steps::moves;
use crate::tally::Tally;
use std::alloc::{AllocError, Global};

/// The number of those that `walk` lists, whatever its size.
pub fn count(alloc: Global, places: &[Rows], levels: &[Level]) -> Result<Tally, AllocError>
    ensures { IfOk result (λ number. number ≡ length (walked places.now (begun places.now ∷ []) (parts_held levels.now))) }
{
    let mut crowds = Vec::new(alloc);
    crowds.push(Crowd {
        sides: all_standing(alloc, places)?,
        number: Tally::one(alloc)?,
    })?;
    for level in levels {
        crowds = grown(alloc, places, &level.links, &level.choices, &crowds)?;
    }
    total(alloc, &crowds)
}

fn grown(
    alloc: Global,
    places: &[Rows],
    links: &[Link],
    choices: &[Choice],
    crowds: &[Crowd],
) -> Result<Vec<Crowd>, AllocError>
    ensures { (f : List Standing → ℕ) → IfOk result (λ next. weighed f next.items ≡ weighed (below f (moves places.now links.now (ways_held choices.now))) crowds.now) }
{
    let moves = moves(alloc, places, links, choices)?;
    let mut next = Vec::new(alloc);
    for crowd in crowds {
        crowd.grow(alloc, &moves, &mut next)?;
    }
    Ok(next)
}

fn total(alloc: Global, crowds: &[Crowd]) -> Result<Tally, AllocError>
    ensures { IfOk result (λ number. number ≡ weighed (λ _. 1) crowds.now) }
{
    let mut number = Tally::none(alloc);
    for crowd in crowds {
        number.add(&crowd.number)?;
    }
    Ok(number)
}
