// All outcomes of a look.
ghost use Rattle.std.specs.Prelude.{◌≡◌, [], ◌∷◌, IfOk};
ghost use Rattle.outcome_walk.specs.Walking.{begun, grown, walked};
ghost use Rattle.outcome_walk.specs.Holding.{parts_held, trails_held, ways_held};

use crate::found::Found;
use crate::level::{Choice, Level, Link, Rows};
use crate::steps::moves;
use std::alloc::{AllocError, Global};

/// Each that some place of a cut leaves, part by part in the order of the choices.
pub fn walk(alloc: Global, places: &[Rows], levels: &[Level]) -> Result<Vec<Found>, AllocError>
    ensures { IfOk result (λ found. trails_held found.items ≡ walked places.now (begun places.now ∷ []) (parts_held levels.now)) }
{
    let mut found = Vec::new(alloc);
    found.push(Found::begun(alloc, places)?)?;
    for level in levels {
        found = grown(alloc, places, &level.links, &level.choices, &found)?;
    }
    Ok(found)
}

// Each of these with each choice that may be found with it.
fn grown(
    alloc: Global,
    places: &[Rows],
    links: &[Link],
    choices: &[Choice],
    found: &[Found],
) -> Result<Vec<Found>, AllocError>
    ensures { IfOk result (λ next. trails_held next.items ≡ grown places.now links.now (ways_held choices.now) (trails_held found.now)) }
{
    let moves = moves(alloc, places, links, choices)?;
    let mut next = Vec::new(alloc);
    for outcome in found {
        outcome.grow(alloc, &moves, &mut next)?;
    }
    Ok(next)
}
