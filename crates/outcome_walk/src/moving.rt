// What stands at each place once one part more is found.
ghost use Rattle.std.specs.Prelude.{◌≡◌, IfOk, option_map, map, true};
ghost use Rattle.outcome_walk.specs.Walking.{both, stands};
ghost use Rattle.outcome_walk.specs.Steps.{all_stepped, if_standing, stepped};

use crate::level::{Link, Rows};
use crate::sides::Sides;
use crate::steps::Step;
use std::alloc::{AllocError, Global};

/// What stands before any part: all.
pub fn all_standing(alloc: Global, places: &[Rows]) -> Result<Vec<Sides>, AllocError>
    ensures { IfOk result (λ sides. sides.items ≡ map (λ _. both true) places.now) }
{
    let mut sides = Vec::with_capacity(alloc, places.len())?;
    for _place in places {
        sides.push(Sides {
            old: true,
            new: true,
        })?;
    }
    Ok(sides)
}

/// What stands with a choice of the next part, by its steps; None where that is nowhere.
pub fn all_stepped(
    alloc: Global,
    steps: &[Step],
    sides: &[Sides],
) -> Result<Option<Vec<Sides>>, AllocError>
    ensures { IfOk result (λ next. option_map (λ sides. sides.items) next ≡ if_standing (all_stepped steps.now sides.now)) }
{
    let count = steps.len().min(sides.len());
    let mut next = Vec::with_capacity(alloc, count)?;
    let mut any = false;
    for i in 0..count {
        let stepped = stepped(steps[i], sides[i]);
        any = any || stepped.stands();
        next.push(stepped)?;
    }
    Ok(any.then_some(next))
}

fn stepped(step: Step, sides: Sides) -> Sides
    ensures { result ≡ stepped step sides }
{
    let Step { link, shown } = step;
    match link {
        Link::Alone => {
            let stands = sides.stands() && shown.old;
            Sides {
                old: stands,
                new: stands,
            }
        }
        Link::Opens => Sides {
            old: sides.stands() && shown.old,
            new: sides.stands() && shown.new,
        },
        Link::Joins => Sides {
            old: sides.old && shown.old,
            new: sides.new && shown.new,
        },
    }
}
