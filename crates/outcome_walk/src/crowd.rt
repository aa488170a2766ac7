// Outcomes that stand alike: only their number matters.
ghost use Rattle.std.specs.Prelude.{◌≡◌, ◌+◌, ◌*◌, ℕ, IfSome, List, OnOk, Some, option_map};
ghost use Rattle.outcome_walk.specs.declared.sides.Sides.{Sides as Standing};
ghost use Rattle.outcome_walk.specs.Steps.{moves_held};
ghost use Rattle.outcome_walk.specs.Counting.{below, sides_at, some_counted, weighed};

use crate::moving::all_stepped;
use crate::sides::Sides;
use crate::steps::Move;
use crate::tally::Tally;
use std::alloc::{AllocError, Global};

/// What stands at each place, and how many outcomes stand so.
#[derive(Drop)]
pub struct Crowd {
    pub sides: Vec<Sides>,
    pub number: Tally,
}

impl Crowd {
    /// Adds what they grow to with one of these choices of the next part.
    pub fn grow(
        &self,
        alloc: Global,
        moves: &[Move],
        grown: &mut Vec<Crowd>,
    ) -> Result<(), AllocError>
        ensures { (f : List Standing → ℕ) → OnOk result (weighed f grown.new.items ≡ weighed f grown.old.items
            + self.now.number * below f (moves_held moves.now) self.now.sides.items) }
    {
        for choice in moves {
            let sides = all_stepped(alloc, &choice.steps, &self.sides)?;
            add_some(alloc, sides, &self.number, grown)?;
        }
        Ok(())
    }
}

fn add_some(
    alloc: Global,
    sides: Option<Vec<Sides>>,
    number: &Tally,
    crowds: &mut Vec<Crowd>,
) -> Result<(), AllocError>
    ensures { (f : List Standing → ℕ) → OnOk result (weighed f crowds.new.items ≡ weighed f crowds.old.items + number.now * some_counted f (option_map (λ s. s.items) sides)) }
{
    match sides {
        Some(sides) => add(alloc, sides, number, crowds),
        None => Ok(()),
    }
}

// So many more that stand so: with those that do already, if there are any.
fn add(
    alloc: Global,
    sides: Vec<Sides>,
    number: &Tally,
    crowds: &mut Vec<Crowd>,
) -> Result<(), AllocError>
    ensures { (f : List Standing → ℕ) → OnOk result (weighed f crowds.new.items ≡ weighed f crowds.old.items + number.now * f sides.items) }
{
    match place_of(&sides, crowds) {
        Some(k) => crowds[k].number.add(number),
        None => {
            let number = number.copy(alloc)?;
            crowds.push(Crowd { sides, number })?;
            Ok(())
        }
    }
}

fn place_of(sides: &[Sides], crowds: &[Crowd]) -> Option<usize>
    ensures { IfSome result (λ k. sides_at k crowds.now ≡ Some sides.now) }
{
    for (k, crowd) in crowds.iter().enumerate() {
        if crowd.sides.as_slice() == sides {
            return Some(k);
        }
    }
    None
}
