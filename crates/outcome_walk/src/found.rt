// An outcome of a look, or of its first parts.
ghost use Rattle.std.specs.Prelude.{◌≡◌, ◌++◌, IfOk, OnOk, flat_map};
ghost use Rattle.outcome_walk.specs.Walking.{begun, first_standing};
ghost use Rattle.outcome_walk.specs.Steps.{move_held, moves_held, with_move};
ghost use Rattle.outcome_walk.specs.Holding.{some_held, trail_held, trails_held};

use crate::level::Rows;
use crate::moving::{all_standing, all_stepped};
use crate::sides::{Sides, first_standing};
use crate::steps::Move;
use nvm_base::Bytes;
use std::alloc::{AllocError, Global};

/// Its text, and which sides stand at each place.
#[derive(Drop)]
pub struct Found {
    pub text: Bytes,
    pub sides: Vec<Sides>,
}

impl Found {
    /// The first place that leaves it, by number.
    pub fn first(&self) -> Option<usize>
        ensures { result ≡ first_standing self.now.sides.items }
    {
        first_standing(&self.sides)
    }

    /// Standing of no part.
    pub(crate) fn begun(alloc: Global, places: &[Rows]) -> Result<Self, AllocError>
        ensures { IfOk result (λ found. trail_held found ≡ begun places.now) }
    {
        Ok(Found {
            text: Bytes::new(alloc),
            sides: all_standing(alloc, places)?,
        })
    }

    /// Adds those that it grows to with one of these choices of the next part.
    pub(crate) fn grow(
        &self,
        alloc: Global,
        moves: &[Move],
        grown: &mut Vec<Found>,
    ) -> Result<(), AllocError>
        ensures { OnOk result (trails_held grown.new.items ≡ trails_held grown.old.items
            ++ flat_map (with_move (trail_held self.now)) (moves_held moves.now)) }
    {
        for choice in moves {
            let longer = self.with(alloc, choice)?;
            keep(longer, grown)?;
        }
        Ok(())
    }

    // With that choice too, where some place leaves it so.
    fn with(&self, alloc: Global, choice: &Move) -> Result<Option<Found>, AllocError>
        ensures { IfOk result (λ longer. some_held longer ≡ with_move (trail_held self.now) (move_held choice.now)) }
    {
        let Some(sides) = all_stepped(alloc, &choice.steps, &self.sides)? else {
            return Ok(None);
        };
        let mut text = Bytes::new(alloc);
        text.reserve(self.text.len().saturating_add(choice.text.len()))?;
        text.extend(self.text.as_slice())?;
        text.extend(choice.text.as_slice())?;
        Ok(Some(Found { text, sides }))
    }
}

fn keep(found: Option<Found>, kept: &mut Vec<Found>) -> Result<(), AllocError>
    ensures { OnOk result (trails_held kept.new.items ≡ trails_held kept.old.items ++ some_held found) }
{
    if let Some(found) = found {
        kept.push(found)?;
    }
    Ok(())
}
