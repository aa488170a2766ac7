// The choices of a part, place by place: looked up once for all outcomes.
ghost use Rattle.std.specs.Prelude.{◌≡◌, IfOk};
ghost use Rattle.outcome_walk.specs.Walking.{is_shown};
ghost use Rattle.outcome_walk.specs.Holding.{ways_held};
ghost use Rattle.outcome_walk.specs.Steps.{moves, moves_held, step_at, steps};

use crate::level::{Choice, Link, Rows};
use crate::sides::Sides;
use nvm_base::Bytes;
use std::alloc::{AllocError, Global};

/// A choice at a place: the link of its part, and in which of the two states it alone is shown.
#[derive(Clone, Copy)]
pub struct Step {
    pub link: Link,
    pub shown: Sides,
}

/// A choice at all places.
#[derive(Drop)]
pub struct Move {
    pub text: Bytes,
    pub steps: Vec<Step>,
}

pub fn moves(
    alloc: Global,
    places: &[Rows],
    links: &[Link],
    choices: &[Choice],
) -> Result<Vec<Move>, AllocError>
    ensures { IfOk result (λ all. moves_held all.items ≡ moves places.now links.now (ways_held choices.now)) }
{
    let mut moves = Vec::new(alloc);
    for choice in choices {
        let mut text = Bytes::new(alloc);
        text.extend(choice.text.as_slice())?;
        let steps = steps(alloc, places, links, &choice.fits)?;
        moves.push(Move { text, steps })?;
    }
    Ok(moves)
}

fn steps(
    alloc: Global,
    places: &[Rows],
    links: &[Link],
    fits: &[bool],
) -> Result<Vec<Step>, AllocError>
    ensures { IfOk result (λ all. all.items ≡ steps places.now links.now fits.now) }
{
    let mut steps = Vec::new(alloc);
    for i in 0..places.len().min(links.len()) {
        steps.push(step_at(places[i], links[i], fits))?;
    }
    Ok(steps)
}

fn step_at(rows: Rows, link: Link, fits: &[bool]) -> Step
    ensures { result ≡ step_at rows link fits.now }
{
    Step {
        link,
        shown: Sides {
            old: is_shown(fits, rows.old),
            new: is_shown(fits, rows.new),
        },
    }
}

fn is_shown(fits: &[bool], state: usize) -> bool
    ensures { result ≡ is_shown fits.now state }
{
    match fits.get(state) {
        Some(fits) => *fits,
        None => false,
    }
}
