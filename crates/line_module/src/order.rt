// The dirty lines that are not weak.
ghost use Rattle.std.specs.Prelude.{◌≡◌, ◌+◌, ◌<◌, ◌≤◌, true, false, [], ◌∷◌, ◌++◌, length, slice_get, Some, IfOk};
ghost use Rattle.std.specs.Vec.{vec_len, vec_capacity};
ghost use Rattle.line_module.specs.Memory.{has, without};
ghost use Rattle.line_module.specs.Chains.{IsEmptyChain};

use crate::chain::Chain;
use std::alloc::{AllocError, Global};
use std::marker::Model;

/// Most lines, not weak, that may be dirty at a time.
pub const MOST: usize = 1024;

/// Lines in the order in which they became dirty, with the chains of those that may still come. Contracts see the lines.
#[derive(Drop)]
pub struct Order {
    lines: Vec<u64>,
    free: Vec<Chain>,
}

impl Model for Order {
    ghost use Rattle.std.specs.Prelude.{ℕ, List};
    ghost use Rattle.line_module.specs.Order.{IsOrder};

    ghost Value = { List ℕ };

    ghost view = { λ o. o.lines.items };

    ghost invariant = { λ o. IsOrder o.lines o.free };
}

impl Order {
    /// No line, and a chain for each that may come.
    pub fn new(alloc: Global) -> Result<Order, AllocError>
        ensures { IfOk result (λ order. order ≡ []) }
    {
        let lines = Vec::with_capacity(alloc, MOST)?;
        let free = chains(alloc)?;
        Ok(Order { lines, free })
    }

    pub fn len(&self) -> u64
        ensures value { result ≡ length self.now }
        ensures few { result ≤ MOST }
    {
        self.lines.len() as u64
    }

    /// The line that became dirty first.
    pub fn first(&self) -> Option<u64>
        ensures { result ≡ slice_get self.now 0 }
    {
        self.lines.first().copied()
    }

    /// Adds a line, which takes a chain without values.
    pub fn push(&mut self, line: u64) -> Chain
        requires room { length self.old < MOST }
        requires new { has line self.old ≡ false }
        ensures lines { self.new ≡ self.old ++ line ∷ [] }
        ensures chain { IsEmptyChain result }
    {
        let mut chain = self.free.pop().unwrap();
        self.lines.push_reserved(line);
        chain.clear();
        chain
    }

    /// Takes a line out, and its chain back.
    pub fn remove(&mut self, line: u64, chain: Chain)
        requires { has line self.old ≡ true }
        ensures lines { self.new ≡ without line self.old }
        ensures len { length self.new + 1 ≡ length self.old }
    {
        let place = place_of(&self.lines, line);
        self.lines.remove(place);
        self.free.push_reserved(chain);
    }
}

// A chain for each line that may be dirty.
fn chains(alloc: Global) -> Result<Vec<Chain>, AllocError>
    ensures len { IfOk result (λ chains. vec_len chains ≡ MOST) }
    ensures room { IfOk result (λ chains. MOST ≤ vec_capacity chains) }
{
    let mut chains = Vec::with_capacity(alloc, MOST)?;
    for _ in 0..MOST {
        chains.push(Chain::new(alloc)?)?;
    }
    Ok(chains)
}

// Where the line stands in the list. Mostly it is the oldest one or one of the newest.
fn place_of(lines: &[u64], line: u64) -> usize
    requires { has line lines.now ≡ true }
    ensures { slice_get lines.now result ≡ Some line }
{
    if lines[0] == line {
        return 0;
    }
    let mut place = lines.len() - 1;
    while lines[place] != line {
        place -= 1;
    }
    place
}
