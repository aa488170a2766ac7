ghost use Rattle.std.specs.Prelude.{◌≡◌, ◌<◌, ◌↔◌, false, true, length, IfOk, IfSome, IsNone, IsTrue, MatchOption, replicate, slice_index, slice_set};
ghost use Rattle.std.specs.List.{range_with_len};
ghost use Rattle.free_pool.specs.Sparse.{IsIndex};
ghost use Rattle.free_pool.specs.Units.{IsFree, IsTaken, free_count};

use std::alloc::{AllocError, Global};
use std::marker::Model;

/// Units, each free or taken. Contracts see of each unit whether it is free.
#[derive(Debug, Drop)]
pub struct Pool {
    // every unit, the free ones first
    order: Vec<u64>,
    // where each unit is in `order`
    places: Vec<u64>,
    free: u64,
}

impl Model for Pool {
    ghost use Rattle.std.specs.Prelude.{List, Bool};
    ghost use Rattle.free_pool.specs.Sparse.{IsPool, pool_of};

    ghost Value = { List Bool };

    ghost view = { λ p. pool_of p.places.items p.free };

    ghost invariant = { λ p. IsPool p.order.items p.places.items p.free };
}

impl Pool {
    pub fn new(alloc: Global, units: u64) -> Result<Self, AllocError>
        ensures { IfOk result (λ pool. pool ≡ replicate units true) }
    {
        let order = numbers_below(alloc, units)?;
        let places = numbers_below(alloc, units)?;
        Ok(Pool {
            order,
            places,
            free: units,
        })
    }

    /// How many units are free.
    pub fn free(&self) -> u64
        ensures { result ≡ free_count self.now }
    {
        self.free
    }

    pub fn is_free(&self, unit: u64) -> bool
        ensures { IsTrue result ↔ IsFree self.now unit }
    {
        (unit as usize) < self.places.len() && self.places[unit as usize] < self.free
    }

    /// Takes a free unit.
    pub fn take(&mut self) -> Option<u64>
        ensures none { IsNone result ↔ (free_count self.old ≡ 0) }
        ensures was_free { IfSome result (IsFree self.old) }
        ensures after { MatchOption result (self.new ≡ self.old) (λ unit. self.new ≡ slice_set self.old unit false) }
    {
        if self.free == 0 {
            return None;
        }
        self.free -= 1;
        Some(self.order[self.free as usize])
    }

    /// Takes that unit.
    pub fn mark(&mut self, unit: u64)
        requires { IsFree self.old unit }
        ensures { self.new ≡ slice_set self.old unit false }
    {
        let last = self.free - 1;
        move_to(&mut self.order, &mut self.places, unit, last);
        self.free = last;
    }

    /// Gives that unit back.
    pub fn give(&mut self, unit: u64)
        requires { IsTaken self.old unit }
        ensures { self.new ≡ slice_set self.old unit true }
    {
        move_to(&mut self.order, &mut self.places, unit, self.free);
        self.free += 1;
    }
}

fn numbers_below(alloc: Global, end: u64) -> Result<Vec<u64>, AllocError>
    ensures { IfOk result (λ numbers. numbers.items ≡ range_with_len 0 end) }
{
    (0..end).collect(alloc)
}

// Puts a unit at a place of the order, and the unit that was there where it comes from.
fn move_to(order: &mut Vec<u64>, places: &mut Vec<u64>, unit: u64, to: u64)
    requires index { IsIndex order.old.items places.old.items }
    requires unit { unit < length places.old.items }
    requires to { to < length order.old.items }
    ensures index { IsIndex order.new.items places.new.items }
    ensures places { places.new.items ≡
        slice_set (slice_set places.old.items (slice_index order.old.items to) (slice_index places.old.items unit)) unit to }
{
    let from = places[unit as usize];
    let other = order[to as usize];
    order[from as usize] = other;
    order[to as usize] = unit;
    places[other as usize] = from;
    places[unit as usize] = to;
}
