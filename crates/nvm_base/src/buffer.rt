// A growable list whose room callers can reason about.
ghost use Rattle.std.specs.Prelude.{◌≡◌, ◌+◌, ◌<◌, ◌≤◌, [], ◌∷◌, ◌++◌, length, take, replicate, ◌↔◌, IsTrue, IsOk, OnOk, OnErr};

use crate::Span;
use std::alloc::{AllocError, Global};
use std::marker::Model;

/// A list of items. Contracts see its items and its spare: how many more it takes without asking for memory.
#[derive(Debug, Drop)]
pub struct Buffer<T> {
    list: Vec<T>,
}

/// A list of bytes.
pub type Bytes = Buffer<u8>;

/// A list of spans.
pub type Spans = Buffer<Span>;

/// A list of 64-bit words.
pub type Words = Buffer<u64>;

impl<T> Model for Buffer<T> {
    ghost use Rattle.std.specs.Prelude.{◌-◌};
    ghost use Rattle.std.specs.Vec.{vec_len, vec_capacity};
    ghost use Rattle.nvm_base.specs.Stock.{Stock};

    ghost Value = { Stock T };

    ghost view = { λ b. record { items = b.list.items; spare = vec_capacity b.list - vec_len b.list } };
}

impl<T: Drop> Buffer<T> {
    ghost use Rattle.std.specs.Borrow.{sem};
    ghost use Rattle.nvm_base.specs.Lends.{lends_items};

    /// An empty list, which takes no memory.
    pub fn new(alloc: Global) -> Self
        ensures { result.items ≡ [] }
    {
        Buffer {
            list: Vec::new(alloc),
        }
    }

    /// Adds an item at the end.
    pub fn push(&mut self, item: T) -> Result<(), AllocError>
        ensures ok { OnOk result (self.new.items ≡ self.old.items ++ item ∷ []) }
        ensures err { OnErr result (self.new ≡ self.old) }
        ensures succeeds { 0 < self.old.spare → IsOk result }
        ensures spare { self.old.spare ≤ self.new.spare + 1 }
    {
        // A failed `reserve` leaves the room as it was, which a failed `push` doesn't promise.
        self.list.reserve(1)?;
        self.list.push(item)?;
        Ok(())
    }

    /// Makes room for that many more items.
    pub fn reserve(&mut self, n: u64) -> Result<(), AllocError>
        ensures items { self.new.items ≡ self.old.items }
        ensures ok { OnOk result (n ≤ self.new.spare) }
        ensures err { OnErr result (self.new ≡ self.old) }
        ensures succeeds { n ≤ self.old.spare → IsOk result }
        ensures spare { self.old.spare ≤ self.new.spare }
    {
        self.list.reserve(n as usize)
    }

    pub fn as_slice(&self) -> &[T]
        ensures { result.now ≡ self.now.items }
    {
        self.list.as_slice()
    }

    pub fn len(&self) -> u64
        ensures { result ≡ length self.now.items }
    {
        self.list.len() as u64
    }

    pub fn is_empty(&self) -> bool
        ensures { IsTrue result ↔ (self.now.items ≡ []) }
    {
        self.list.is_empty()
    }

    /// Drops the items and keeps the room.
    pub fn clear(&mut self)
        ensures items { self.new.items ≡ [] }
        ensures spare { self.new.spare ≡ self.old.spare + length self.old.items }
    {
        self.list.clear();
    }

    /// Drops the items from that place on and keeps the room.
    pub fn truncate(&mut self, n: u64)
        requires { n ≤ length self.old.items }
        ensures items { self.new.items ≡ take n self.old.items }
        ensures spare { self.new.spare + n ≡ self.old.spare + length self.old.items }
    {
        self.list.truncate(n as usize);
    }

    /// The items, for writing.
    pub fn as_mut_slice(&mut self) -> &mut [T]
        ensures* writes_back { sem 𝓛 (lends_items T.row self.entry result) }
        ensures value { result.now ≡ self.old.items }
    {
        self.list.as_mut_slice()
    }
}

impl<T: Copy + Drop> Buffer<T> {
    /// Adds items at the end, all of them or none.
    pub fn extend(&mut self, items: &[T]) -> Result<(), AllocError>
        ensures ok { OnOk result (self.new.items ≡ self.old.items ++ items.now) }
        ensures err { OnErr result (self.new ≡ self.old) }
        ensures succeeds { length items.now ≤ self.old.spare → IsOk result }
        ensures spare { self.old.spare ≤ self.new.spare + length items.now }
    {
        self.list.reserve(items.len())?;
        self.list.extend_from_slice(items)?;
        Ok(())
    }

    /// Adds a number of equal items at the end, all of them or none.
    pub fn repeat(&mut self, item: T, n: u64) -> Result<(), AllocError>
        ensures ok { OnOk result (self.new.items ≡ self.old.items ++ replicate n item) }
        ensures err { OnErr result (self.new ≡ self.old) }
        ensures succeeds { n ≤ self.old.spare → IsOk result }
        ensures spare { self.old.spare ≤ self.new.spare + n }
    {
        self.reserve(n)?;
        for _ in 0..n {
            self.push(item)?;
        }
        Ok(())
    }
}
