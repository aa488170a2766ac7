// A line as far as it is known.
ghost use Rattle.std.specs.Prelude.{◌≡◌, ◌↔◌, ◌++◌, ◌≤◌, ℕ, [], List, length, IfOk, IfSome, IsTrue, None, Some};
ghost use Rattle.script_text.specs.Streaming.{kept};

use nvm_base::{Bytes, MOST};
use std::alloc::{AllocError, Global};
use std::marker::Model;

/// The bytes of a line that may grow, until it is longer than a line may be. They stand in memory that is taken once.
#[derive(Drop)]
pub(crate) struct Held {
    bytes: Bytes,
    overlong: bool,
}

impl Model for Held {
    ghost use Rattle.std.specs.Prelude.{◌+◌, ◌≤◌, ℕ, List, Option, None, Some, length, if◌then◌else◌};

    ghost Value = { Option (List ℕ) };

    ghost view = { λ h. if h.overlong then None else Some h.bytes.items };

    ghost invariant = { λ h. (length h.bytes.items ≤ 65536) × (65536 ≤ h.bytes.spare + length h.bytes.items) };
}

impl Held {
    /// An empty line.
    pub(crate) fn new(alloc: Global) -> Result<Self, AllocError>
        ensures { IfOk result (λ h. h ≡ Some []) }
    {
        let mut bytes = Bytes::new(alloc);
        bytes.reserve(MOST)?;
        Ok(Held {
            bytes,
            overlong: false,
        })
    }

    pub(crate) fn clear(&mut self)
        ensures { self.new ≡ Some [] }
    {
        self.bytes.clear();
        self.overlong = false;
    }

    /// Adds bytes at the end. None are kept of a line that is too long.
    pub(crate) fn add(&mut self, more: &[u8])
        ensures { (line : List ℕ) → self.old ≡ kept line → self.new ≡ kept (line ++ more.now) }
    {
        if self.overlong || more.len() as u64 > MOST - self.bytes.len() {
            self.overlong = true;
            return;
        }
        match self.bytes.extend(more) {
            Ok(()) => {}
            Err(_) => unreachable!(),
        }
    }

    pub(crate) fn is_overlong(&self) -> bool
        ensures { IsTrue result ↔ (self.now ≡ None) }
    {
        self.overlong
    }

    pub(crate) fn is_empty(&self) -> bool
        ensures { IsTrue result ↔ (self.now ≡ Some []) }
    {
        !self.overlong && self.bytes.is_empty()
    }

    /// The line's bytes, where it is not too long.
    pub(crate) fn as_slice(&self) -> &[u8]
        ensures { IfSome self.now (λ line. result.now ≡ line) }
    {
        self.bytes.as_slice()
    }
}
