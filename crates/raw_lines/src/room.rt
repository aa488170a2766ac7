// The room of a region, and each step that follows its pointer.
ghost use Rattle.std.specs.Prelude.{◌≡◌, ◌<◌, ℕ, List, Option, Some, None, get_or, length, slice_set};
ghost use Rattle.std.specs.Borrow.{ftrue, sem};
ghost use denote.RawPtr.{Ptr};
ghost use Rattle.raw_lines.specs.Lines.{IsHeld};
ghost use Rattle.raw_lines.specs.Ownership.{lease_owns, room_lends, room_owns};

use nvm_base::LINE;
use std::alloc::Allocator;
use std::marker::{Model, PhantomData};

/// Bytes of a line.
pub(crate) const SIZE: usize = LINE as usize;

/// Room for lines, side by side. Contracts see of each the bytes that were written there, if any.
pub struct Room {
    pub(crate) start: *mut [u8; SIZE],
    ghost lines: { List (Option (List ℕ)) },
}

impl Model for Room {
    ghost also_owns = { λ r. room_owns r.start r.lines };

    ghost also_shares = { λ r _ κ. room_lends r.start r.lines κ };
}

/// The right to give the room for `count` lines at `start` back to `alloc`. It takes no space.
pub struct Lease<A: Allocator> {
    pub(crate) marker: PhantomData<A>,
    ghost alloc: { A },
    ghost start: { Ptr },
    ghost count: { ℕ },
}

impl<A: Allocator> Model for Lease<A> {
    ghost also_owns = { λ l. lease_owns (A.dealloc_token l.alloc) l.start l.count };

    ghost also_shares = { λ _ _ _. ftrue };
}

impl Room {
    ghost use Rattle.raw_lines.specs.Lends.{lends_bytes};

    pub(crate) fn read(&self, line: usize) -> &[u8; SIZE]
        requires { IsHeld self.now.lines line }
        ensures { get_or self.now.lines line None ≡ Some result.now }
    {
        unsafe { &*self.start.add(line) }
    }

    pub(crate) fn read_mut(&mut self, line: usize) -> &mut [u8; SIZE]
        requires { IsHeld self.old.lines line }
        ensures* writes_back { sem 𝓛 (lends_bytes self.entry line result) }
        ensures value { get_or self.old.lines line None ≡ Some result.now }
    {
        unsafe { &mut *self.start.add(line) }
    }

    pub(crate) fn write(&mut self, line: usize, bytes: [u8; SIZE])
        requires { line < length self.old.lines }
        ensures { (self.new.start ≡ self.old.start) × (self.new.lines ≡ slice_set self.old.lines line (Some bytes)) }
    {
        unsafe { self.start.add(line).write(bytes) }
    }

    /// From here on the line's memory counts as never written.
    pub(crate) fn forget(&mut self, line: usize)
        requires { line < length self.old.lines }
        ensures { (self.new.start ≡ self.old.start) × (self.new.lines ≡ slice_set self.old.lines line None) }
    {
        let _ = line;
    }
}
