ghost use Rattle.std.specs.Prelude.{◌≡◌, ◌<◌, None, Some, IfOk, IfSome, length, option_copied, replicate, slice_get, slice_set};
ghost use Rattle.std.specs.Option.{option_copied_mut};
ghost use Rattle.std.specs.Borrow.{sem};

use crate::block;
use crate::room::{Lease, Room, SIZE};
use std::alloc::{AllocError, Global};
use std::marker::Model;

// The most lines whose bytes an allocation can have.
const MOST_LINES: u64 = isize::MAX as u64 / SIZE as u64;

/// Lines of 64 bytes, each held or bare. Contracts see the bytes of those that are held.
pub struct Region {
    room: Room,
    // which lines are held
    held: Vec<bool>,
    lease: Lease<Global>,
    alloc: Global,
}

impl Model for Region {
    ghost use Rattle.std.specs.Prelude.{ℕ, List, Option};
    ghost use Rattle.raw_lines.specs.Kept.{IsRegion};

    ghost Value = { List (Option (List ℕ)) };

    ghost view = { λ r. r.room.lines };

    ghost invariant = { λ r. IsRegion r.room r.held.items r.lease r.alloc };
}

impl Region {
    ghost use Rattle.raw_lines.specs.RegionLends.{lends_line};

    /// `n` bare lines, whose memory is not written. More than an allocation can have are refused too.
    pub fn new(alloc: Global, n: u64) -> Result<Self, AllocError>
        ensures lines { IfOk result (λ region. region ≡ replicate n None) }
    {
        if n > MOST_LINES {
            return Err(AllocError);
        }
        let count = n as usize;
        let held = Vec::from_elem(alloc, false, count)?;
        let (room, lease) = block::allocate(&alloc, count)?;
        Ok(Region {
            room,
            held,
            lease,
            alloc,
        })
    }

    /// The bytes of a line, unless it is bare.
    pub fn line(&self, i: u64) -> Option<&[u8]>
        requires { i < length self.now }
        ensures value { slice_get self.now i ≡ Some (option_copied result) }
        ensures length { IfSome result (λ line. length line.now ≡ 64) }
    {
        if self.held[i as usize] {
            Some(self.room.read(i as usize))
        } else {
            None
        }
    }

    /// The bytes of a line, for writing, unless it is bare.
    pub fn line_mut(&mut self, i: u64) -> Option<&mut [u8; 64]>
        requires { i < length self.old }
        ensures* writes_back { sem 𝓛 (lends_line self.entry i result) }
        ensures value { slice_get self.old i ≡ Some (option_copied_mut result) }
    {
        if !self.held[i as usize] {
            return None;
        }
        Some(self.room.read_mut(i as usize))
    }

    /// From here on the line has these bytes.
    pub fn hold(&mut self, i: u64, bytes: &[u8; 64])
        requires { i < length self.old }
        ensures lines { self.new ≡ slice_set self.old i (Some bytes.now) }
    {
        self.room.write(i as usize, *bytes);
        self.held[i as usize] = true;
    }

    /// From here on the line is bare.
    pub fn bare(&mut self, i: u64)
        requires { i < length self.old }
        ensures lines { self.new ≡ slice_set self.old i None }
    {
        self.held[i as usize] = false;
        self.room.forget(i as usize);
    }
}

impl Drop for Region {
    fn drop(self) {
        let Region {
            room,
            held,
            lease,
            alloc,
        } = self;
        block::free(&alloc, held.len(), room, lease);
    }
}
