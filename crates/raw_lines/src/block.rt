// The allocation behind a room, and its way back.
ghost use Rattle.std.specs.Prelude.{◌≡◌, ◌*◌, ◌^◌, ◌<◌, None, length, replicate, IfOk};
ghost use Rattle.raw_lines.specs.Kept.{IsLeaseOf};

use crate::room::{Lease, Room, SIZE};
use std::alloc::{AllocError, Allocator};
use std::marker::PhantomData;

pub(crate) fn allocate<A: Allocator>(
    alloc: &A,
    count: usize,
) -> Result<(Room, Lease<A>), AllocError>
    requires { count * 64 < 2 ^ 63 }
    ensures { IfOk result (λ made. (made.0.lines ≡ replicate count None) × IsLeaseOf made.0 made.1 alloc.now) }
{
    match alloc.allocate(count * SIZE, 1) {
        Ok(block) => {
            let start = block as *mut [u8; SIZE];
            let marker = PhantomData;
            Ok((Room { start }, Lease { marker }))
        }
        Err(error) => Err(error),
    }
}

pub(crate) fn free<A: Allocator>(alloc: &A, count: usize, room: Room, lease: Lease<A>)
    requires { (length room.lines ≡ count) × IsLeaseOf room lease alloc.now }
{
    let Room { start } = room;
    let Lease { marker: _ } = lease;
    unsafe { alloc.deallocate(start as *mut u8, count * SIZE, 1) }
}
