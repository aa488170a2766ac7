// What is reported of blocks on a plain device, step by step.
ghost use Rattle.std.specs.Prelude.{◌<◌};
ghost use Rattle.word_tables.specs.Bounds.{IsValid};

use super::{Act, Told, perform, read, start};
use crate::devices::{LARGE, LARGE_LINES, SMALL, SMALL_LINES, fresh};
use block_device::BlockFault;
use line_device::{Choice, Plain};
use nvm_base::{LineNo, Span};
use std::alloc::Global;
use std::process::Abort;
use std::test::Fail;
use word_tables::Geometry;

// What is done, and what it gives.
type Step = (Act, Told);

const TWO: Span = Span { start: 0, len: 2 };

const ONE: Span = Span { start: 1, len: 1 };

const NONE: Span = Span { start: 1, len: 0 };

const PAST: Span = Span { start: 7, len: 2 };

// Stories of fresh small devices.
static STORIES: [&[Step]; 5] = [
    &[
        (Act::Read(7), Ok(0)),
        (Act::Exists(1), Ok(0)),
        (Act::Write(1, 512, 0xaa), Ok(0)),
        (Act::Read(1), Ok(0xaa)),
        (Act::Exists(1), Ok(1)),
        (Act::Scar(&[Span { start: 1, len: 2 }]), Ok(0)),
        (Act::Read(1), Err(BlockFault::Scarred(1))),
        (Act::Exists(2), Ok(1)),
        (Act::Hint(Span { start: 2, len: 2 }), Ok(0)),
        (Act::Exists(2), Ok(0)),
        (Act::Exists(1), Ok(1)),
        (Act::Discard(TWO), Ok(0)),
        (Act::Read(1), Ok(0)),
        (Act::Exists(1), Ok(0)),
    ],
    // A bad line of a block is reported, and written over.
    &[
        (Act::Write(3, 512, 7), Ok(0)),
        (Act::SpoilIn(3, 5), Ok(0)),
        (Act::Read(3), Err(BlockFault::Poison(3, 5))),
        (Act::Write(3, 512, 8), Ok(0)),
        (Act::Read(3), Ok(8)),
    ],
    &[
        (Act::Write(8, 0, 0), Err(BlockFault::Length)),
        (Act::Write(9, 0, 0), Err(BlockFault::Range)),
        (Act::Write(8, 100, 0), Err(BlockFault::Range)),
        (Act::Write(7, 513, 0), Err(BlockFault::Range)),
        (Act::Write(7, 511, 0), Err(BlockFault::Length)),
        (Act::Write(u64::MAX, 512, 0), Err(BlockFault::Range)),
        (Act::Read(8), Err(BlockFault::Range)),
        (Act::Count, Ok(8)),
        (Act::Write(7, 512, 9), Ok(0)),
        (Act::Exists(7), Ok(1)),
        (Act::Exists(8), Err(BlockFault::Range)),
    ],
    &[
        (Act::Scar(&[TWO, NONE, PAST]), Err(BlockFault::Range)),
        (Act::Scar(&[TWO, ONE, NONE]), Err(BlockFault::Length)),
        (Act::Scar(&[ONE; 9]), Err(BlockFault::Limit)),
        (Act::Scar(&[TWO, ONE]), Err(BlockFault::Overlap)),
        (Act::Scar(&[TWO]), Ok(0)),
    ],
    // A bad line of metadata comes last.
    &[
        (Act::Write(1, 512, 5), Ok(0)),
        (Act::Spoil(900), Ok(0)),
        (Act::Spoil(30), Ok(0)),
        (Act::Scar(&[ONE, ONE]), Err(BlockFault::Overlap)),
        (Act::Scar(&[ONE]), Err(BlockFault::Meta(LineNo(30)))),
        (Act::Discard(ONE), Err(BlockFault::Meta(LineNo(30)))),
        (Act::Write(1, 512, 6), Err(BlockFault::Meta(LineNo(30)))),
        (Act::Read(1), Ok(5)),
    ],
];

// Ranges get their parts of the bytes; then the same blocks, mounted again.
static TOGETHER: [&[Step]; 2] = [
    &[
        (Act::AtOnce(2, 1024, 5), Ok(0)),
        (Act::Pair([7, 3], [6, 8]), Ok(0)),
    ],
    &[
        (Act::Read(2), Ok(5)),
        (Act::Read(3), Ok(8)),
        (Act::Read(7), Ok(6)),
        (Act::Read(6), Ok(0)),
    ],
];

// On the largest device.
static AT_LIMITS: [Step; 11] = [
    (Act::Count, Ok(4096)),
    (Act::Pair([0, 4096], [1, 2]), Err(BlockFault::Range)),
    (Act::Pair([9, 9], [1, 2]), Err(BlockFault::Overlap)),
    (Act::AtOnce(9, 513, 1), Err(BlockFault::Length)),
    (Act::AtOnce(9, 33280, 1), Err(BlockFault::Limit)),
    (Act::Exists(9), Ok(0)),
    (Act::AtOnce(9, 32768, 1), Ok(0)),
    (Act::Read(72), Ok(1)),
    (Act::Write(4095, 512, 9), Ok(0)),
    (Act::Exists(4095), Ok(1)),
    (Act::Exists(4096), Err(BlockFault::Range)),
];

// Mounts the blocks of a device, and goes through a story.
fn follow(
    rt: &impl Abort,
    alloc: Global,
    device: &mut Plain,
    geo: Geometry,
    story: &[Step],
) -> Result<(), Fail>
    requires { IsValid geo }
{
    let mut blocks = start(alloc, device, Choice::Firsts, geo)?;
    for &(act, told) in story {
        let found = perform(&mut blocks, device, alloc, act);
        assert_eq!(rt; found, told);
    }
    Ok(())
}

#[test]
fn each_step_of_a_story_gives_its_value(rt: HostRuntime) -> Result<(), Fail> {
    for &story in &STORIES {
        let mut device = fresh(rt.alloc(), SMALL_LINES)?;
        follow(&rt, rt.alloc(), &mut device, SMALL, story)?;
    }
    Ok(())
}

#[test]
fn ranges_get_their_parts_of_the_bytes(rt: HostRuntime) -> Result<(), Fail> {
    let mut device = fresh(rt.alloc(), SMALL_LINES)?;
    for &story in &TOGETHER {
        follow(&rt, rt.alloc(), &mut device, SMALL, story)?;
    }
    Ok(())
}

#[test]
fn the_largest_device_has_its_last_block(rt: HostRuntime) -> Result<(), Fail> {
    let mut device = fresh(rt.alloc(), LARGE_LINES)?;
    follow(&rt, rt.alloc(), &mut device, LARGE, &AT_LIMITS)
}

// Call k of many writes a block, or takes it away.
fn act_of(k: u8) -> Act {
    let start = block_of(k) as u64;
    if k % 3 == 0 {
        Act::Discard(Span { start, len: 1 })
    } else {
        Act::Write(start, 512, k)
    }
}

// The block that call k changes.
fn block_of(k: u8) -> usize
    ensures { result < 8 }
{
    k as usize * 5 % 8
}

// Makes 200 such calls, and tells the byte that each block has then.
fn change_all(alloc: Global, device: &mut Plain) -> Result<[u64; 8], Fail> {
    let mut blocks = start(alloc, device, Choice::Firsts, SMALL)?;
    let mut told = [0; 8];
    for k in 0..200_u8 {
        if perform(&mut blocks, device, alloc, act_of(k)).is_err() {
            return Err(Fail::from("a call"));
        }
        told[block_of(k)] = if k % 3 == 0 { 0 } else { k as u64 };
    }
    Ok(told)
}

#[test]
fn units_come_round_again(rt: HostRuntime) -> Result<(), Fail> {
    let mut device = fresh(rt.alloc(), SMALL_LINES)?;
    let told = change_all(rt.alloc(), &mut device)?;
    let mut blocks = start(rt.alloc(), &mut device, Choice::Firsts, SMALL)?;
    for block in 0..8_usize {
        let byte = read(&mut blocks, &mut device, block as u64);
        assert_eq!(rt; byte, Ok(told[block]), "of {block}");
    }
    Ok(())
}
