// Memory modules, as a caller sees them.
use crate::calls::{byte, cycle, store, weaken};
use crate::stories::{Act, Step, follow};
use line_device::{Choice, DeviceFault, LineDevice, LineState};
use line_module::Module;
use nvm_base::LineNo;
use std::alloc::Global;
use std::test::Fail;

fn new(alloc: Global, lines: u64) -> Result<Module, Fail> {
    let mut device = Module::new(alloc);
    if lines == 0 || lines > 118_016 {
        return Ok(device);
    }
    device.reset(lines, 8)?;
    Ok(device)
}

// What line 1 has after this number of stores of rising values and a restart.
fn kept(alloc: Global, weak: bool, stores: u8, choice: Choice) -> Result<u8, Fail> {
    let mut device = new(alloc, 3)?;
    if weak {
        weaken(&mut device, 1)?;
    }
    for value in 0..stores {
        store(&mut device, 1, 0, &[value.saturating_add(1)])?;
    }
    cycle(&mut device, choice)?;
    Ok(byte(&device, 1, 0))
}

static STORES: [(bool, u8, Choice, u8); 7] = [
    (false, 15, Choice::Firsts, 0),
    (false, 16, Choice::Firsts, 15),
    (false, 16, Choice::Lasts, 16),
    (true, 15, Choice::Firsts, 0),
    (true, 16, Choice::Firsts, 0),
    (true, 40, Choice::Firsts, 0),
    (true, 40, Choice::Lasts, 40),
];

#[test]
fn a_word_has_sixteen_values_at_most(rt: HostRuntime) -> Result<(), Fail> {
    for &(weak, stores, choice, value) in &STORES {
        assert_eq!(rt;
            kept(rt.alloc(), weak, stores, choice)?,
            value,
            "{weak} {stores} {choice:?}"
        );
    }
    Ok(())
}

// How many of lines 0 to 1,024 kept a store by their durable bytes, and whether line 0 did.
fn kept_of_1025(alloc: Global, weak: bool) -> Result<(u64, u8), Fail> {
    let mut device = new(alloc, 1025)?;
    if weak {
        weaken(&mut device, 0)?;
    }
    for line in 0..1025 {
        store(&mut device, line, 0, &[1])?;
    }
    cycle(&mut device, Choice::Firsts)?;
    let mut count = 0_u64;
    for line in 0..1025 {
        count = count.saturating_add(byte(&device, line, 0) as u64);
    }
    Ok((count, byte(&device, 0, 0)))
}

#[test]
fn the_oldest_of_1024_dirty_lines_makes_room_for_one_more(rt: HostRuntime) -> Result<(), Fail> {
    assert_eq!(rt; kept_of_1025(rt.alloc(), false)?, (1, 1));
    assert_eq!(rt; kept_of_1025(rt.alloc(), true)?, (0, 0));
    Ok(())
}

// An eviction writes back the oldest lines, and no weak one.
static EVICTED_OLDEST: [Step; 8] = [
    (Act::Store(2, 3, 7), Ok(0)),
    (Act::Store(0, 3, 7), Ok(0)),
    (Act::Store(1, 3, 7), Ok(0)),
    (Act::Evict(2), Ok(0)),
    (Act::Cycle(Choice::Firsts), Ok(0)),
    (Act::Look(0, 3), Ok(7)),
    (Act::Look(1, 3), Ok(0)),
    (Act::Look(2, 3), Ok(7)),
];

static EVICTED_WEAK_LINE: [Step; 9] = [
    (Act::Weaken(2), Ok(0)),
    (Act::Store(2, 3, 7), Ok(0)),
    (Act::Store(0, 3, 7), Ok(0)),
    (Act::Store(1, 3, 7), Ok(0)),
    (Act::Evict(1), Ok(0)),
    (Act::Cycle(Choice::Firsts), Ok(0)),
    (Act::Look(0, 3), Ok(7)),
    (Act::Look(1, 3), Ok(0)),
    (Act::Look(2, 3), Ok(0)),
];

static EVICTED_ALL_BUT_WEAK: [Step; 9] = [
    (Act::Weaken(2), Ok(0)),
    (Act::Store(2, 3, 7), Ok(0)),
    (Act::Store(0, 3, 7), Ok(0)),
    (Act::Store(1, 3, 7), Ok(0)),
    (Act::Evict(9), Ok(0)),
    (Act::Cycle(Choice::Firsts), Ok(0)),
    (Act::Look(0, 3), Ok(7)),
    (Act::Look(1, 3), Ok(7)),
    (Act::Look(2, 3), Ok(0)),
];

// Each word keeps what the seed picks for its place.
static SEEDS: [Step; 9] = [
    (Act::Store(2304, 0, 10), Ok(0)),
    (Act::Store(2304, 0, 20), Ok(0)),
    (Act::Cycle(Choice::Seed(1)), Ok(0)),
    (Act::Look(2304, 0), Ok(10)),
    (Act::Store(2304, 0, 30), Ok(0)),
    (Act::Store(2304, 1, 30), Ok(0)),
    (Act::Cycle(Choice::Seed(2)), Ok(0)),
    (Act::Look(2304, 0), Ok(30)),
    (Act::Look(2304, 1), Ok(0)),
];

static WEAK_UNTIL_PERSISTED: [Step; 15] = [
    (Act::Store(1, 0, 5), Ok(0)),
    (Act::Weaken(1), Ok(0)),
    (Act::Store(1, 0, 6), Ok(0)),
    (Act::Load(1, 0), Ok(6)),
    (Act::Cycle(Choice::Firsts), Ok(0)),
    (Act::Load(1, 0), Ok(0)),
    (Act::Store(1, 0, 8), Ok(0)),
    (Act::Persist(1), Ok(0)),
    (Act::Load(1, 0), Err(DeviceFault::Poisoned(LineNo(1)))),
    (Act::Store(1, 0, 9), Err(DeviceFault::Poisoned(LineNo(1)))),
    (Act::Persist(1), Err(DeviceFault::Poisoned(LineNo(1)))),
    (Act::Cycle(Choice::Lasts), Ok(0)),
    (Act::Look(1, 0), Ok(255)),
    (Act::Install(1, LineState::Weak([4; 64])), Ok(0)),
    (Act::Load(1, 0), Ok(4)),
];

// Of a cut and a failure on one call the cut comes first.
static CUT_AND_FAILURE: [Step; 7] = [
    (Act::ArmCut(2), Ok(0)),
    (Act::ArmFail(2), Ok(0)),
    (Act::Store(1, 0, 5), Ok(0)),
    (Act::Store(1, 0, 6), Err(DeviceFault::PowerLost)),
    (Act::Cycle(Choice::Lasts), Ok(0)),
    (Act::Load(1, 0), Err(DeviceFault::Failed)),
    (Act::Load(1, 0), Ok(5)),
];

#[test]
fn each_step_of_a_story_gives_its_value(rt: HostRuntime) -> Result<(), Fail> {
    let alloc = rt.alloc();
    for story in [
        EVICTED_OLDEST.as_slice(),
        &EVICTED_WEAK_LINE,
        &EVICTED_ALL_BUT_WEAK,
        &WEAK_UNTIL_PERSISTED,
    ] {
        follow(&rt, &mut new(alloc, 3)?, story)?;
    }
    follow(&rt, &mut new(alloc, 2305)?, &SEEDS)?;
    let counts = follow(&rt, &mut new(alloc, 3)?, &CUT_AND_FAILURE)?;
    assert_eq!(rt; [counts.cuts, counts.faults, counts.calls], [1, 1, 4]);
    Ok(())
}
