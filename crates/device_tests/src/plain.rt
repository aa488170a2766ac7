// Stories of a plain device of three lines.
use crate::stories::{Act, Step, follow};
use line_device::{Choice, DeviceFault, LineDevice, LineState, Plain};
use nvm_base::LineNo;
use std::alloc::Global;
use std::test::Fail;

fn zeros(alloc: Global) -> Result<Plain, Fail> {
    let mut device = Plain::new(alloc);
    device.reset(3, 8)?;
    Ok(device)
}

// A cut keeps what was persisted, or what was stored.
static CUTS: [Step; 15] = [
    (Act::Load(1, 1), Ok(0)),
    (Act::Store(1, 1, 7), Ok(0)),
    (Act::Persist(1), Ok(0)),
    (Act::Store(1, 1, 9), Ok(0)),
    (Act::Load(1, 1), Ok(9)),
    (Act::Cycle(Choice::Firsts), Ok(0)),
    (Act::Look(1, 1), Ok(7)),
    (Act::Store(1, 1, 9), Ok(0)),
    (Act::Load(1, 1), Ok(9)),
    (Act::Cycle(Choice::Seed(5)), Ok(0)),
    (Act::Look(1, 1), Ok(7)),
    (Act::Store(1, 1, 9), Ok(0)),
    (Act::Load(1, 1), Ok(9)),
    (Act::Cycle(Choice::Lasts), Ok(0)),
    (Act::Look(1, 1), Ok(9)),
];

#[test]
fn a_cut_keeps_what_was_persisted_or_what_was_stored(rt: HostRuntime) -> Result<(), Fail> {
    let counts = follow(&rt, &mut zeros(rt.alloc())?, &CUTS)?;
    assert_eq!(rt;
        [counts.calls, counts.persists, counts.offs, counts.restarts],
        [9, 1, 3, 3]
    );
    Ok(())
}

static BAD_LINES: [Step; 14] = [
    (Act::Store(1, 1, 7), Ok(0)),
    (Act::Weaken(1), Ok(0)),
    (Act::IsWeak(1), Ok(1)),
    (Act::Load(1, 1), Ok(7)),
    (Act::Persist(1), Ok(0)),
    (Act::Load(1, 1), Err(DeviceFault::Poisoned(LineNo(1)))),
    (Act::Store(1, 1, 8), Err(DeviceFault::Poisoned(LineNo(1)))),
    (Act::Persist(1), Err(DeviceFault::Poisoned(LineNo(1)))),
    (Act::Clear(1), Ok(0)),
    (Act::Load(1, 1), Ok(0)),
    (Act::Install(1, LineState::Weak([3; 64])), Ok(0)),
    (Act::Extract(1, LineState::Weak([3; 64])), Ok(1)),
    (Act::Poison(1), Ok(0)),
    (Act::Look(1, 1), Ok(255)),
];

#[test]
fn bad_lines_are_told_until_they_are_cleared(rt: HostRuntime) -> Result<(), Fail> {
    follow(&rt, &mut zeros(rt.alloc())?, &BAD_LINES)?;
    Ok(())
}

static ARMED: [Step; 21] = [
    (Act::ArmFail(2), Ok(0)),
    (Act::Store(1, 1, 7), Ok(0)),
    (Act::Store(1, 1, 8), Err(DeviceFault::Failed)),
    (Act::FailArmed, Ok(0)),
    (Act::Load(1, 1), Ok(7)),
    // A cut and a failure on one call.
    (Act::ArmCut(2), Ok(0)),
    (Act::ArmFail(2), Ok(0)),
    (Act::Persist(1), Ok(0)),
    (Act::Store(1, 1, 8), Err(DeviceFault::PowerLost)),
    (Act::IsOn, Ok(0)),
    (Act::FailArmed, Ok(1)),
    (Act::CutArmed, Ok(0)),
    (Act::Cycle(Choice::Lasts), Ok(0)),
    (Act::Load(1, 1), Err(DeviceFault::Failed)),
    (Act::Load(1, 1), Ok(7)),
    (Act::ArmCut(1), Ok(0)),
    (Act::CutArmed, Ok(1)),
    (Act::Disarm, Ok(0)),
    (Act::Evict(1), Ok(0)),
    (Act::Load(1, 1), Ok(7)),
    (Act::IsOn, Ok(1)),
];

#[test]
fn what_is_armed_fires_at_its_call(rt: HostRuntime) -> Result<(), Fail> {
    let counts = follow(&rt, &mut zeros(rt.alloc())?, &ARMED)?;
    assert_eq!(rt;
        [
            counts.faults,
            counts.cuts,
            counts.arms,
            counts.disarms,
            counts.evicts
        ],
        [2, 1, 4, 1, 1]
    );
    Ok(())
}
