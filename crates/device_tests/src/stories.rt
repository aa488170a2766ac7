// What is done with a device, and what it tells, step by step.
use crate::calls::{byte, clear, cycle, load, persist, poison, store, weaken};
use line_device::{Choice, Counts, DeviceFault, LineDevice, LineState, Lines, Peek};
use nvm_base::LineNo;
use std::alloc::AllocError;
use std::process::Abort;
use std::test::Fail;

// What is done with a device: lines, words of a line, values of each byte of a word, and numbers of calls.
#[derive(Clone, Copy)]
pub(crate) enum Act {
    Store(u64, u64, u8),
    Persist(u64),
    Load(u64, usize),
    Clear(u64),
    // Looks at a word without a call of the device.
    Look(u64, usize),
    IsWeak(u64),
    IsOn,
    CutArmed,
    FailArmed,
    Poison(u64),
    Weaken(u64),
    Install(u64, LineState),
    // Whether the line is that one.
    Extract(u64, LineState),
    Evict(u64),
    ArmCut(u64),
    ArmFail(u64),
    Disarm,
    Cycle(Choice),
}

// What it gives: the byte that is loaded or looked at, 1 for what is so, and else 0.
pub(crate) type Told = Result<u8, DeviceFault>;

// What is done, and what it gives.
pub(crate) type Step = (Act, Told);

fn told(answer: Result<(), DeviceFault>) -> Told {
    answer?;
    Ok(0)
}

// Out of memory is reported as a failure here.
fn install<D: LineDevice>(device: &mut D, line: u64, state: &LineState) -> Told {
    if line >= device.lines() {
        return Err(DeviceFault::PowerLost);
    }
    match device.install(LineNo(line), state) {
        Ok(()) => Ok(0),
        Err(_) => Err(DeviceFault::Failed),
    }
}

fn extract<D: LineDevice>(device: &mut D, line: u64, state: &LineState) -> Told {
    if line >= device.lines() {
        return Err(DeviceFault::PowerLost);
    }
    let found = device.extract(LineNo(line))?;
    Ok(u8::from(found == *state))
}

fn is_weak<D: Lines>(device: &D, line: u64) -> bool {
    line < device.lines() && device.is_weak(LineNo(line))
}

// What the device shows without a call.
fn looked_at<D: Peek>(device: &D, act: Act) -> u8 {
    match act {
        Act::Look(line, w) => byte(device, line, w),
        Act::IsWeak(line) => u8::from(is_weak(device, line)),
        Act::IsOn => u8::from(device.power()),
        Act::CutArmed => u8::from(device.cut_armed()),
        Act::FailArmed => u8::from(device.fail_armed()),
        _ => 0,
    }
}

fn perform<D: Peek>(device: &mut D, act: Act) -> Result<Told, AllocError> {
    match act {
        Act::Store(line, w, value) => return Ok(told(store(device, line, w, &[value; 8]))),
        Act::Persist(line) => return Ok(told(persist(device, line))),
        Act::Load(line, w) => return Ok(load(device, line, w)),
        Act::Clear(line) => return Ok(told(clear(device, line))),
        Act::Install(line, state) => return Ok(install(device, line, &state)),
        Act::Extract(line, state) => return Ok(extract(device, line, &state)),
        Act::Poison(line) => poison(device, line),
        Act::Weaken(line) => weaken(device, line)?,
        Act::Evict(lines) => device.evict(lines),
        Act::ArmCut(calls) => device.arm_cut(calls.max(1)),
        Act::ArmFail(calls) => device.arm_fail(calls.max(1)),
        Act::Disarm => device.disarm(),
        Act::Cycle(choice) => cycle(device, choice)?,
        _ => {}
    }
    Ok(Ok(looked_at(device, act)))
}

// Goes through a story, and gives the device's counts.
pub(crate) fn follow<D: Peek>(
    rt: &impl Abort,
    device: &mut D,
    story: &[Step],
) -> Result<Counts, Fail> {
    for &(act, told) in story {
        let found = perform(device, act)?;
        assert_eq!(rt; found, told);
    }
    Ok(device.counts())
}
