// Stories of a device whose calls fail by a list.

use super::{LINE, write};
use crate::calls::{byte, cycle};
use line_device::{Choice, DeviceFault, LineDevice, LineState, Lines, Plain, ResetFault};
use nvm_base::Words;
use std::alloc::Global;
use std::test::Fail;
use test_devices::Faulty;

// A device of two lines, of which the calls of these numbers fail.
fn faulty(alloc: Global, numbers: &[u64]) -> Result<Faulty<Plain>, Fail> {
    let mut plain = Plain::new(alloc);
    plain.reset(2, 8)?;
    let mut fails = Words::new(alloc);
    fails.extend(numbers)?;
    Ok(Faulty::new(plain, fails))
}

#[derive(Clone, Copy, Debug)]
enum Call {
    Reset,
    Install,
    Extract,
    Load,
    Store,
    Persist,
    Clear,
}

static CALLS: [Call; 7] = [
    Call::Reset,
    Call::Install,
    Call::Extract,
    Call::Load,
    Call::Store,
    Call::Persist,
    Call::Clear,
];

fn fails<D: LineDevice>(device: &mut D, call: Call) -> bool {
    if !device.power() || device.lines() <= LINE.0 {
        return false;
    }
    match call {
        Call::Reset => device.reset(2, 8) == Err(ResetFault::Failed),
        Call::Install => {
            device.install(LINE, &LineState::Healthy([1; 64])) == Err(ResetFault::Failed)
        }
        Call::Extract => device.extract(LINE) == Err(DeviceFault::Failed),
        Call::Load => device.load(LINE).is_err(),
        Call::Store => device.store(LINE, 0, &[1]) == Err(DeviceFault::Failed),
        Call::Persist => device.persist(LINE) == Err(DeviceFault::Failed),
        Call::Clear => device.clear(LINE) == Err(DeviceFault::Failed),
    }
}

// Lists of numbers; which of the seven calls fail, marked x; how many faults and failed setups are counted; and whether a
// failure is still armed.
static LISTS: [(&[u64], &str, [u64; 2], bool); 7] = [
    (&[], ".......", [0, 0], false),
    (&[0], ".......", [0, 0], false),
    (&[1], "x......", [1, 1], false),
    (&[5, 2, 5], ".x..x..", [2, 1], false),
    (&[7, 3, 8], "..x...x", [2, 1], true),
    (&[4, 6], "...x.x.", [2, 0], false),
    (&[u64::MAX], ".......", [0, 0], true),
];

#[test]
fn listed_calls_fail_and_no_others(rt: HostRuntime) -> Result<(), Fail> {
    for &(numbers, marks, counted, armed) in &LISTS {
        let mut device = faulty(rt.alloc(), numbers)?;
        for (call, mark) in CALLS.iter().zip(marks.as_bytes()) {
            assert_eq!(rt; fails(&mut device, *call), *mark == b'x', "{call:?}");
        }
        let counts = device.counts();
        assert_eq!(rt; [counts.faults, counts.setups], counted);
        assert_eq!(rt; [counts.calls, counts.persists], [4, 1]);
        assert_eq!(rt; device.fail_armed(), armed);
    }
    Ok(())
}

// Lists for a store and its persist; how they end; and the byte after them and after a cut.
static WRITES: [(&[u64], Result<(), DeviceFault>, [u8; 2]); 3] = [
    (&[1], Err(DeviceFault::Failed), [0, 0]),
    (&[2], Err(DeviceFault::Failed), [7, 0]),
    (&[3, 4], Ok(()), [7, 7]),
];

#[test]
fn a_failed_call_leaves_the_lines(rt: HostRuntime) -> Result<(), Fail> {
    for &(numbers, answer, bytes) in &WRITES {
        let mut device = faulty(rt.alloc(), numbers)?;
        assert_eq!(rt; write(&mut device, 7), answer);
        let before = byte(&device, 1, 1);
        cycle(&mut device, Choice::Firsts)?;
        assert_eq!(rt; [before, byte(&device, 1, 1)], bytes);
        assert!(rt; !device.fail_armed());
        assert_eq!(rt; write(&mut device, 8), Ok(()));
    }
    Ok(())
}

#[test]
fn a_disarmed_list_is_gone(rt: HostRuntime) -> Result<(), Fail> {
    let mut device = faulty(rt.alloc(), &[1, 2, 9])?;
    assert_eq!(rt; write(&mut device, 7), Err(DeviceFault::Failed));
    assert!(rt; device.fail_armed());
    device.disarm();
    assert!(rt; !device.fail_armed());
    assert_eq!(rt; write(&mut device, 7), Ok(()));
    Ok(())
}
