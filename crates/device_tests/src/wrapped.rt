// Devices around a plain device: one that records, one that cuts the power, and one whose calls fail by a list.
use crate::calls::{byte, cycle, load, persist, poison, store};
use line_device::{Choice, DeviceFault, LineDevice, LineState, Lines, Order, Plain};
use nvm_base::{LineNo, Words};
use std::test::Fail;
use test_devices::{Faulty, Fuse, Recorder};

mod listed;

const LINE: LineNo = LineNo(1);

// Stores a word and makes it durable.
fn write<D: Lines>(device: &mut D, value: u8) -> Result<(), DeviceFault> {
    store(device, LINE.0, 1, &[value; 8])?;
    persist(device, LINE.0)
}

// Whether each call that may want memory is answered as one that had it, and a line becomes weak with bytes of its own.
fn is_set_up<D: LineDevice>(device: &mut D) -> bool {
    if device.reset(2, 8) != Ok(()) || device.lines() <= LINE.0 {
        return false;
    }
    if device.install(LINE, &LineState::Healthy([3; 64])) != Ok(()) || device.lines() <= LINE.0 {
        return false;
    }
    if device.weaken(LINE).is_err() || cycle(device, Choice::Firsts).is_err() {
        return false;
    }
    if device.lines() <= LINE.0 {
        return false;
    }
    device.extract(LINE) == Ok(LineState::Weak([3; 64]))
}

#[test]
fn devices_are_set_up_while_there_is_memory(rt: HostRuntime) -> Result<(), Fail> {
    let alloc = rt.alloc();
    assert!(rt; is_set_up(&mut Recorder::new(alloc, Plain::new(alloc))));
    assert!(rt; is_set_up(&mut Fuse::new(Plain::new(alloc), 9)));
    assert!(rt; is_set_up(&mut Faulty::new(Plain::new(alloc), Words::new(alloc))));
    assert!(rt; is_set_up(&mut Recorder::new(alloc, Fuse::new(Plain::new(alloc), 9))));
    Ok(())
}

#[test]
fn a_recorder_tells_orders_and_starts(rt: HostRuntime) -> Result<(), Fail> {
    let mut device = Recorder::new(rt.alloc(), Plain::new(rt.alloc()));
    device.reset(2, 8)?;
    assert_eq!(rt; device.last(), None);
    device.arm_cut(3);
    device.evict(7);
    assert_eq!(rt; device.last(), Some(Order::Evict(7)));
    device.arm_fail(4);
    assert_eq!(rt; device.last(), Some(Order::Fail(4)));
    device.disarm();

    write(&mut device, 5)?;
    poison(&mut device, 0);
    assert_eq!(rt; device.starts().len(), 0);
    cycle(&mut device, Choice::Seed(9))?;
    cycle(&mut device, Choice::Lasts)?;
    let starts = device.starts();
    assert_eq!(rt; starts.len(), 2);
    assert_eq!(rt;
        [starts[0].choice, starts[1].choice],
        [Choice::Seed(9), Choice::Lasts]
    );
    let mut bytes = [0; 64];
    bytes[8..16].copy_from_slice(&[5; 8]);
    assert_eq!(rt;
        starts[0].lines.as_slice(),
        [LineState::Bad, LineState::Healthy(bytes)].as_slice()
    );
    Ok(())
}

// Calls before the cut, how a store and its persist end, and the byte after a restart.
static FUSES: [(u64, Result<(), DeviceFault>, u8); 3] = [
    (0, Err(DeviceFault::PowerLost), 0),
    (1, Err(DeviceFault::PowerLost), 0),
    (2, Ok(()), 7),
];

#[test]
fn a_fuse_cuts_at_its_call_and_only_once(rt: HostRuntime) -> Result<(), Fail> {
    for &(calls, answer, first) in &FUSES {
        let mut plain = Plain::new(rt.alloc());
        plain.reset(2, 8)?;
        let mut device = Fuse::new(plain, calls);
        assert!(rt; device.cut_armed());
        assert_eq!(rt; write(&mut device, 7), answer, "after {calls}");
        assert_eq!(rt; device.power(), answer.is_ok());
        let counts = device.counts();
        assert_eq!(rt;
            [counts.calls, counts.cuts, counts.offs],
            [
                calls.saturating_add(1).min(2),
                u64::from(answer.is_err()),
                0
            ]
        );
        cycle(&mut device, Choice::Firsts)?;
        assert_eq!(rt; byte(&device, 1, 1), first, "after {calls}");
        assert!(rt; !device.cut_armed());
        assert_eq!(rt; load(&mut device, 1, 1), Ok(first));
    }
    Ok(())
}
