// A plain device of eight lines, of which lines 5 and 6 and then lines 1 and 2 are shown.
ghost use Rattle.std.specs.Prelude.{◌≡◌, ◌<◌, true, IsTrue, IfOk, OnErr};
ghost use Rattle.line_device.specs.Medium.{WritesBack, stored};
ghost use Rattle.range_sets.specs.Lines.{fits};
ghost use Rattle.volume_view.specs.Shown.{shown};

use line_device::{Choice, DeviceFault, LineDevice, LineState, Lines, Peek, Plain, ResetFault};
use line_words::{Interruption, store_line};
use nvm_base::{LineNo, Span};
use range_sets::{RangeFault, RangeSet};
use std::alloc::{AllocError, Global};
use std::process::Abort;
use std::test::Fail;
use volume_view::View;

const FIRST: Span = Span {
    start: 320,
    len: 128,
};

const SECOND: Span = Span {
    start: 64,
    len: 128,
};

// Stores a line through a view where it is not bad, and gives the device back.
fn store_through<L: Lines>(
    dev: &mut L,
    set: &RangeSet,
    line: u64,
    bytes: &[u8; 64],
) -> Result<bool, Interruption>
    requires lines { fits set.now (L.state dev.old).medium.count ≡ true }
    requires on { IsTrue (L.state dev.old).panel.power }
    ensures lines { IfOk result (λ stores. IsTrue stores
        → WritesBack (stored (shown set.now (L.state dev.old).medium) line 0 bytes.now) (shown set.now (L.state dev.new).medium)) }
    ensures err { OnErr result (WritesBack (shown set.now (L.state dev.old).medium) (shown set.now (L.state dev.new).medium)) }
    ensures loans { (L.state dev.new).panel.loans ≡ (L.state dev.old).panel.loans }
{
    let mut view = View::new(dev, set);
    if view.lines() <= line || view.is_bad(LineNo(line)) {
        return Ok(false);
    }
    store_line(&mut view, line, bytes)?;
    Ok(true)
}

fn ranges(alloc: Global) -> Result<RangeSet, RangeFault> {
    RangeSet::make(alloc, &[FIRST, SECOND])
}

fn device(alloc: Global) -> Result<Plain, ResetFault> {
    let mut device = Plain::new(alloc);
    device.reset(8, 8)?;
    Ok(device)
}

fn lend<'a>(rt: &impl Abort, device: &'a mut Plain, set: &'a RangeSet) -> View<'a, Plain> {
    assert!(rt; set.fits(device.lines()));
    View::new(device, set)
}

// Whether the line can be used at all.
fn is_there<L: Lines>(dev: &L, line: u64) -> bool
    ensures { IsTrue result → (line < (L.state dev.now).medium.count) × IsTrue (L.state dev.now).panel.power }
{
    line < dev.lines() && dev.power()
}

fn store<L: Lines>(dev: &mut L, line: u64, byte: u8) -> Result<(), DeviceFault> {
    if !is_there(dev, line) {
        return Err(DeviceFault::PowerLost);
    }
    dev.store(LineNo(line), 8, &[byte; 8])
}

fn load<L: Lines>(dev: &mut L, line: u64) -> Result<u8, DeviceFault> {
    if !is_there(dev, line) {
        return Err(DeviceFault::PowerLost);
    }
    Ok(dev.load(LineNo(line))?[8])
}

fn persist<L: Lines>(dev: &mut L, line: u64) -> Result<(), DeviceFault> {
    if !is_there(dev, line) {
        return Err(DeviceFault::PowerLost);
    }
    dev.persist(LineNo(line))
}

fn clear<L: Lines>(dev: &mut L, line: u64) -> Result<(), DeviceFault> {
    if !is_there(dev, line) {
        return Err(DeviceFault::PowerLost);
    }
    dev.clear(LineNo(line))
}

fn poison<L: Lines>(dev: &mut L, line: u64) {
    if line < dev.lines() {
        dev.poison(LineNo(line));
    }
}

fn weaken<L: Lines>(dev: &mut L, line: u64) -> Result<(), AllocError> {
    if line < dev.lines() {
        dev.weaken(LineNo(line))?;
    }
    Ok(())
}

// Bad and weak.
fn marks<L: Lines>(dev: &L, line: u64) -> (bool, bool) {
    if dev.lines() <= line {
        return (false, false);
    }
    (dev.is_bad(LineNo(line)), dev.is_weak(LineNo(line)))
}

// Byte 8 of each line of the device, 255 in a bad one.
fn bytes(device: &Plain) -> [u8; 8] {
    let mut bytes = [0; 8];
    for line in 0..8_u64 {
        if line < device.lines() {
            bytes[line as usize] = match device.peek(LineNo(line)) {
                LineState::Healthy(told) | LineState::Weak(told) => told[8],
                LineState::Bad => 255,
            };
        }
    }
    bytes
}

#[test]
fn stores_reach_the_lines_of_the_ranges_in_their_order(rt: HostRuntime) -> Result<(), Fail> {
    let set = ranges(rt.alloc())?;
    let mut device = device(rt.alloc())?;
    let mut view = lend(&rt, &mut device, &set);
    assert_eq!(rt; view.lines(), 4);
    for line in 0..4_u8 {
        assert_eq!(rt; store(&mut view, u64::from(line), line + 10), Ok(()));
    }
    for line in 0..4_u8 {
        assert_eq!(rt; load(&mut view, u64::from(line)), Ok(line + 10));
    }
    assert_eq!(rt; view.counts().calls, 8);
    assert_eq!(rt; bytes(&device), [0, 12, 13, 0, 0, 10, 11, 0]);
    Ok(())
}

#[test]
fn faults_and_marks_are_those_of_the_line_that_is_shown(rt: HostRuntime) -> Result<(), Fail> {
    let set = ranges(rt.alloc())?;
    let mut device = device(rt.alloc())?;
    poison(&mut device, 2);
    let mut view = lend(&rt, &mut device, &set);
    let bad = Err(DeviceFault::Poisoned(LineNo(3)));
    assert_eq!(rt; marks(&view, 3), (true, false));
    assert_eq!(rt; load(&mut view, 3).err(), bad.err());
    assert_eq!(rt; store(&mut view, 3, 7), bad);
    assert_eq!(rt; persist(&mut view, 3), bad);
    poison(&mut view, 0);
    weaken(&mut view, 1)?;
    assert_eq!(rt; marks(&view, 1), (false, true));
    assert_eq!(rt; bytes(&device), [0, 0, 255, 0, 0, 255, 0, 0]);
    assert_eq!(rt; marks(&device, 6), (false, true));

    let mut view = lend(&rt, &mut device, &set);
    assert_eq!(rt; clear(&mut view, 3), Ok(()));
    assert_eq!(rt; persist(&mut view, 1), Ok(()));
    assert_eq!(rt; bytes(&device), [0, 0, 0, 0, 0, 255, 255, 0]);
    Ok(())
}

#[test]
fn the_device_goes_on_when_the_loan_ends(rt: HostRuntime) -> Result<(), Fail> {
    let set = ranges(rt.alloc())?;
    let mut device = device(rt.alloc())?;
    device.arm_cut(5);
    let mut view = lend(&rt, &mut device, &set);
    assert_eq!(rt; store(&mut view, 0, 7), Ok(()));
    assert_eq!(rt; persist(&mut view, 0), Ok(()));
    assert!(rt; set.fits(device.lines()) && device.power());
    let stored = store_through(&mut device, &set, 2, &[8; 64]);
    assert_eq!(rt; stored, Ok(true));
    assert_eq!(rt; store(&mut device, 3, 9), Ok(()));
    let mut view = lend(&rt, &mut device, &set);
    assert_eq!(rt; persist(&mut view, 2), Err(DeviceFault::PowerLost));
    assert!(rt; !view.power());
    assert!(rt; !device.power());
    device.restart(Choice::Firsts)?;
    assert_eq!(rt; bytes(&device), [0, 0, 0, 0, 0, 7, 0, 0]);
    Ok(())
}
