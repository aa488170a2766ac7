// Words and lines of a plain device of three lines, through cuts that keep durable values alone.
ghost use Rattle.std.specs.Prelude.{◌≡◌, ◌<◌, IsTrue};
ghost use Rattle.line_words.specs.Words.{IsGoodLine};

use crate::calls::{cycle, poison};
use line_device::{Choice, LineDevice, LineState, Lines, Peek, Plain};
use line_words::{
    Interruption, first_bad, first_weak, load_line, load_word, load_words, persist_line,
    persist_lines, renew_lines, store_word,
};
use nvm_base::LineNo;
use std::test::Fail;

const STOPPED: Interruption = Interruption::PowerLost;

// The line can be used, and the power is on.
fn is_good<L: Lines>(dev: &L, line: u64) -> bool
    ensures good_line { IsTrue result → IsGoodLine (L.state dev.now).medium line }
    ensures on { IsTrue result → IsTrue (L.state dev.now).panel.power }
{
    line < dev.lines() && dev.power() && !dev.is_bad(LineNo(line)) && !dev.is_weak(LineNo(line))
}

fn store<L: Lines>(dev: &mut L, place: u64, value: u64) -> Result<(), Interruption> {
    if !is_good(dev, place / 8) {
        return Err(STOPPED);
    }
    store_word(dev, place, value)
}

fn persist<L: Lines>(dev: &mut L, line: u64) -> Result<(), Interruption> {
    if !is_good(dev, line) {
        return Err(STOPPED);
    }
    persist_line(dev, line)
}

fn load<L: Lines>(dev: &mut L, place: u64) -> Result<u64, Interruption> {
    if !is_good(dev, place / 8) {
        return Err(STOPPED);
    }
    load_word(dev, place)
}

#[test]
fn a_persisted_word_survives_a_cut(rt: HostRuntime) -> Result<(), Fail> {
    let mut device = Plain::new(rt.alloc());
    device.reset(3, 8)?;
    assert_eq!(rt; store(&mut device, 9, 7), Ok(()));
    assert_eq!(rt; persist(&mut device, 1), Ok(()));
    assert_eq!(rt; store(&mut device, 10, 5), Ok(()));
    assert_eq!(rt; load(&mut device, 10), Ok(5));
    cycle(&mut device, Choice::Firsts)?;
    assert_eq!(rt; load(&mut device, 9), Ok(7));
    assert_eq!(rt; load(&mut device, 10), Ok(0));
    Ok(())
}

#[test]
fn persisted_lines_survive_a_cut(rt: HostRuntime) -> Result<(), Fail> {
    let mut device = Plain::new(rt.alloc());
    device.reset(3, 8)?;
    for place in [7, 8, 23] {
        assert_eq!(rt; store(&mut device, place, 0x0102_0304_0506_0708), Ok(()));
    }
    assert!(rt; is_good(&device, 1) && is_good(&device, 2));
    assert_eq!(rt; persist_lines(&mut device, 1, 2), Ok(()));
    cycle(&mut device, Choice::Firsts)?;
    assert_eq!(rt; load(&mut device, 7), Ok(0));
    assert_eq!(rt; load(&mut device, 8), Ok(0x0102_0304_0506_0708));
    assert!(rt; is_good(&device, 2));
    let mut out = [9; 64];
    assert_eq!(rt; load_line(&mut device, 2, &mut out), Ok(()));
    let mut line = [0; 64];
    line[56..].copy_from_slice(&[8, 7, 6, 5, 4, 3, 2, 1]);
    assert_eq!(rt; out, line);
    Ok(())
}

#[test]
fn a_line_is_read_by_one_call(rt: HostRuntime) -> Result<(), Fail> {
    let mut device = Plain::new(rt.alloc());
    device.reset(3, 8)?;
    assert_eq!(rt; store(&mut device, 8, 0x0102_0304_0506_0708), Ok(()));
    assert_eq!(rt; store(&mut device, 15, u64::MAX), Ok(()));
    let before = device.counts().calls;
    assert!(rt; is_good(&device, 1));
    let words = load_words(&mut device, 1);
    assert_eq!(rt;
        words,
        Ok([0x0102_0304_0506_0708, 0, 0, 0, 0, 0, 0, u64::MAX])
    );
    assert_eq!(rt; device.counts().calls.checked_sub(before), Some(1));
    Ok(())
}

#[test]
fn the_lowest_bad_or_weak_line_is_found(rt: HostRuntime) -> Result<(), Fail> {
    let mut device = Plain::new(rt.alloc());
    device.reset(6, 8)?;
    poison(&mut device, 1);
    poison(&mut device, 5);
    poison(&mut device, 4);
    assert!(rt; device.lines() == 6);
    device.weaken(LineNo(3))?;
    assert!(rt; device.lines() == 6);
    assert_eq!(rt; first_bad(&device, 2, 4), Some(2));
    assert_eq!(rt; first_weak(&device, 2, 4), Some(1));
    assert_eq!(rt; first_bad(&device, 2, 2), None);
    assert_eq!(rt; first_weak(&device, 4, 2), None);
    assert_eq!(rt; device.counts().calls, 0);
    Ok(())
}

#[test]
fn a_bad_line_and_a_weak_one_are_renewed(rt: HostRuntime) -> Result<(), Fail> {
    let mut device = Plain::new(rt.alloc());
    device.reset(3, 8)?;
    assert!(rt; device.lines() == 3);
    device.poison(LineNo(1));
    device.weaken(LineNo(2))?;
    let mut bytes = [3; 128];
    bytes[64..].fill(4);
    assert!(rt; device.lines() == 3 && device.power());
    assert_eq!(rt; renew_lines(&mut device, 1, &bytes), Ok(()));
    cycle(&mut device, Choice::Firsts)?;
    assert!(rt; device.lines() == 3);
    assert_eq!(rt; device.peek(LineNo(0)), LineState::Healthy([0; 64]));
    assert_eq!(rt; device.peek(LineNo(1)), LineState::Healthy([3; 64]));
    assert_eq!(rt; device.peek(LineNo(2)), LineState::Healthy([4; 64]));
    Ok(())
}

#[test]
fn a_device_that_stops_is_told(rt: HostRuntime) -> Result<(), Fail> {
    let mut device = Plain::new(rt.alloc());
    device.reset(3, 8)?;
    device.arm_fail(1);
    assert_eq!(rt; store(&mut device, 9, 7), Err(Interruption::Failed));
    assert_eq!(rt; store(&mut device, 9, 7), Ok(()));
    device.arm_cut(1);
    assert_eq!(rt; persist(&mut device, 1), Err(Interruption::PowerLost));
    cycle(&mut device, Choice::Firsts)?;
    assert_eq!(rt; load(&mut device, 9), Ok(0));
    Ok(())
}
