// Four lines of a plain device of five, through cuts that keep durable values alone.
ghost use Rattle.std.specs.Prelude.{◌≡◌, ◌≤◌, ℕ, false, Some, IsTrue};
ghost use Rattle.page_lines.specs.Placed.{AreApart, whole};

use crate::devices::{fresh, spoil, weaken};
use line_device::{Choice, LineDevice, LineState, Lines, Peek, Plain};
use line_words::{Interruption, first_bad};
use nvm_base::{LineNo, Span};
use page_lines::{BadLines, Whole, clear_lines, load_lines, lowest_bad, persist_lines, put_lines};
use std::alloc::Global;
use std::process::Abort;
use std::test::Fail;

const STOPPED: Interruption = Interruption::PowerLost;

// The lines are on the device, and the power is on.
fn are_there<L: Lines>(dev: &L, count: u64) -> bool
    ensures apart { IsTrue result → AreApart (whole count) (L.state dev.now).medium.count }
    ensures on { IsTrue result → IsTrue (L.state dev.now).panel.power }
{
    count <= dev.lines() && dev.power()
}

// None of them is bad.
fn are_good<L: Lines>(dev: &L, count: u64) -> bool
    ensures good { IsTrue result → (n line : ℕ) → whole count n ≡ Some line → (L.state dev.now).medium.is_bad line ≡ false }
{
    count <= dev.lines() && first_bad(dev, 0, count).is_none()
}

fn sync<L: Lines>(dev: &mut L, start: u64, len: u64) -> Result<(), Interruption> {
    if !are_there(dev, 4) || !are_good(dev, 4) || len == 0 || 256 < start || 256 < len {
        return Err(STOPPED);
    }
    persist_lines(dev, &Whole { count: 4 }, Span { start, len })
}

fn put<L: Lines>(dev: &mut L, offset: u64, bytes: &[u8]) -> Result<(), Interruption> {
    if !are_there(dev, 4)
        || !are_good(dev, 4)
        || bytes.is_empty()
        || 256 < offset
        || 256 < bytes.len()
    {
        return Err(STOPPED);
    }
    put_lines(dev, &Whole { count: 4 }, offset, bytes)
}

// Puts whole lines, over bad ones too.
fn put_whole<L: Lines>(dev: &mut L, line: u64, bytes: &[u8; 128]) -> Result<(), Interruption> {
    if !are_there(dev, 4) || 4 < line {
        return Err(STOPPED);
    }
    put_lines(dev, &Whole { count: 4 }, 64 * line, bytes)
}

fn load<L: Lines>(dev: &mut L, offset: u64, out: &mut [u8]) -> Result<(), Interruption> {
    if !are_there(dev, 4)
        || !are_good(dev, 4)
        || out.is_empty()
        || 256 < offset
        || 256 < out.len()
    {
        return Err(STOPPED);
    }
    load_lines(dev, &Whole { count: 4 }, offset, out)
}

fn clear<L: Lines>(dev: &mut L, first: u64, count: u64) -> Result<(), Interruption> {
    if !are_there(dev, 4) || 4 < first || 4 < count {
        return Err(STOPPED);
    }
    clear_lines(dev, &Whole { count: 4 }, first, count)
}

fn find<L: Lines>(dev: &L, start: u64, len: u64, which: BadLines) -> Option<u64> {
    if !are_there(dev, 4) || len == 0 || 256 < start || 256 < len {
        return None;
    }
    lowest_bad(dev, &Whole { count: 4 }, Span { start, len }, which)
}

// What is done with the lines, by offsets and lengths in bytes; what is put is bytes of one value.
#[derive(Clone, Copy)]
enum Act {
    Put(u64, usize, u8),
    // Two lines, from this one on.
    PutWhole(u64, u8),
    Sync(u64, u64),
    Load(u64, [u8; 8]),
    Clear(u64, u64),
    Find(u64, u64, BadLines),
    // A line of the device gets bad or weak.
    Spoil(u64),
    Weaken(u64),
    // The next call fails.
    Fail,
    Cut,
    // A line of the device.
    Line(u64),
}

// What it tells.
#[derive(Clone, Copy, Debug, PartialEq, Eq)]
enum Told {
    // Calls of the device, and how many of them made a line durable.
    Done(u64, u64),
    Is(bool),
    Found(Option<u64>),
    // Bytes of one value, and then zeros.
    Healthy(usize, u8),
    Weak(usize, u8),
    Bad,
    Stopped(Interruption),
}

// Bytes of one value; no act here has more.
fn many(bytes: &[u8; 256], len: usize) -> &[u8] {
    bytes.get(..len).unwrap_or(&[])
}

// The lines as the act leaves them.
fn change<L: Lines>(dev: &mut L, act: Act) -> Result<(), Interruption> {
    match act {
        Act::Put(offset, len, byte) => put(dev, offset, many(&[byte; 256], len)),
        Act::PutWhole(line, byte) => put_whole(dev, line, &[byte; 128]),
        Act::Sync(start, len) => sync(dev, start, len),
        Act::Clear(first, count) => clear(dev, first, count),
        _ => Err(STOPPED),
    }
}

// The same, with how many calls it takes.
fn count<L: Lines>(dev: &mut L, act: Act) -> Told {
    let before = dev.counts();
    match change(dev, act) {
        Ok(()) => {
            let after = dev.counts();
            Told::Done(
                after.calls.saturating_sub(before.calls),
                after.persists.saturating_sub(before.persists),
            )
        }
        Err(stop) => Told::Stopped(stop),
    }
}

fn shows<L: Lines>(dev: &mut L, offset: u64, wanted: [u8; 8]) -> Told {
    let mut out = [9; 8];
    match load(dev, offset, &mut out) {
        Ok(()) => Told::Is(out == wanted),
        Err(stop) => Told::Stopped(stop),
    }
}

// How many bytes at the front are the first one; 0 where others than zeros follow them.
fn front(bytes: &[u8; 64]) -> usize {
    let mut count: usize = 0;
    for byte in bytes {
        if *byte == bytes[0] {
            count = count.saturating_add(1);
        } else if *byte != 0 {
            return 0;
        }
    }
    count
}

fn line(device: &Plain, n: u64) -> Told {
    if device.lines() <= n {
        return Told::Stopped(STOPPED);
    }
    match device.peek(LineNo(n)) {
        LineState::Healthy(bytes) => Told::Healthy(front(&bytes), bytes[0]),
        LineState::Weak(bytes) => Told::Weak(front(&bytes), bytes[0]),
        LineState::Bad => Told::Bad,
    }
}

fn cut(device: &mut Plain) -> Told {
    if device.power() {
        device.power_off();
    }
    Told::Is(device.restart(Choice::Firsts).is_ok())
}

fn perform(device: &mut Plain, act: Act) -> Told {
    match act {
        Act::Load(offset, wanted) => shows(device, offset, wanted),
        Act::Find(start, len, which) => Told::Found(find(device, start, len, which)),
        Act::Spoil(n) => {
            spoil(device, n);
            Told::Is(true)
        }
        Act::Weaken(n) => Told::Is(weaken(device, n).is_ok()),
        Act::Fail => {
            device.arm_fail(1);
            Told::Is(true)
        }
        Act::Cut => cut(device),
        Act::Line(n) => line(device, n),
        _ => count(device, act),
    }
}

// Goes through a story of a device of five lines of zeros.
fn follow(rt: &impl Abort, alloc: Global, story: &[(Act, Told)]) -> Result<(), Fail> {
    let mut device = fresh(alloc, 5)?;
    for &(act, told) in story {
        assert_eq!(rt; perform(&mut device, act), told);
    }
    Ok(())
}

static DURABLE: [(Act, Told); 7] = [
    (Act::Put(60, 72, 7), Told::Done(3, 0)),
    (Act::Sync(127, 2), Told::Done(2, 2)),
    (Act::Cut, Told::Is(true)),
    (Act::Line(0), Told::Healthy(64, 0)),
    (Act::Line(1), Told::Healthy(64, 7)),
    (Act::Line(2), Told::Healthy(4, 7)),
    (Act::Line(3), Told::Healthy(64, 0)),
];

#[test]
fn what_was_made_durable_survives_a_cut(rt: HostRuntime) -> Result<(), Fail> {
    follow(&rt, rt.alloc(), &DURABLE)
}

static MARKED: [(Act, Told); 8] = [
    (Act::Spoil(1), Told::Is(true)),
    (Act::Weaken(2), Told::Is(true)),
    (Act::PutWhole(1, 9), Told::Done(3, 0)),
    (Act::Line(1), Told::Healthy(64, 9)),
    (Act::Line(2), Told::Weak(64, 9)),
    (Act::Sync(0, 256), Told::Done(4, 4)),
    (Act::Line(1), Told::Healthy(64, 9)),
    (Act::Line(2), Told::Bad),
];

#[test]
fn a_bad_line_is_put_whole_and_a_weak_one_ends_at_a_sync(rt: HostRuntime) -> Result<(), Fail> {
    follow(&rt, rt.alloc(), &MARKED)
}

static NOWHERE: [(Act, Told); 5] = [
    (Act::Put(250, 20, 5), Told::Done(1, 0)),
    (Act::Line(4), Told::Healthy(64, 0)),
    (Act::Load(252, [5, 5, 5, 5, 0, 0, 0, 0]), Told::Is(true)),
    (Act::Fail, Told::Is(true)),
    (Act::Sync(255, 9), Told::Stopped(Interruption::Failed)),
];

#[test]
fn a_line_that_is_nowhere_takes_no_call(rt: HostRuntime) -> Result<(), Fail> {
    follow(&rt, rt.alloc(), &NOWHERE)
}

static CLEARED: [(Act, Told); 10] = [
    (Act::Put(0, 256, 7), Told::Done(4, 0)),
    (Act::Spoil(2), Told::Is(true)),
    (Act::Weaken(3), Told::Is(true)),
    (Act::Clear(1, 4), Told::Done(3, 0)),
    (Act::Line(0), Told::Healthy(64, 7)),
    (Act::Cut, Told::Is(true)),
    (Act::Line(0), Told::Healthy(64, 0)),
    (Act::Line(1), Told::Healthy(64, 0)),
    (Act::Line(2), Told::Healthy(64, 0)),
    (Act::Line(3), Told::Healthy(64, 0)),
];

#[test]
fn lines_are_cleared_by_one_call_each(rt: HostRuntime) -> Result<(), Fail> {
    follow(&rt, rt.alloc(), &CLEARED)
}

static FOUND: [(Act, Told); 9] = [
    (Act::Spoil(1), Told::Is(true)),
    (Act::Spoil(2), Told::Is(true)),
    (Act::Spoil(4), Told::Is(true)),
    (Act::Find(0, 64, BadLines::All), Told::Found(None)),
    (Act::Find(0, 65, BadLines::All), Told::Found(Some(1))),
    (Act::Find(60, 140, BadLines::All), Told::Found(Some(1))),
    (Act::Find(60, 140, BadLines::NotCovered), Told::Found(None)),
    (
        Act::Find(60, 131, BadLines::NotCovered),
        Told::Found(Some(2)),
    ),
    (Act::Find(192, 200, BadLines::All), Told::Found(None)),
];

// A search borrows the device to be read alone, so it makes no call.
#[test]
fn the_lowest_bad_line_is_found_without_a_call(rt: HostRuntime) -> Result<(), Fail> {
    follow(&rt, rt.alloc(), &FOUND)
}
