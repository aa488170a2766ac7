// An append-only log on fuses of 0, 1, 2 .. calls: what a restart finds of it.
ghost use Rattle.std.specs.Prelude.{IfOk, IsTrue};
ghost use Rattle.append_log.specs.Log.{LogServes};
ghost use Rattle.line_device.specs.Plain.{device_of};

use super::open;
use crate::devices::{SMALL_LINES, fresh, spoil, weaken};
use append_log::{AppendLog, LogFault, Record};
use line_device::{Choice, LineDevice, Lines, Plain};
use pm_volume::VolumeFault;
use std::alloc::Global;
use std::test::Fail;
use test_devices::Fuse;

// Takes a device through a cut, and opens its log.
fn open_log<D: LineDevice>(
    alloc: Global,
    dev: &mut D,
    choice: Choice,
) -> Result<AppendLog, LogFault>
    ensures { IfOk result (λ log. IsTrue log.volume.settled → LogServes log (D.state dev.new).medium) }
{
    let Ok(volume) = open(alloc, dev, choice) else {
        return Err(LogFault::Volume(VolumeFault::Device));
    };
    if !volume.settled() || !dev.power() {
        return Err(LogFault::Volume(VolumeFault::Device));
    }
    AppendLog::open(volume, dev)
}

fn append<L: Lines>(log: &mut AppendLog, dev: &mut L, record: &[u8]) -> Result<(), LogFault>
    requires { IsTrue log.old.volume.settled → LogServes log.old (L.state dev.old).medium }
    ensures { IsTrue log.new.volume.settled → LogServes log.new (L.state dev.new).medium }
{
    if !log.settled() || !dev.power() {
        return Err(LogFault::Volume(VolumeFault::Device));
    }
    log.append(dev, record)
}

fn get<L: Lines>(log: &mut AppendLog, dev: &mut L, index: u64) -> Result<Record, LogFault>
    requires { IsTrue log.old.volume.settled → LogServes log.old (L.state dev.old).medium }
    ensures { IsTrue log.new.volume.settled → LogServes log.new (L.state dev.new).medium }
{
    if !log.settled() || !dev.power() {
        return Err(LogFault::Volume(VolumeFault::Device));
    }
    log.get(dev, index)
}

// Appends a record on a fuse of this number of calls.
fn append_behind<D: LineDevice>(
    log: &mut AppendLog,
    dev: D,
    calls: u64,
    record: &[u8],
) -> (Result<(), LogFault>, Fuse<D>)
    requires { IsTrue log.old.volume.settled → LogServes log.old (D.state dev).medium }
{
    let mut fuse = Fuse::new(dev, calls);
    let answer = append(log, &mut fuse, record);
    (answer, fuse)
}

// A fresh device and its log, with a record where one is wanted.
fn begun(
    alloc: Global,
    choice: Choice,
    first: Option<&[u8]>,
) -> Result<(AppendLog, Plain), LogFault>
    ensures { IfOk result (λ r. IsTrue r.0.volume.settled → LogServes r.0 (device_of r.1).medium) }
{
    let Ok(mut device) = fresh(alloc, SMALL_LINES) else {
        return Err(LogFault::Volume(VolumeFault::Device));
    };
    let mut log = open_log(alloc, &mut device, choice)?;
    if let Some(record) = first {
        append(&mut log, &mut device, record)?;
    }
    Ok((log, device))
}

// Whether the append of a record after a first one ended with Ok, how many records a restart finds, and whether the last one is
// whole.
fn outcome(
    alloc: Global,
    choice: Choice,
    first: Option<&[u8]>,
    calls: u64,
) -> Result<(bool, u64, bool), LogFault> {
    let (mut log, device) = begun(alloc, choice, first)?;
    let (answer, mut fuse) = append_behind(&mut log, device, calls, b"the record");
    let mut found = open_log(alloc, &mut fuse, choice)?;
    let len = found.len();
    if len == 0 {
        return Ok((answer.is_ok(), len, true));
    }
    let last = get(&mut found, &mut fuse, len - 1)?;
    let wanted: &[u8] = if len == 1 && first.is_some() {
        b"first"
    } else {
        b"the record"
    };
    Ok((answer.is_ok(), len, last.as_slice() == wanted))
}

// The record that stands before, and between how many calls the append ends: one in a page that exists takes 4, and the first
// one of a page fills it.
static CUTS: [(Option<&[u8]>, u64, u64); 2] = [(Some(b"first"), 0, 8), (None, 60, 100)];

#[test]
fn a_cut_leaves_the_log_or_the_log_with_the_record(rt: HostRuntime) -> Result<(), Fail> {
    for choice in [Choice::Firsts, Choice::Lasts] {
        for &(first, from, to) in &CUTS {
            let before = u64::from(first.is_some());
            let mut done = false;
            for calls in from..to {
                let Ok((ended, len, whole)) = outcome(rt.alloc(), choice, first, calls) else {
                    return Err(Fail::from("the log"));
                };
                done = ended;
                assert!(rt; whole && (len == before + 1 || len == before && !ended));
                if done {
                    break;
                }
            }
            assert!(rt; done);
        }
    }
    Ok(())
}

// No line of the device.
const NO_LINE: u64 = u64::MAX;

// What keeps a record from being read, and the next one from being appended.
type Told = (Option<LogFault>, Option<LogFault>);

// A line that went bad and one that got weak after the first record, and what is reported then. Line n of the volume is line
// 2304 + n of the device.
static MEDIA: [(u64, u64, Result<Told, LogFault>); 5] = [
    (NO_LINE, NO_LINE, Ok((None, None))),
    (
        2305,
        NO_LINE,
        Ok((Some(LogFault::Volume(VolumeFault::Poison(64))), None)),
    ),
    (
        2306,
        NO_LINE,
        Ok((None, Some(LogFault::Volume(VolumeFault::Poison(128))))),
    ),
    (NO_LINE, 2306, Ok((None, Some(LogFault::Weak(128))))),
    (2304, NO_LINE, Err(LogFault::Volume(VolumeFault::Poison(0)))),
];

fn told(alloc: Global, bad: u64, weak: u64) -> Result<Told, LogFault> {
    let (_, mut device) = begun(alloc, Choice::Lasts, Some(b"first"))?;
    spoil(&mut device, bad);
    if weaken(&mut device, weak).is_err() {
        return Err(LogFault::Full);
    }
    let mut log = open_log(alloc, &mut device, Choice::Lasts)?;
    let got = get(&mut log, &mut device, 0).err();
    let appended = append(&mut log, &mut device, b"next").err();
    Ok((got, appended))
}

#[test]
fn a_line_that_is_bad_or_weak_is_named(rt: HostRuntime) -> Result<(), Fail> {
    for &(bad, weak, wanted) in &MEDIA {
        assert!(rt; told(rt.alloc(), bad, weak) == wanted);
    }
    Ok(())
}
