// Acts behind fuses of 0, 1, 2 .. calls, until one ends with Ok.
ghost use Rattle.std.specs.Prelude.{IfOk, IsTrue};
ghost use Rattle.line_device.specs.Plain.{device_of};
ghost use Rattle.pm_volume.specs.Object.{VolumeServes};

use super::{Act, Told, open, perform};
use crate::devices::{SMALL_LINES, fresh};
use line_device::{Choice, LineDevice, Plain};
use pm_volume::{Volume, VolumeFault};
use std::alloc::Global;
use std::test::Fail;
use test_devices::Fuse;

// Performs an act on a fuse of this number of calls.
fn perform_behind<D: LineDevice>(
    volume: &mut Volume,
    dev: D,
    calls: u64,
    act: Act,
) -> (Told, Fuse<D>)
    requires { IsTrue volume.old.settled → VolumeServes volume.old (D.state dev).medium }
{
    let mut fuse = Fuse::new(dev, calls);
    let answer = perform(volume, &mut fuse, act);
    (answer, fuse)
}

// An act on a fresh volume, another one behind a fuse, and three that look at what it left.
#[derive(Clone, Copy)]
struct Trial {
    before: Act,
    during: Act,
    looks: [Act; 3],
}

// A fresh device on which an act was performed, and its volume.
fn begun(alloc: Global, choice: Choice, before: Act) -> Result<(Volume, Plain), Fail>
    ensures { IfOk result (λ r. IsTrue r.0.settled → VolumeServes r.0 (device_of r.1).medium) }
{
    let mut device = fresh(alloc, SMALL_LINES)?;
    let mut volume = open(alloc, &mut device, choice)?;
    perform(&mut volume, &mut device, before)?;
    Ok((volume, device))
}

// What three looks find after a restart.
fn found<D: LineDevice>(
    alloc: Global,
    dev: &mut D,
    choice: Choice,
    looks: [Act; 3],
) -> Result<[u64; 3], VolumeFault> {
    let Ok(mut volume) = open(alloc, dev, choice) else {
        return Err(VolumeFault::Device);
    };
    let first = perform(&mut volume, dev, looks[0])?;
    let second = perform(&mut volume, dev, looks[1])?;
    let third = perform(&mut volume, dev, looks[2])?;
    Ok([first, second, third])
}

// Whether the act behind a fuse of so many calls ended with Ok, and what the looks find after a restart.
fn outcome(
    alloc: Global,
    trial: Trial,
    choice: Choice,
    calls: u64,
) -> Result<(bool, [u64; 3]), Fail> {
    let (mut volume, device) = begun(alloc, choice, trial.before)?;
    let (answer, mut fuse) = perform_behind(&mut volume, device, calls, trial.during);
    let done = answer.is_ok();
    if volume.settled() != done || !done && answer != Err(VolumeFault::PowerLost) {
        return Err(Fail::from("the answer"));
    }
    let told = found(alloc, &mut fuse, choice, trial.looks)?;
    Ok((done, told))
}

const ACROSS_PAGES: Trial = Trial {
    before: Act::Exists(0),
    during: Act::Store(4064, 64, 4),
    looks: [Act::Exists(0), Act::Exists(1), Act::Byte(4095)],
};

#[test]
fn a_store_fills_both_pages_that_it_touches_or_none(rt: HostRuntime) -> Result<(), Fail> {
    for choice in [Choice::Firsts, Choice::Lasts] {
        let mut done = false;
        // 128 calls clear the lines of both pages.
        for calls in 126..160_u64 {
            let (ended, [first, second, byte]) = outcome(rt.alloc(), ACROSS_PAGES, choice, calls)?;
            done = ended;
            assert!(rt; first == second && (first == 1 || !done));
            assert!(rt; byte == 0 || byte == 4 && first == 1);
            if done {
                break;
            }
        }
        assert!(rt; done);
    }
    Ok(())
}

const THREE_PAGES: Trial = Trial {
    before: Act::Store(4095, 4098, 7),
    during: Act::Discard(0, 3),
    looks: [Act::Exists(0), Act::Exists(1), Act::Exists(2)],
};

#[test]
fn three_pages_go_together(rt: HostRuntime) -> Result<(), Fail> {
    let mut done = false;
    for calls in 0..100_u64 {
        let (ended, [first, second, third]) = outcome(
            rt.alloc(),
            THREE_PAGES,
            Choice::Lasts,
            calls,
        )?;
        done = ended;
        assert!(rt; second == first && third == first && (first == 0 || !done));
        if done {
            break;
        }
    }
    assert!(rt; done);
    Ok(())
}
