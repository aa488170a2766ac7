// Writes behind fuses of 0, 1, 2 .. calls, until one ends with Ok.
ghost use Rattle.std.specs.Prelude.{IfOk, IsTrue};
ghost use Rattle.test_devices.specs.Fuse.{fused};
ghost use Rattle.line_device.specs.Plain.{device_of};
ghost use Rattle.block_device.specs.Object.{BlocksServe};

use super::{Act, Told, open, perform, read, start};
use crate::devices::{SMALL, SMALL_LINES, fresh};
use block_device::{BlockFault, Blocks, MountFault};
use line_device::{Choice, LineDevice, Plain};
use std::alloc::Global;
use std::test::Fail;
use test_devices::Fuse;

// Performs an act on a fuse of this number of calls.
fn perform_behind<D: LineDevice>(
    blocks: &mut Blocks,
    dev: D,
    calls: u64,
    alloc: Global,
    act: Act,
) -> (Told, Fuse<D>)
    requires { IsTrue blocks.old.settled → BlocksServe blocks.old (D.state dev).medium }
{
    let mut fuse = Fuse::new(dev, calls);
    let answer = perform(blocks, &mut fuse, alloc, act);
    (answer, fuse)
}

// Takes a plain device behind a fuse through a cut, and mounts its blocks.
fn start_fused(alloc: Global, dev: &mut Fuse<Plain>, choice: Choice) -> Result<Blocks, MountFault>
    ensures { IfOk result (λ blocks. IsTrue blocks.settled → BlocksServe blocks (fused device_of dev.new).medium) }
{
    open(alloc, dev, choice, SMALL)
}

// An act on a fresh device, and another one behind a fuse, which changes two blocks.
#[derive(Clone, Copy)]
struct Trial {
    before: Act,
    during: Act,
    blocks: [u64; 2],
}

// A fresh device on which an act was performed, and its blocks.
fn begun(alloc: Global, choice: Choice, before: Act) -> Result<(Blocks, Plain), Fail>
    ensures { IfOk result (λ r. IsTrue r.0.settled → BlocksServe r.0 (device_of r.1).medium) }
{
    let mut device = fresh(alloc, SMALL_LINES)?;
    let mut blocks = start(alloc, &mut device, choice, SMALL)?;
    perform(&mut blocks, &mut device, alloc, before)?;
    Ok((blocks, device))
}

// What two blocks have after a restart.
fn found(
    alloc: Global,
    fuse: &mut Fuse<Plain>,
    choice: Choice,
    places: [u64; 2],
) -> Result<[u64; 2], BlockFault> {
    let Ok(mut blocks) = start_fused(alloc, fuse, choice) else {
        return Err(BlockFault::Device);
    };
    let first = read(&mut blocks, fuse, places[0])?;
    let second = read(&mut blocks, fuse, places[1])?;
    Ok([first, second])
}

// Whether the act behind a fuse of so many calls ended with Ok, and what the two blocks have after a restart.
fn outcome(
    alloc: Global,
    trial: &Trial,
    choice: Choice,
    calls: u64,
) -> Result<(bool, [u64; 2]), Fail> {
    let (mut blocks, device) = begun(alloc, choice, trial.before)?;
    let (answer, mut fuse) = perform_behind(&mut blocks, device, calls, alloc, trial.during);
    let done = answer.is_ok();
    if blocks.settled() != done || !done && answer != Err(BlockFault::PowerLost) {
        return Err(Fail::from("the answer"));
    }
    let bytes = found(alloc, &mut fuse, choice, trial.blocks)?;
    Ok((done, bytes))
}

static WRITTEN: Trial = Trial {
    before: Act::Write(6, 1024, 3),
    during: Act::Write(6, 1024, 4),
    blocks: [6, 7],
};

#[test]
fn a_cut_write_leaves_old_blocks_or_new_ones(rt: HostRuntime) -> Result<(), Fail> {
    for choice in [Choice::Firsts, Choice::Lasts] {
        let mut done = false;
        for calls in 0..200_u64 {
            let (ended, bytes) = outcome(rt.alloc(), &WRITTEN, choice, calls)?;
            done = ended;
            assert!(rt; bytes[0] == 4 || bytes[0] == 3 && bytes[1] == 3 && !done);
            assert!(rt; bytes[1] == 4 || bytes[1] == 3 && !done);
            if done {
                break;
            }
        }
        assert!(rt; done);
    }
    Ok(())
}

static TOGETHER: Trial = Trial {
    before: Act::Write(6, 512, 3),
    during: Act::Pair([6, 1], [4, 5]),
    blocks: [6, 1],
};

#[test]
fn a_cut_leaves_all_old_blocks_or_all_new_ones(rt: HostRuntime) -> Result<(), Fail> {
    for choice in [Choice::Firsts, Choice::Lasts] {
        let mut done = false;
        for calls in 0..200_u64 {
            let (ended, bytes) = outcome(rt.alloc(), &TOGETHER, choice, calls)?;
            done = ended;
            assert!(rt; bytes == [4, 5] || bytes == [3, 0] && !done);
            if done {
                break;
            }
        }
        assert!(rt; done);
    }
    Ok(())
}
