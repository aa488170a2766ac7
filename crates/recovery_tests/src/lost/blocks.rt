// Lines of blocks that media errors take.
ghost use Rattle.std.specs.Prelude.{IsTrue};
ghost use Rattle.line_device.specs.Plain.{device_of};
ghost use Rattle.block_device.specs.Object.{BlocksServe};

use crate::devices::{LINES, fresh, start};
use block_device::{BlockFault, Blocks};
use line_device::{Choice, LineDevice, Lines, Plain};
use nvm_base::Span;
use recovery::MountFault;
use scrub::{PlaceFault, bad_in_blocks, poison_block};
use std::alloc::Global;
use std::process::Abort;
use std::test::Fail;

// Writes the first three blocks.
fn write(blocks: &mut Blocks, dev: &mut Plain) -> bool
    requires { BlocksServe blocks.old (device_of dev.old).medium }
    ensures { IsTrue blocks.new.settled → BlocksServe blocks.new (device_of dev.new).medium }
{
    blocks.settled() && dev.power() && blocks.write(dev, 0, &[7; 1536]).is_ok()
}

// Scars the second one.
fn scar(blocks: &mut Blocks, dev: &mut Plain) -> bool
    requires { IsTrue blocks.old.settled → BlocksServe blocks.old (device_of dev.old).medium }
{
    let second = [Span { start: 1, len: 1 }];
    blocks.settled() && dev.power() && blocks.scar(dev, &second).is_ok()
}

// Three blocks written, and the second of them scarred.
pub(super) fn fill(alloc: Global, dev: &mut Plain) -> Result<bool, MountFault> {
    let mut mounted = start(alloc, dev, Choice::Lasts)?;
    Ok(write(&mut mounted.blocks, dev) && scar(&mut mounted.blocks, dev))
}

// A media error takes a line of a block after a cut.
pub(super) fn lose(
    alloc: Global,
    dev: &mut Plain,
    block: u64,
    line: u64,
) -> Result<bool, MountFault> {
    let mounted = start(alloc, dev, Choice::Lasts)?;
    Ok(poison_block(dev, &mounted.blocks, block, line).is_ok())
}

fn read(blocks: &mut Blocks, dev: &mut Plain, block: u64) -> Option<BlockFault>
    requires { BlocksServe blocks.old (device_of dev.old).medium }
{
    if !blocks.settled() || !dev.power() {
        return Some(BlockFault::Device);
    }
    blocks.read_into(dev, block, &mut [0; 512]).err()
}

// What keeps a block from being read after a cut.
fn obstacle(alloc: Global, dev: &mut Plain, block: u64) -> Result<Option<BlockFault>, MountFault> {
    let mut mounted = start(alloc, dev, Choice::Lasts)?;
    Ok(read(&mut mounted.blocks, dev, block))
}

// Lines of blocks for which media errors are asked, and how many lines are bad then.
static ERRORS: [(u64, u64, Result<(), PlaceFault>, u64); 9] = [
    (8, 0, Err(PlaceFault::Range), 0),
    (0, 8, Err(PlaceFault::Range), 0),
    (u64::MAX, u64::MAX, Err(PlaceFault::Range), 0),
    (1, 0, Err(PlaceFault::Nothing), 0),
    (3, 7, Err(PlaceFault::Nothing), 0),
    (0, 7, Ok(()), 1),
    (0, 7, Ok(()), 1),
    (0, 2, Ok(()), 2),
    (2, 0, Ok(()), 3),
];

fn lose_each(rt: &impl Abort, blocks: &Blocks, dev: &mut Plain)
    requires { BlocksServe blocks.now (device_of dev.old).medium }
{
    for &(block, line, answer, bad) in &ERRORS {
        let told = poison_block(dev, blocks, block, line);
        assert_eq!(rt; told, answer, "block {block}, line {line}");
        assert_eq!(rt;
            bad_in_blocks(dev, blocks),
            bad,
            "after block {block}, line {line}"
        );
    }
}

fn lose_all(rt: &impl Abort, alloc: Global, dev: &mut Plain) -> Result<(), MountFault> {
    let mounted = start(alloc, dev, Choice::Lasts)?;
    lose_each(rt, &mounted.blocks, dev);
    Ok(())
}

#[test]
fn lines_of_blocks_are_lost(rt: HostRuntime) -> Result<(), Fail> {
    let mut device = fresh(rt.alloc(), LINES)?;
    assert!(rt; fill(rt.alloc(), &mut device)?);
    lose_all(&rt, rt.alloc(), &mut device)?;
    let first = obstacle(rt.alloc(), &mut device, 0)?;
    assert_eq!(rt; first, Some(BlockFault::Poison(0, 2)));
    Ok(())
}
