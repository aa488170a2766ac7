// Mounts of plain devices, as a caller sees them.
ghost use Rattle.std.specs.Prelude.{IsTrue};
ghost use Rattle.block_device.specs.Object.{BlocksServe};

use crate::devices::{LINES, SMALL, fresh, start, with_words};
use block_device::{BlockFault, Blocks};
use file_journal::Journal;
use line_device::{Choice, LineDevice, LineState, Lines, Peek, Plain};
use nvm_base::{LineNo, Name};
use pm_volume::VolumeFault;
use recovery::format;
use std::test::Fail;

mod cuts;
mod findings;

// The first byte of a block.
fn byte_of<L: Lines>(blocks: &mut Blocks, dev: &mut L, block: u64) -> Result<u8, BlockFault>
    requires { IsTrue blocks.old.settled → BlocksServe blocks.old (L.state dev.old).medium }
    ensures { IsTrue blocks.new.settled → BlocksServe blocks.new (L.state dev.new).medium }
{
    if !blocks.settled() || !dev.power() {
        return Err(BlockFault::Device);
    }
    let mut out = [0xee; 512];
    blocks.read_into(dev, block, &mut out)?;
    Ok(out[0])
}

// The inode of a file.
fn inode_of(journal: &Journal, name: &[u8]) -> Option<u64> {
    journal.find(&Name::read(name)?)
}

#[test]
fn a_fresh_device_mounts_with_no_blocks_no_pages_and_no_files(rt: HostRuntime) -> Result<(), Fail> {
    let mut device = fresh(rt.alloc(), LINES)?;
    let mut mounted = start(rt.alloc(), &mut device, Choice::Lasts)?;
    assert_eq!(rt; mounted.geo, SMALL);
    assert_eq!(rt; mounted.blocks.count(), 8);
    assert_eq!(rt; mounted.blocks.exists(7), Ok(false));
    assert_eq!(rt; byte_of(&mut mounted.blocks, &mut device, 7), Ok(0));
    assert_eq!(rt; mounted.volume.exists(3), Ok(false));
    assert_eq!(rt; mounted.volume.exists(4), Err(VolumeFault::Range));
    assert_eq!(rt; inode_of(mounted.files.journal(), b"a"), None);
    assert_eq!(rt; mounted.files.journal().used(), 0);
    Ok(())
}

#[test]
fn an_open_log_of_the_volume_is_replayed(rt: HostRuntime) -> Result<(), Fail> {
    let mut device = with_words(rt.alloc(), &[(153, 1), (160, 673), (161, 1), (152, 1)])?;
    let mounted = start(rt.alloc(), &mut device, Choice::Firsts)?;
    assert_eq!(rt; mounted.volume.exists(0), Ok(false));
    assert_eq!(rt; mounted.volume.exists(1), Ok(true));
    Ok(())
}

// The words of an open log by which inode 1 becomes `a` with 2 pages, of which the second one is on unit 4.
static OPEN: [(u64, u64); 8] = [
    (681, 3),
    (688, 1240),
    (689, 3),
    (690, 1241),
    (691, 0x61),
    (692, 2001),
    (693, 5),
    (680, 1),
];

#[test]
fn an_open_log_of_files_is_replayed(rt: HostRuntime) -> Result<(), Fail> {
    let mut device = with_words(rt.alloc(), &OPEN)?;
    let mounted = start(rt.alloc(), &mut device, Choice::Firsts)?;
    assert_eq!(rt; inode_of(mounted.files.journal(), b"a"), Some(1));
    assert_eq!(rt; mounted.files.journal().pages(1), 2);
    assert_eq!(rt; mounted.files.journal().unit(1, 0), None);
    assert_eq!(rt; mounted.files.journal().unit(1, 1), Some(4));
    assert_eq!(rt; mounted.files.journal().used(), 1);
    Ok(())
}

// The bytes of the first line, where it is healthy.
fn first_line<P: Peek>(dev: &P) -> Option<[u8; 64]> {
    if dev.lines() == 0 {
        return None;
    }
    match dev.peek(LineNo(0)) {
        LineState::Healthy(bytes) => Some(bytes),
        LineState::Weak(_) | LineState::Bad => None,
    }
}

#[test]
fn a_formatted_device_mounts_with_no_blocks(rt: HostRuntime) -> Result<(), Fail> {
    let mut device = Plain::new(rt.alloc());
    assert!(rt; SMALL.valid());
    format(&mut device, SMALL)?;
    let Some(first) = first_line(&device) else {
        return Err(Fail::from("no first line"));
    };
    assert_eq!(rt; &first[..8], b"NVMPMH01".as_slice());
    let mut mounted = start(rt.alloc(), &mut device, Choice::Firsts)?;
    assert_eq!(rt; mounted.geo, SMALL);
    assert_eq!(rt; mounted.blocks.exists(7), Ok(false));
    assert_eq!(rt; byte_of(&mut mounted.blocks, &mut device, 7), Ok(0));
    Ok(())
}
