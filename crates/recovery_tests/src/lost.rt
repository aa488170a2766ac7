// Lines that are lost while a device is off, as they are counted once it is mounted.
ghost use Rattle.line_device.specs.Plain.{device_of};
ghost use Rattle.pm_volume.specs.Object.{VolumeServes};

use crate::devices::{LINES, fresh, spoil, start, with_words};
use blocks::{fill, lose};
use line_device::{Choice, LineDevice, Lines, Plain};
use pm_volume::Volume;
use recovery::MountFault;
use scrub::{bad_count, bad_in_files, bad_in_volume};
use std::alloc::Global;
use std::test::Fail;

mod blocks;
mod files;

// The words of two files: `b` has three pages, the second of them a hole, and `a`, the later inode, has one.
static FILES: [(u64, u64); 7] = [
    (1232, 4),
    (1233, 0x62),
    (1240, 2),
    (1241, 0x61),
    (1744, 1),
    (1746, 3),
    (2000, 32),
];

fn store_byte(volume: &mut Volume, dev: &mut Plain, offset: u64) -> bool
    requires { VolumeServes volume.old (device_of dev.old).medium }
{
    volume.settled() && dev.power() && volume.store(dev, offset, &[2]).is_ok()
}

// Stores a byte of the volume after a cut.
fn store(alloc: Global, dev: &mut Plain, offset: u64) -> Result<bool, MountFault> {
    let mut mounted = start(alloc, dev, Choice::Lasts)?;
    Ok(store_byte(&mut mounted.volume, dev, offset))
}

// How many bad lines the volume and the files have after a cut.
fn counted(alloc: Global, dev: &mut Plain) -> Result<(u64, u64), MountFault> {
    let mounted = start(alloc, dev, Choice::Lasts)?;
    let volume = bad_in_volume(dev, &mounted.volume);
    Ok((volume, bad_in_files(dev, mounted.files.journal())))
}

// Lines that are lost one after the other, and how many of the volume's are bad then. Its pages lie from line 2304 on, the third and
// the fourth from line 3008 on; the first and the fourth are there.
static OF_PAGES: [(u64, u64, &str); 5] = [
    (2304, 1, "the first line of a page"),
    (2367, 2, "its last line"),
    (2368, 2, "a line of an absent page"),
    (3135, 3, "the last line of the last page"),
    (2304, 3, "a line that is bad already"),
];

#[test]
fn bad_lines_of_pages_that_are_there_are_counted(rt: HostRuntime) -> Result<(), Fail> {
    let mut device = fresh(rt.alloc(), LINES)?;
    for offset in [0, 16383] {
        assert!(rt; store(rt.alloc(), &mut device, offset)?);
    }
    for &(line, bad, told) in &OF_PAGES {
        spoil(&mut device, line);
        assert_eq!(rt; counted(rt.alloc(), &mut device)?, (bad, 0), "{told}");
    }
    Ok(())
}

// The same of files, whose pages lie from line 3136 on.
static OF_FILES: [(u64, u64, &str); 7] = [
    (3136, 1, "the first line of a page"),
    (3199, 2, "its last line"),
    (3200, 2, "a line that is no page's"),
    (3264, 3, "the first line of the page behind the hole"),
    (3328, 3, "the line behind its last one"),
    (5183, 4, "the last line of another file's page"),
    (3136, 4, "a line that is bad already"),
];

#[test]
fn bad_lines_of_files_are_counted(rt: HostRuntime) -> Result<(), Fail> {
    let mut device = with_words(rt.alloc(), &FILES)?;
    for &(line, bad, told) in &OF_FILES {
        spoil(&mut device, line);
        assert_eq!(rt; counted(rt.alloc(), &mut device)?, (0, bad), "{told}");
    }
    Ok(())
}

// How many bad lines blocks, volume and files have after a cut.
fn all_counted(alloc: Global, dev: &mut Plain) -> Result<u64, MountFault> {
    let mounted = start(alloc, dev, Choice::Lasts)?;
    Ok(bad_count(dev, &mounted.blocks, &mounted.volume, &mounted.files))
}

#[test]
fn all_bad_lines_are_counted(rt: HostRuntime) -> Result<(), Fail> {
    let mut device = with_words(rt.alloc(), &FILES)?;
    assert!(rt; store(rt.alloc(), &mut device, 0)?);
    assert!(rt; fill(rt.alloc(), &mut device)?);
    assert!(rt; lose(rt.alloc(), &mut device, 2, 5)?);
    spoil(&mut device, 2305);
    spoil(&mut device, 3136);
    assert_eq!(rt; all_counted(rt.alloc(), &mut device)?, 3);
    Ok(())
}
