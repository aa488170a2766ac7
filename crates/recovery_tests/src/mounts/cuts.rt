// Mounts that are cut or fail at their first call, their second one, and so on, until one ends with Ok.
ghost use Rattle.std.specs.Prelude.{IfOk, IsTrue};
ghost use Rattle.line_device.specs.Plain.{device_of};
ghost use Rattle.test_devices.specs.Faulty.{faulty};
ghost use Rattle.test_devices.specs.Fuse.{fused};
ghost use Rattle.block_device.specs.Object.{BlocksServe};

use super::{byte_of, inode_of};
use crate::devices::{open, with_words};
use block_device::BlockFault;
use line_device::{Choice, Lines, Plain};
use nvm_base::Words;
use recovery::{MountFault, Mounted, mount};
use std::alloc::Global;
use std::test::Fail;
use test_devices::{Faulty, Fuse};

// The words of three open logs, of a word of the first unit, and of a file `a` of one page. The logs put block 3 on that unit and
// scar block 4; make page 1 be there; and give the file the name `b`, and its page unit 4.
static OPEN: [(u64, u64); 19] = [
    (8 * 2432, 7),
    (9, 2),
    (16, 147),
    (17, 2),
    (18, 148),
    (19, 1),
    (153, 1),
    (160, 673),
    (161, 1),
    (1232, 2),
    (1233, 0x61),
    (681, 2),
    (688, 1233),
    (689, 0x62),
    (690, 1744),
    (691, 5),
    (680, 1),
    (152, 1),
    (8, 1),
];

// Whether what the three logs say is there.
fn is_replayed<L: Lines>(mounted: &mut Mounted, dev: &mut L) -> bool
    requires { BlocksServe mounted.old.blocks (L.state dev.old).medium }
{
    byte_of(&mut mounted.blocks, dev, 3) == Ok(7)
        && byte_of(&mut mounted.blocks, dev, 4) == Err(BlockFault::Scarred(4))
        && mounted.blocks.exists(5) == Ok(false)
        && mounted.volume.exists(0) == Ok(false)
        && mounted.volume.exists(1) == Ok(true)
        && inode_of(mounted.files.journal(), b"a") == None
        && inode_of(mounted.files.journal(), b"b") == Some(0)
        && mounted.files.journal().unit(0, 0) == Some(4)
}

// Takes a plain device behind a fuse through a cut, and mounts it.
fn start_fused(alloc: Global, dev: &mut Fuse<Plain>, choice: Choice) -> Result<Mounted, MountFault>
    ensures { IfOk result (λ mounted. BlocksServe mounted.blocks (fused device_of dev.new).medium) }
{
    open(alloc, dev, choice)
}

// The same of a plain device whose calls fail by a list. The cut ends the list.
fn start_faulty(
    alloc: Global,
    dev: &mut Faulty<Plain>,
    choice: Choice,
) -> Result<Mounted, MountFault>
    ensures { IfOk result (λ mounted. BlocksServe mounted.blocks (faulty device_of dev.new).medium) }
{
    open(alloc, dev, choice)
}

// How a mount of the device as it is ends.
fn first_mount<L: Lines>(alloc: Global, dev: &mut L) -> Result<Option<MountFault>, Fail> {
    if !dev.power() || dev.lines() == 0 {
        return Err(Fail::from("no device"));
    }
    Ok(mount(alloc, dev).err())
}

// How a mount of a device ends that is cut at the call after this number, and whether what its logs say stands once it is begun again.
fn cut(alloc: Global, choice: Choice, calls: u64) -> Result<(Option<MountFault>, bool), Fail> {
    let mut fuse = Fuse::new(with_words(alloc, &OPEN)?, calls);
    let fault = first_mount(alloc, &mut fuse)?;
    if fault.is_some() != (fuse.counts().cuts == 1) {
        return Err(Fail::from("the cut"));
    }
    let mut mounted = start_fused(alloc, &mut fuse, choice)?;
    Ok((fault, is_replayed(&mut mounted, &mut fuse)))
}

#[test]
fn a_cut_mount_is_begun_again(rt: HostRuntime) -> Result<(), Fail> {
    for choice in [Choice::Firsts, Choice::Lasts] {
        let mut done = false;
        for calls in 0..9_040_u64 {
            let (fault, replayed) = cut(rt.alloc(), choice, calls)?;
            done = fault.is_none();
            assert!(rt; done || fault == Some(MountFault::PowerLost));
            assert!(rt; replayed, "after {calls}");
            if done {
                break;
            }
        }
        assert!(rt; done);
    }
    Ok(())
}

// The same where the call of this number fails.
fn failed(alloc: Global, choice: Choice, number: u64) -> Result<(Option<MountFault>, bool), Fail> {
    let mut fails = Words::new(alloc);
    fails.push(number)?;
    let mut device = Faulty::new(with_words(alloc, &OPEN)?, fails);
    let fault = first_mount(alloc, &mut device)?;
    let mut mounted = start_faulty(alloc, &mut device, choice)?;
    Ok((fault, is_replayed(&mut mounted, &mut device)))
}

#[test]
fn a_mount_that_failed_is_begun_again(rt: HostRuntime) -> Result<(), Fail> {
    for choice in [Choice::Firsts, Choice::Lasts] {
        let mut done = false;
        for number in 1..9_041_u64 {
            let (fault, replayed) = failed(rt.alloc(), choice, number)?;
            done = fault.is_none();
            assert!(rt; done || fault == Some(MountFault::Device));
            assert!(rt; replayed, "at {number}");
            if done {
                break;
            }
        }
        assert!(rt; done);
    }
    Ok(())
}
