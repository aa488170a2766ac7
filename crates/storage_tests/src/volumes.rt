// Stories of a volume of four pages on a plain device, told by what a caller sees.
ghost use Rattle.std.specs.Prelude.{IfOk, IsTrue};
ghost use Rattle.pm_volume.specs.Object.{VolumeServes};

use crate::devices::{SMALL, is_ready, switch_off};
use line_device::{Choice, LineDevice, Lines};
use nvm_base::Span;
use pm_volume::{MountFault, Volume, VolumeFault};
use std::alloc::Global;

mod cuts;
mod logs;
mod stories;

// Takes a device through a cut, and mounts its volume.
fn open<D: LineDevice>(alloc: Global, dev: &mut D, choice: Choice) -> Result<Volume, MountFault>
    ensures { IfOk result (λ volume. IsTrue volume.settled → VolumeServes volume (D.state dev.new).medium) }
{
    switch_off(dev);
    dev.restart(choice)?;
    if !is_ready(dev, SMALL) {
        return Err(MountFault::Device);
    }
    Volume::mount(alloc, dev, SMALL)
}

// What is done with the volume, by places and lengths; bytes are so many of one value.
#[derive(Clone, Copy)]
enum Act {
    Store(u64, usize, u8),
    Byte(u64),
    Exists(u64),
    Discard(u64, u64),
    Sync(u64, u64),
    PhysicalSync(u64, u64),
}

// What it gives: the byte that is read, 1 for a page that is there, and else 0.
type Told = Result<u64, VolumeFault>;

fn store<L: Lines>(volume: &mut Volume, dev: &mut L, offset: u64, bytes: &[u8]) -> Told
    requires { IsTrue volume.old.settled → VolumeServes volume.old (L.state dev.old).medium }
    ensures { IsTrue volume.new.settled → VolumeServes volume.new (L.state dev.new).medium }
{
    if !volume.settled() || !dev.power() {
        return Err(VolumeFault::Device);
    }
    volume.store(dev, offset, bytes)?;
    Ok(0)
}

fn discard<L: Lines>(volume: &mut Volume, dev: &mut L, pages: Span) -> Told
    requires { IsTrue volume.old.settled → VolumeServes volume.old (L.state dev.old).medium }
    ensures { IsTrue volume.new.settled → VolumeServes volume.new (L.state dev.new).medium }
{
    if !volume.settled() || !dev.power() {
        return Err(VolumeFault::Device);
    }
    volume.discard_now(dev, pages)?;
    Ok(0)
}

fn sync<L: Lines>(volume: &mut Volume, dev: &mut L, span: Span) -> Told
    requires { IsTrue volume.old.settled → VolumeServes volume.old (L.state dev.old).medium }
    ensures { IsTrue volume.new.settled → VolumeServes volume.new (L.state dev.new).medium }
{
    if !volume.settled() || !dev.power() {
        return Err(VolumeFault::Device);
    }
    volume.sync(dev, span)?;
    Ok(0)
}

fn physical_sync<L: Lines>(volume: &mut Volume, dev: &mut L, span: Span) -> Told
    requires { IsTrue volume.old.settled → VolumeServes volume.old (L.state dev.old).medium }
    ensures { IsTrue volume.new.settled → VolumeServes volume.new (L.state dev.new).medium }
{
    if !volume.settled() || !dev.power() {
        return Err(VolumeFault::Device);
    }
    volume.physical_sync(dev, span)?;
    Ok(0)
}

// The byte at an offset.
fn byte_at<L: Lines>(volume: &mut Volume, dev: &mut L, offset: u64) -> Told
    requires { IsTrue volume.old.settled → VolumeServes volume.old (L.state dev.old).medium }
    ensures { IsTrue volume.new.settled → VolumeServes volume.new (L.state dev.new).medium }
{
    if !volume.settled() || !dev.power() {
        return Err(VolumeFault::Device);
    }
    let mut out = [0xee; 1];
    volume.load_into(dev, offset, &mut out)?;
    Ok(out[0] as u64)
}

// Bytes of one value; no act here has more.
fn many(bytes: &[u8; 4098], len: usize) -> Result<&[u8], VolumeFault> {
    bytes.get(..len).ok_or(VolumeFault::Device)
}

fn perform<L: Lines>(volume: &mut Volume, dev: &mut L, act: Act) -> Told
    requires { IsTrue volume.old.settled → VolumeServes volume.old (L.state dev.old).medium }
    ensures { IsTrue volume.new.settled → VolumeServes volume.new (L.state dev.new).medium }
{
    match act {
        Act::Store(start, len, byte) => store(volume, dev, start, many(&[byte; 4098], len)?),
        Act::Byte(offset) => byte_at(volume, dev, offset),
        Act::Exists(page) => Ok(u64::from(volume.exists(page)?)),
        Act::Discard(start, len) => discard(volume, dev, Span { start, len }),
        Act::Sync(start, len) => sync(volume, dev, Span { start, len }),
        Act::PhysicalSync(start, len) => physical_sync(volume, dev, Span { start, len }),
    }
}
