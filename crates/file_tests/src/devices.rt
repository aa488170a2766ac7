// Plain devices of one size, and what happens to their lines.
ghost use Rattle.std.specs.Prelude.{◌≡◌, IsTrue};
ghost use Rattle.nvm_model.specs.Lines.{AreStrong};
ghost use Rattle.word_tables.specs.Layout.{meta_lines, total_lines};

use file_journal::{Journal, MountFault};
use line_device::{Choice, LineDevice, Lines, Plain, ResetFault};
use nvm_base::{LineNo, Name};
use std::alloc::Global;
use word_tables::Geometry;

pub(crate) const SMALL: Geometry = Geometry {
    blocks: 8,
    vpages: 2,
    fpages: 32,
};

const LINES: u64 = 5056;

// A device of zeros.
pub(crate) fn fresh(alloc: Global) -> Result<Plain, ResetFault> {
    let mut device = Plain::new(alloc);
    device.reset(LINES, 8)?;
    Ok(device)
}

// The device has these sizes and its power, and no line of metadata is weak.
pub(crate) fn is_ready<L: Lines>(dev: &L) -> bool
    ensures lines { IsTrue result → (L.state dev.now).medium.count ≡ total_lines SMALL }
    ensures strong { IsTrue result → AreStrong (L.state dev.now).medium (meta_lines SMALL) }
    ensures on { IsTrue result → IsTrue (L.state dev.now).panel.power }
{
    if dev.lines() != SMALL.total_lines() || !dev.power() {
        return false;
    }
    for n in 0..SMALL.meta_lines() {
        if dev.is_weak(LineNo(n)) {
            return false;
        }
    }
    true
}

// Takes a device through a cut. Whether it is ready then.
pub(crate) fn is_restarted<D: LineDevice>(dev: &mut D, choice: Choice) -> bool
    ensures lines { IsTrue result → (D.state dev.new).medium.count ≡ total_lines SMALL }
    ensures strong { IsTrue result → AreStrong (D.state dev.new).medium (meta_lines SMALL) }
    ensures on { IsTrue result → IsTrue (D.state dev.new).panel.power }
{
    if dev.power() {
        dev.power_off();
    }
    dev.restart(choice).is_ok() && is_ready(dev)
}

// A media error takes a line, if there is one.
pub(crate) fn spoil<L: Lines>(dev: &mut L, line: u64) {
    if line < dev.lines() {
        dev.poison(LineNo(line));
    }
}

// Makes a file of this number of pages, all of them holes.
pub(crate) fn make<L: Lines>(
    alloc: Global,
    dev: &mut L,
    file: &[u8],
    pages: u64,
) -> Result<(), MountFault> {
    let Some(name) = Name::read(file) else {
        return Err(MountFault::Memory);
    };
    if !is_ready(dev) {
        return Err(MountFault::Device);
    }
    let mut journal = Journal::mount(alloc, dev, SMALL)?;
    if !journal.settled() || !dev.power() || journal.create(dev, &name, pages).is_err() {
        return Err(MountFault::Device);
    }
    Ok(())
}
