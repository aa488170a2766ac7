// Plain devices with a superblock, and what they are once they are mounted.
ghost use Rattle.std.specs.Prelude.{◌≡◌, ◌/◌, ◌≤◌, ℕ, [], false, IfOk, IsTrue};
ghost use Rattle.line_device.specs.Medium.{WritesBack};
ghost use Rattle.line_device.specs.Plain.{device_of};
ghost use Rattle.line_words.specs.Words.{IsGoodLine};
ghost use Rattle.block_device.specs.Object.{BlocksServe};
ghost use Rattle.file_pages.specs.Object.{PagesServe};
ghost use Rattle.pm_volume.specs.Object.{VolumeServes};

use line_device::{Choice, LineDevice, Lines, Plain};
use line_words::{persist_line, store_word};
use nvm_base::LineNo;
use recovery::{MountFault, Mounted, mount};
use std::alloc::Global;
use std::test::Fail;
use word_tables::Geometry;

pub(crate) const SMALL: Geometry = Geometry {
    blocks: 8,
    vpages: 4,
    fpages: 32,
};

// The lines of the small device.
pub(crate) const LINES: u64 = 5184;

// The line exists and can be used, and the power is on.
fn is_good<L: Lines>(dev: &L, line: u64) -> bool
    ensures good_line { IsTrue result → IsGoodLine (L.state dev.now).medium line }
    ensures on { IsTrue result → IsTrue (L.state dev.now).panel.power }
{
    line < dev.lines() && dev.power() && !dev.is_bad(LineNo(line)) && !dev.is_weak(LineNo(line))
}

// Gives words their values, durably.
pub(crate) fn write<L: Lines>(dev: &mut L, words: &[(u64, u64)]) -> bool {
    for &(place, value) in words {
        let line = place / 8;
        if !is_good(dev, line) || store_word(dev, place, value).is_err() {
            return false;
        }
        if !is_good(dev, line) || persist_line(dev, line).is_err() {
            return false;
        }
    }
    true
}

// A device of this number of lines with the superblock of the small one, and else of zeros.
pub(crate) fn fresh(alloc: Global, lines: u64) -> Result<Plain, Fail>
    requires some { 1 ≤ lines }
    requires few { lines ≤ 118016 }
{
    let mut device = Plain::new(alloc);
    device.reset(lines, 8)?;
    if !SMALL.valid() {
        return Err(Fail::from("sizes"));
    }
    let words = SMALL.superblock();
    for w in 0..8_usize {
        if !write(&mut device, &[(w as u64, words[w])]) {
            return Err(Fail::from("a word"));
        }
    }
    Ok(device)
}

// The small device with these words.
pub(crate) fn with_words(alloc: Global, words: &[(u64, u64)]) -> Result<Plain, Fail> {
    let mut device = fresh(alloc, LINES)?;
    if !write(&mut device, words) {
        return Err(Fail::from("a word"));
    }
    Ok(device)
}

// A media error takes a line, if there is one.
pub(crate) fn spoil<L: Lines>(dev: &mut L, line: u64) {
    if line < dev.lines() {
        dev.poison(LineNo(line));
    }
}

fn switch_off<D: LineDevice>(dev: &mut D)
    ensures lines { WritesBack (D.state dev.old).medium (D.state dev.new).medium }
    ensures off { (D.state dev.new).panel.power ≡ false }
{
    if dev.power() {
        dev.power_off();
    }
}

// Takes a device that has no words past its end through a cut, and mounts it.
pub(crate) fn open<D: LineDevice>(
    alloc: Global,
    dev: &mut D,
    choice: Choice,
) -> Result<Mounted, MountFault>
    requires end { (p : ℕ) → (D.state dev.old).medium.count ≤ p / 8 → (D.state dev.old).medium.history p ≡ [] }
    ensures blocks { IfOk result (λ mounted. BlocksServe mounted.blocks (D.state dev.new).medium) }
    ensures volume { IfOk result (λ mounted. VolumeServes mounted.volume (D.state dev.new).medium) }
    ensures files { IfOk result (λ mounted. PagesServe mounted.files (D.state dev.new).medium) }
{
    switch_off(dev);
    let Ok(()) = dev.restart(choice) else {
        return Err(MountFault::Memory);
    };
    if dev.lines() == 0 {
        return Err(MountFault::Device);
    }
    mount(alloc, dev)
}

// The same of a plain device.
pub(crate) fn start(alloc: Global, dev: &mut Plain, choice: Choice) -> Result<Mounted, MountFault>
    ensures blocks { IfOk result (λ mounted. BlocksServe mounted.blocks (device_of dev.new).medium) }
    ensures volume { IfOk result (λ mounted. VolumeServes mounted.volume (device_of dev.new).medium) }
    ensures files { IfOk result (λ mounted. PagesServe mounted.files (device_of dev.new).medium) }
{
    open(alloc, dev, choice)
}
