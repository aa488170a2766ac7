// Plain devices of two sizes, and what happens to their lines.
ghost use Rattle.std.specs.Prelude.{◌≡◌, ◌≤◌, false, IsTrue};
ghost use Rattle.line_device.specs.Medium.{WritesBack};
ghost use Rattle.nvm_model.specs.Lines.{AreStrong};
ghost use Rattle.word_tables.specs.Bounds.{IsValid};
ghost use Rattle.word_tables.specs.Layout.{meta_lines, total_lines};

use line_device::{LineDevice, Lines, Plain, ResetFault};
use nvm_base::LineNo;
use std::alloc::{AllocError, Global};
use word_tables::Geometry;

pub(crate) const SMALL: Geometry = Geometry {
    blocks: 8,
    vpages: 4,
    fpages: 32,
};

pub(crate) const LARGE: Geometry = Geometry {
    blocks: 4096,
    vpages: 256,
    fpages: 1024,
};

// The lines of the small device and of the large one.
pub(crate) const SMALL_LINES: u64 = 5184;

pub(crate) const LARGE_LINES: u64 = 118016;

// A device of this number of lines of zeros.
pub(crate) fn fresh(alloc: Global, lines: u64) -> Result<Plain, ResetFault>
    requires some { 1 ≤ lines }
    requires few { lines ≤ 118016 }
{
    let mut device = Plain::new(alloc);
    device.reset(lines, 8)?;
    Ok(device)
}

pub(crate) fn switch_off<D: LineDevice>(dev: &mut D)
    ensures lines { WritesBack (D.state dev.old).medium (D.state dev.new).medium }
    ensures off { (D.state dev.new).panel.power ≡ false }
{
    if dev.power() {
        dev.power_off();
    }
}

// The device has these sizes and its power, and no line of metadata is weak.
pub(crate) fn is_ready<L: Lines>(dev: &L, geo: Geometry) -> bool
    requires { IsValid geo }
    ensures lines { IsTrue result → (L.state dev.now).medium.count ≡ total_lines geo }
    ensures strong { IsTrue result → AreStrong (L.state dev.now).medium (meta_lines geo) }
    ensures on { IsTrue result → IsTrue (L.state dev.now).panel.power }
{
    if dev.lines() != geo.total_lines() || !dev.power() {
        return false;
    }
    for n in 0..geo.meta_lines() {
        if dev.is_weak(LineNo(n)) {
            return false;
        }
    }
    true
}

// A media error takes a line, if there is one.
pub(crate) fn spoil<L: Lines>(dev: &mut L, line: u64) {
    if line < dev.lines() {
        dev.poison(LineNo(line));
    }
}

// The same of a line that gets weak.
pub(crate) fn weaken<L: Lines>(dev: &mut L, line: u64) -> Result<(), AllocError> {
    if line < dev.lines() {
        dev.weaken(LineNo(line))?;
    }
    Ok(())
}
