// The lines of a device as an image.
ghost use Rattle.std.specs.Prelude.{◌≡◌, ◌<◌, IfOk};
ghost use Rattle.line_device.specs.Medium.{Shows, WritesBack};
ghost use Rattle.line_device.specs.Panel.{KeepsPower, SetsUp};
ghost use Rattle.image_file.specs.Devices.{IsLastImage, extract_outcome};

use crate::{ExtractFault, Image};
use line_device::{DeviceFault, LineDevice, LineList, LineState};
use nvm_base::LineNo;
use std::alloc::Global;

/// Reads all lines of a device out as they were last stored, bad or not, as an image of the given unit.
pub fn extract<D: LineDevice>(
    alloc: Global,
    device: &mut D,
    unit: u64,
) -> Result<Image, ExtractFault>
    ensures unit { IfOk result (λ image. image.unit ≡ unit) }
    ensures image { IfOk result (λ image. IsLastImage (D.state device.old).medium image.lines.items) }
    ensures lines { WritesBack (D.state device.old).medium (D.state device.new).medium }
    ensures power { KeepsPower (extract_outcome result) (D.state device.old).panel (D.state device.new).panel }
    ensures sets_up { SetsUp (extract_outcome result) (D.state device.old).panel (D.state device.new).panel }
{
    let count = device.lines();
    let mut lines = LineList::new(alloc);
    lines.reserve(count)?;
    for n in 0..count {
        let line = extract_line(device, n)?;
        lines.push(line)?;
    }
    Ok(Image { unit, lines })
}

fn extract_line<D: LineDevice>(device: &mut D, n: u64) -> Result<LineState, ExtractFault>
    requires { n < (D.state device.old).medium.count }
    ensures told { IfOk result (λ line. Shows (D.state device.old).medium n line) }
    ensures lines { WritesBack (D.state device.old).medium (D.state device.new).medium }
    ensures power { KeepsPower (extract_outcome result) (D.state device.old).panel (D.state device.new).panel }
    ensures sets_up { SetsUp (extract_outcome result) (D.state device.old).panel (D.state device.new).panel }
{
    match device.extract(LineNo(n)) {
        Ok(line) => Ok(line),
        Err(DeviceFault::Poisoned(_)) => unreachable!(),
        Err(DeviceFault::Failed) => Err(ExtractFault::Failed),
        Err(DeviceFault::PowerLost) => Err(ExtractFault::PowerLost),
    }
}
