// An image as the lines of a device.
ghost use Rattle.std.specs.Prelude.{◌≡◌, length, IsTrue, OnOk};
ghost use Rattle.line_device.specs.Panel.{IsUnit, SetsUp, with_unit};
ghost use Rattle.line_device.specs.Device.{setup_outcome};
ghost use Rattle.image_file.specs.Text.{FitImage};
ghost use Rattle.image_file.specs.Devices.{medium_of};

use crate::Image;
use line_device::{LineDevice, ResetFault};
use nvm_base::LineNo;

/// Makes a device one of an image's unit that has just its lines, durably. After a refusal nothing is known of its lines.
pub fn install<D: LineDevice>(device: &mut D, image: &Image) -> Result<(), ResetFault>
    requires unit { IsUnit image.now.unit }
    requires lines { FitImage (length image.now.lines.items) }
    ensures lines { OnOk result ((D.state device.new).medium ≡ medium_of image.now.lines.items) }
    ensures on { OnOk result (IsTrue (D.state device.new).panel.power) }
    ensures stays_on { IsTrue (D.state device.old).panel.power → IsTrue (D.state device.new).panel.power }
    ensures unit { OnOk result ((D.state device.new).panel.unit ≡ image.now.unit) }
    ensures sets_up { SetsUp (setup_outcome result) (with_unit (D.state device.old).panel (D.state device.new).panel.unit) (D.state device.new).panel }
{
    device.reset(image.lines.len(), image.unit)?;
    for (n, line) in image.lines.as_slice().iter().enumerate() {
        device.install(LineNo(n as u64), line)?;
    }
    Ok(())
}
