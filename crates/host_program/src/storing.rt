// Storing an image in place of the one that is held under a name.
ghost use Rattle.std.specs.Prelude.{◌≡◌, IfOk};
ghost use Rattle.line_device.specs.Panel.{IsUnit};
ghost use Rattle.image_file.specs.Text.{FitImage, fresh_snapshot, image_text};
ghost use Rattle.word_tables.specs.Bounds.{IsValid};
ghost use Rattle.host_program.specs.Storing.{ReadsOut, Stores};

use host_io::Images;
use line_device::{BYTE_UNIT, LineDevice};
use nvm_base::Bytes;
use program_base::Ending;
use std::alloc::{AllocError, Global};
use word_tables::Geometry;

/// Holds the device's lines under this name, as they were last stored, as an image of the given unit.
pub fn store<D: LineDevice, F: Images>(
    alloc: Global,
    name: &str,
    unit: u64,
    device: &mut D,
    images: &mut F,
) -> Result<(), Ending>
    requires known { IsUnit unit }
    requires fit { FitImage (D.state device.old).medium.count }
    ensures { Stores unit name.now result (F.held images.old) (F.held images.new) (F.count images.old) (F.count images.new)
        (D.state device.old) (D.state device.new) }
{
    let text = text_of(alloc, unit, device)?;
    Ok(images.replace(name, text.as_slice())?)
}

// The list of lines is let go once it is written.
fn text_of<D: LineDevice>(alloc: Global, unit: u64, device: &mut D) -> Result<Bytes, Ending>
    requires known { IsUnit unit }
    requires fit { FitImage (D.state device.old).medium.count }
    ensures { ReadsOut unit result (D.state device.old) (D.state device.new) }
{
    let image = image_file::extract(alloc, device, unit)?;
    Ok(image_file::write(alloc, &image)?)
}

/// The bytes of a fresh image of this unit.
pub fn fresh_text(alloc: Global, unit: u64, geometry: Geometry) -> Result<Bytes, AllocError>
    requires known { IsUnit unit }
    requires valid { IsValid geometry }
    ensures { IfOk result (λ text. text.items ≡ image_text (fresh_snapshot unit geometry)) }
{
    let image = if unit == BYTE_UNIT {
        image_file::fresh_byte(alloc, geometry)?
    } else {
        image_file::fresh(alloc, geometry)?
    };
    image_file::write(alloc, &image)
}
