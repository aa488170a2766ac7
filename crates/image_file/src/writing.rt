// An image as bytes.
ghost use Rattle.std.specs.Prelude.{◌≡◌, ◌++◌, OnOk, IfOk, length};
ghost use Rattle.std.specs.List.{AllByRecursion, flat_map};
ghost use Rattle.line_device.specs.Panel.{IsUnit};
ghost use Rattle.image_file.specs.Text.{FitImage, IsImageLine, IsSnapshot, image_text, line_text, number_text, snapshot_of};

use crate::{BAD, HEALTHY, Image, MAGIC, WEAK};
use byteorder::{ByteOrder, LittleEndian};
use line_device::LineState;
use nvm_base::Bytes;
use std::alloc::{AllocError, Global};

/// The image's bytes.
pub fn write(alloc: Global, image: &Image) -> Result<Bytes, AllocError>
    requires unit { IsUnit image.now.unit }
    requires lines { FitImage (length image.now.lines.items) }
    ensures text { IfOk result (λ out. out.items ≡ image_text (snapshot_of image.now)) }
    ensures image { OnOk result (IsSnapshot (snapshot_of image.now)) }
{
    let mut out = Bytes::new(alloc);
    out.reserve(24 + 65 * image.lines.len())?;
    out.extend(MAGIC)?;
    write_number(image.unit, &mut out)?;
    write_number(image.lines.len(), &mut out)?;
    write_lines(image.lines.as_slice(), &mut out)?;
    Ok(out)
}

fn write_number(n: u64, out: &mut Bytes) -> Result<(), AllocError>
    ensures { OnOk result (out.new.items ≡ out.old.items ++ number_text n) }
{
    let mut field = [0; 8];
    LittleEndian::write_u64(&mut field, n);
    out.extend(&field)
}

fn write_lines(lines: &[LineState], out: &mut Bytes) -> Result<(), AllocError>
    ensures text { OnOk result (out.new.items ≡ out.old.items ++ flat_map line_text lines.now) }
    ensures whole { OnOk result (AllByRecursion IsImageLine lines.now) }
{
    for line in lines {
        write_line(line, out)?;
    }
    Ok(())
}

fn write_line(line: &LineState, out: &mut Bytes) -> Result<(), AllocError>
    ensures text { OnOk result (out.new.items ≡ out.old.items ++ line_text line.now) }
    ensures whole { OnOk result (IsImageLine line.now) }
{
    match line {
        LineState::Healthy(bytes) => {
            out.push(HEALTHY)?;
            out.extend(bytes)
        }
        LineState::Weak(bytes) => {
            out.push(WEAK)?;
            out.extend(bytes)
        }
        LineState::Bad => out.push(BAD),
    }
}
