// Opening an image: the device becomes the one that it tells of, and is mounted.
ghost use Rattle.std.specs.Prelude.{◌≡◌, IfErr, IfOk, ⊤};
ghost use Rattle.std.specs.List.{AllByRecursion};
ghost use Rattle.host_io.specs.Images.{KeepsHeld};
ghost use Rattle.image_file.specs.Text.{IsOfBytes, IsSnapshot, snapshot_of};
ghost use Rattle.line_device.specs.Panel.{Panel};
ghost use Rattle.machine_host.specs.Costs.{Opens};
ghost use Rattle.program_base.specs.Opening.{CountsOpening, IsHeld, IsReady, Mounts, StaysClosed, StaysUnmounted};

use crate::ending::Ending;
use host_io::Images;
use image_file::{Image, Units};
use line_device::LineDevice;
use machine_host::Host;
use std::alloc::Global;

/// The bytes of the largest image.
pub const MOST_BYTES: u64 = 7_671_064;

/// Makes the device that of the image under this name, if its unit is one of these, and mounts it.
pub fn open<D: LineDevice, F: Images>(
    alloc: Global,
    name: &str,
    units: Units,
    device: &mut D,
    images: &mut F,
) -> Result<Host, Ending>
    ensures ready { IfOk result (λ host. IsReady units name.now (F.held images.old) host (D.state device.old) (D.state device.new)) }
    ensures cause { IfErr result (λ ending. StaysClosed units name.now (F.held images.old) ending (F.count images.old) (F.count images.new)
        (D.state device.old).panel (D.state device.new).panel) }
    ensures opens { Opens (D.state device.old).panel (D.state device.new).panel }
    ensures held { KeepsHeld (λ _. ⊤) (F.held images.old) (F.held images.new) }
    ensures counts { CountsOpening (F.count images.old) (F.count images.new) }
{
    let image = fetch(alloc, name, units, images)?;
    start(alloc, device, &image)
}

/// Makes the device that of the image, and mounts it.
pub fn start<D: LineDevice>(alloc: Global, device: &mut D, image: &Image) -> Result<Host, Ending>
    requires { IsSnapshot (snapshot_of image.now) }
    ensures mounts { IfOk result (λ host. Mounts (snapshot_of image.now) host (D.state device.old) (D.state device.new)) }
    ensures cause { IfErr result (λ ending. StaysUnmounted (snapshot_of image.now) ending (D.state device.old).panel (D.state device.new).panel) }
    ensures opens { Opens (D.state device.old).panel (D.state device.new).panel }
{
    image_file::install(device, image)?;
    Ok(Host::mount(alloc, device, image.unit)?)
}

/// The image under this name, if its unit is one of these. Its bytes are let go once they are read.
pub fn fetch<F: Images>(
    alloc: Global,
    name: &str,
    units: Units,
    images: &mut F,
) -> Result<Image, Ending>
    ensures there { IfOk result (λ image. IsHeld units name.now (F.held images.old) (snapshot_of image)) }
    ensures bytes { IfOk result (λ image. AllByRecursion IsOfBytes image.lines.items) }
    ensures cause { (p : Panel) → IfErr result (λ ending. StaysClosed units name.now (F.held images.old) ending (F.count images.old) (F.count images.new) p p) }
    ensures held { KeepsHeld (λ _. ⊤) (F.held images.old) (F.held images.new) }
    ensures counts { CountsOpening (F.count images.old) (F.count images.new) }
{
    let bytes = images.fetch(name, MOST_BYTES)?;
    Ok(image_file::read(alloc, bytes.as_slice(), units)?)
}
