// A device made again of the image, on which nothing is armed.
ghost use Rattle.std.specs.Prelude.{ℕ, IfErr, IfOk, OnOk};
ghost use Rattle.outcome_lists.specs.Explorer.Starting.{Begins};
ghost use Rattle.outcome_lists.specs.Explorer.Stopping.{NoneFell};
ghost use Rattle.outcome_lists.specs.MachineHost.Settling.{GoesOn};
ghost use Rattle.outcome_lists.specs.MachineHost.Stands.{Stands};
ghost use Rattle.image_file.specs.Text.{snapshot_of};
ghost use Rattle.program_base.specs.Opening.{opened};
ghost use Rattle.explore_program.specs.Calls.{AreMountable, IsUnanswered};

use crate::laws::images_begin;
use crate::stop::Stop;
use image_file::Image;
use line_device::LineDevice;
use outcome_lists::host::Host;
use program_base::start;
use std::alloc::Global;

/// Makes the device that of the image again, and mounts it: each exploration begins so.
pub fn begin<D: LineDevice>(alloc: Global, image: &Image, device: &mut D) -> Result<Host, Stop>
    requires image { AreMountable (snapshot_of image.now) }
    ensures known { IfOk result (λ host. GoesOn host (D.state device.new)) }
    ensures stands { IfOk result (λ host. Stands host (D.state device.new) (opened (snapshot_of image.now))) }
    ensures begins { OnOk result (Begins (opened (snapshot_of image.now))) }
    ensures cause { (counted counts : ℕ) → IfErr result (λ stop. IsUnanswered stop counted counts (D.state device.old).panel (D.state device.new).panel) }
    ensures counts { OnOk result (NoneFell (D.state device.old).panel (D.state device.new).panel) }
{
    // What the exploration before armed, or a caller, is not armed in this one.
    device.disarm();
    images_begin();
    Ok(start(alloc, device, image)?)
}
