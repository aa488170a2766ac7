// The marks of the lines of metadata. None of this makes a counted call.
ghost use Rattle.std.specs.Prelude.{◌≡◌};
ghost use Rattle.line_device.specs.Panel.Outcome.{went};
ghost use Rattle.word_tables.specs.Bounds.{IsValid};
ghost use Rattle.word_tables.specs.Layout.{total_lines};
ghost use Rattle.recovery.specs.Findings.{meta_finding};
ghost use Rattle.recovery.specs.Mounting.{Finds, mount_outcome};

use crate::MountFault;
use line_device::Lines;
use line_words::{first_bad, first_weak};
use nvm_base::LineNo;
use word_tables::Geometry;

/// Whether no line of metadata is bad or weak.
pub fn check_metadata<L: Lines>(dev: &L, geo: Geometry) -> Result<(), MountFault>
    requires valid { IsValid geo }
    requires lines { (L.state dev.now).medium.count ≡ total_lines geo }
    ensures finds { Finds (meta_finding geo (L.state dev.now).medium) result }
    ensures went { mount_outcome result ≡ went }
{
    let lines = geo.meta_lines();
    if let Some(line) = first_bad(dev, 0, lines) {
        return Err(MountFault::Meta(LineNo(line)));
    }
    if let Some(line) = first_weak(dev, 0, lines) {
        return Err(MountFault::Layout(8 * line));
    }
    Ok(())
}
