// Answers of the device behind, told of the line that is shown.
ghost use Rattle.std.specs.Prelude.{◌≡◌, ◌<◌, ℕ, Bool, IsTrue, IfOk};
ghost use Rattle.std.specs.Borrow.{sem};
ghost use Rattle.std.specs.Io.BufRead.{Rests};
ghost use Rattle.line_device.specs.Medium.{WritesBack, IsLine};
ghost use Rattle.line_device.specs.Panel.{Runs, outcome, fault_outcome};
ghost use Rattle.line_device.specs.Device.{IsPoison, Poisons};

use line_device::{DeviceFault, Lines};
use nvm_base::LineNo;

/// Copy of the fault, named by this line.
pub(crate) fn fault_at(fault: DeviceFault, line: LineNo) -> DeviceFault
    ensures outcome { fault_outcome result ≡ fault_outcome fault }
    ensures poison { (behind : ℕ) (bad : Bool) → IsPoison behind bad fault → IsPoison line.0 bad result }
{
    match fault {
        DeviceFault::Poisoned(_) => DeviceFault::Poisoned(line),
        DeviceFault::Failed => DeviceFault::Failed,
        DeviceFault::PowerLost => DeviceFault::PowerLost,
    }
}

/// A load of the line below, whose fault names the line that is shown.
pub(crate) fn load_as<L: Lines>(
    dev: &mut L,
    behind: LineNo,
    line: LineNo,
) -> Result<&[u8], DeviceFault>
    requires within { behind.0 < (L.state dev.old).medium.count }
    requires on { IsTrue (L.state dev.old).panel.power }
    ensures bytes { IfOk result (λ bytes. IsLine (L.state dev.old).medium behind.0 bytes.now) }
    ensures poison { Poisons line.0 ((L.state dev.old).medium.is_bad behind.0) result }
    ensures* after { sem 𝓛 (Rests L.row dev.entry (λ new.
        WritesBack (L.state dev.old).medium (L.state new).medium
        × Runs 1 0 (outcome result) (L.state dev.old).panel (L.state new).panel
        × L.load_leaves dev.old new)) }
{
    match dev.load(behind) {
        Ok(bytes) => Ok(bytes),
        Err(fault) => Err(fault_at(fault, line)),
    }
}
