ghost use Rattle.std.specs.Prelude.{◌≡◌, false, ℕ};
ghost use Rattle.line_device.specs.Panel.{fault_outcome};
ghost use Rattle.line_device.specs.Device.{IsPoison};
ghost use Rattle.line_words.specs.Ending.{stop_outcome};

use line_device::DeviceFault;

/// What ends a piece of work on lines before its end.
#[derive(Clone, Copy, Debug, PartialEq, Eq)]
pub enum Interruption {
    /// The device failed, and may be used on.
    Failed,
    /// The power went.
    PowerLost,
}

/// What interrupted a call on this line, which is not bad.
pub fn stop_of(fault: DeviceFault, line: u64) -> Interruption
    requires { IsPoison line false fault }
    ensures { stop_outcome result ≡ fault_outcome fault }
{
    match fault {
        DeviceFault::Poisoned(_) => unreachable!(),
        DeviceFault::Failed => Interruption::Failed,
        DeviceFault::PowerLost => Interruption::PowerLost,
    }
}
