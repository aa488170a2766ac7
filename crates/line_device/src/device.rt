// The calls that set a device up and take it through power cuts.
ghost use Rattle.std.specs.Prelude.{◌≡◌, ◌<◌, ◌≤◌, ℕ, true, false, IsTrue, IsErr, IfOk, OnOk, MatchResult};
ghost use Rattle.line_device.specs.Medium.{WritesBack, Shows, installed, zeros};
ghost use Rattle.line_device.specs.Panel.{Start, SetsUp, KeepsPower, outcome, with_unit, after_arm_cut, after_arm_fail, after_evict, after_disarm, after_power_off, IsUnit};
ghost use Rattle.line_device.specs.Device.{Restarted, Waited, setup_outcome};
ghost use Rattle.line_device.specs.declared.fault.DeviceFault.TheVariants.{Poisoned};

use crate::{Choice, DeviceFault, LineState, Lines, ResetFault};
use nvm_base::LineNo;
use std::alloc::AllocError;

pub trait LineDevice: Lines {
    /// Makes the device one of a number of lines of zeros, with the power on. After a refusal nothing is known of its lines.
    /// `unit` is how many bytes of a word a cut keeps or loses together: 8 or 1.
    fn reset(&mut self, lines: u64, unit: u64) -> Result<(), ResetFault>
        requires some { 1 ≤ lines }
        requires few { lines ≤ 118016 }
        requires known { IsUnit unit }
        ensures lines { OnOk result (WritesBack (zeros lines) (Self.state self.new).medium) }
        ensures on { OnOk result (IsTrue (Self.state self.new).panel.power) }
        ensures stays_on { IsTrue (Self.state self.old).panel.power → IsTrue (Self.state self.new).panel.power }
        ensures unit { OnOk result ((Self.state self.new).panel.unit ≡ unit) }
        ensures sets_up { SetsUp (setup_outcome result) (with_unit (Self.state self.old).panel (Self.state self.new).panel.unit) (Self.state self.new).panel };

    /// Makes a line the given line, durably. After a refusal nothing is known of the lines.
    fn install(&mut self, line: LineNo, told: &LineState) -> Result<(), ResetFault>
        requires { line.0 < (Self.state self.old).medium.count }
        ensures lines { OnOk result (WritesBack (installed (Self.state self.old).medium line.0 told.now) (Self.state self.new).medium) }
        ensures power { (Self.state self.new).panel.power ≡ (Self.state self.old).panel.power }
        ensures sets_up { SetsUp (setup_outcome result) (Self.state self.old).panel (Self.state self.new).panel };

    /// Reads a line out as last stored, bad or not.
    fn extract(&mut self, line: LineNo) -> Result<LineState, DeviceFault>
        requires { line.0 < (Self.state self.old).medium.count }
        ensures told { IfOk result (λ told. Shows (Self.state self.old).medium line.0 told) }
        ensures never_poisoned { (n : _) → result ≡ Err (Poisoned n) → ⊥ }
        ensures lines { WritesBack (Self.state self.old).medium (Self.state self.new).medium }
        ensures power { KeepsPower (outcome result) (Self.state self.old).panel (Self.state self.new).panel }
        ensures sets_up { SetsUp (outcome result) (Self.state self.old).panel (Self.state self.new).panel };

    /// Asks for the write-back of a number of lines.
    fn evict(&mut self, lines: u64)
        ensures lines { WritesBack (Self.state self.old).medium (Self.state self.new).medium }
        ensures panel { (Self.state self.new).panel ≡ after_evict (Self.state self.old).panel lines };

    /// Cuts the power. What each word keeps shows at the restart.
    fn power_off(&mut self)
        requires { IsTrue (Self.state self.old).panel.power }
        ensures lines { WritesBack (Self.state self.old).medium (Self.state self.new).medium }
        ensures panel { (Self.state self.new).panel ≡ after_power_off (Self.state self.old).panel };

    /// Brings the power back. Each word keeps one of its values.
    fn restart(&mut self, choice: Choice) -> Result<(), AllocError>
        requires { (Self.state self.old).panel.power ≡ false }
        ensures { MatchResult result
            (λ _. (start : Start) × Restarted choice (Self.state self.old) (Self.state self.new) start)
            (λ _. Waited (Self.state self.old) (Self.state self.new)) };

    /// The counted call of that number from now on takes the power in place of being done. A cut that is armed already
    /// is replaced.
    fn arm_cut(&mut self, calls: u64)
        requires { 1 ≤ calls }
        ensures lines { WritesBack (Self.state self.old).medium (Self.state self.new).medium }
        ensures panel { (Self.state self.new).panel ≡ after_arm_cut (Self.state self.old).panel calls };

    /// The counted call of that number from now on fails in place of being done. Where a cut falls on the same call, the
    /// cut comes first.
    fn arm_fail(&mut self, calls: u64)
        requires { 1 ≤ calls }
        ensures lines { WritesBack (Self.state self.old).medium (Self.state self.new).medium }
        ensures panel { (Self.state self.new).panel ≡ after_arm_fail (Self.state self.old).panel calls };

    /// Ends what is armed.
    fn disarm(&mut self)
        ensures lines { WritesBack (Self.state self.old).medium (Self.state self.new).medium }
        ensures panel { (Self.state self.new).panel ≡ after_disarm (Self.state self.old).panel };

    fn cut_armed(&self) -> bool
        ensures { result ≡ (Self.state self.now).panel.cut_armed };

    fn fail_armed(&self) -> bool
        ensures { result ≡ (Self.state self.now).panel.fail_armed };
}

/// A device of memory, which a test can look at.
pub trait Peek: LineDevice {
    /// The line as last stored, without a device call.
    fn peek(&self, line: LineNo) -> LineState
        requires { line.0 < (Self.state self.now).medium.count }
        ensures { Shows (Self.state self.now).medium line.0 result };

    /// How many bytes of a word a cut keeps or loses together.
    fn unit(&self) -> u64
        ensures { result ≡ (Self.state self.now).panel.unit };
}
