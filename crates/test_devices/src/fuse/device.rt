ghost use Rattle.std.specs.Prelude.{◌≡◌, ◌<◌, ◌≤◌, false, IsTrue, IfOk, OnOk, MatchResult};
ghost use Rattle.line_device.specs.Medium.{WritesBack, Shows, installed, zeros};
ghost use Rattle.line_device.specs.Panel.{Start, SetsUp, KeepsPower, outcome, with_unit, after_arm_cut, after_arm_fail, after_evict, IsUnit};
ghost use Rattle.line_device.specs.Device.{Restarted, Waited, setup_outcome};
ghost use Rattle.line_device.specs.declared.fault.DeviceFault.TheVariants.{Poisoned};
ghost use Rattle.test_devices.specs.Fuse.{fused, passes_left};

use super::Fuse;
use line_device::{Choice, DeviceFault, LineDevice, LineState, Peek, ResetFault};
use nvm_base::{LineNo, raise};
use std::alloc::AllocError;

impl<D: LineDevice> LineDevice for Fuse<D> {
    fn reset(&mut self, lines: u64, unit: u64) -> Result<(), ResetFault>
        requires some { 1 ≤ lines }
        requires few { lines ≤ 118016 }
        requires known { IsUnit unit }
        ensures lines { OnOk result (WritesBack (zeros lines) (fused D.state self.new).medium) }
        ensures on { OnOk result (IsTrue (fused D.state self.new).panel.power) }
        ensures stays_on { IsTrue (fused D.state self.old).panel.power → IsTrue (fused D.state self.new).panel.power }
        ensures unit { OnOk result ((fused D.state self.new).panel.unit ≡ unit) }
        ensures sets_up { SetsUp (setup_outcome result) (with_unit (fused D.state self.old).panel (fused D.state self.new).panel.unit) (fused D.state self.new).panel }
        ensures left { passes_left self.new ≡ passes_left self.old }
    {
        self.inner.reset(lines, unit)
    }

    fn install(&mut self, line: LineNo, told: &LineState) -> Result<(), ResetFault>
        requires { line.0 < (fused D.state self.old).medium.count }
        ensures lines { OnOk result (WritesBack (installed (fused D.state self.old).medium line.0 told.now) (fused D.state self.new).medium) }
        ensures power { (fused D.state self.new).panel.power ≡ (fused D.state self.old).panel.power }
        ensures sets_up { SetsUp (setup_outcome result) (fused D.state self.old).panel (fused D.state self.new).panel }
        ensures left { passes_left self.new ≡ passes_left self.old }
    {
        self.inner.install(line, told)
    }

    fn extract(&mut self, line: LineNo) -> Result<LineState, DeviceFault>
        requires { line.0 < (fused D.state self.old).medium.count }
        ensures told { IfOk result (λ told. Shows (fused D.state self.old).medium line.0 told) }
        ensures never_poisoned { (n : _) → result ≡ Err (Poisoned n) → ⊥ }
        ensures lines { WritesBack (fused D.state self.old).medium (fused D.state self.new).medium }
        ensures power { KeepsPower (outcome result) (fused D.state self.old).panel (fused D.state self.new).panel }
        ensures sets_up { SetsUp (outcome result) (fused D.state self.old).panel (fused D.state self.new).panel }
        ensures left { passes_left self.new ≡ passes_left self.old }
    {
        self.inner.extract(line)
    }

    fn evict(&mut self, lines: u64)
        ensures lines { WritesBack (fused D.state self.old).medium (fused D.state self.new).medium }
        ensures panel { (fused D.state self.new).panel ≡ after_evict (fused D.state self.old).panel lines }
        ensures left { passes_left self.new ≡ passes_left self.old }
    {
        self.inner.evict(lines);
    }

    fn power_off(&mut self) {
        self.left = None;
        raise(&mut self.offs);
        self.inner.power_off();
    }

    fn restart(&mut self, choice: Choice) -> Result<(), AllocError>
        requires { (fused D.state self.old).panel.power ≡ false }
        ensures restarted { MatchResult result
            (λ _. (start : Start) × Restarted choice (fused D.state self.old) (fused D.state self.new) start)
            (λ _. Waited (fused D.state self.old) (fused D.state self.new)) }
        ensures left { passes_left self.new ≡ passes_left self.old }
    {
        self.inner.restart(choice)
    }

    fn arm_cut(&mut self, calls: u64)
        requires { 1 ≤ calls }
        ensures lines { WritesBack (fused D.state self.old).medium (fused D.state self.new).medium }
        ensures panel { (fused D.state self.new).panel ≡ after_arm_cut (fused D.state self.old).panel calls }
        ensures left { passes_left self.new ≡ passes_left self.old }
    {
        self.inner.arm_cut(calls);
    }

    fn arm_fail(&mut self, calls: u64)
        requires { 1 ≤ calls }
        ensures lines { WritesBack (fused D.state self.old).medium (fused D.state self.new).medium }
        ensures panel { (fused D.state self.new).panel ≡ after_arm_fail (fused D.state self.old).panel calls }
        ensures left { passes_left self.new ≡ passes_left self.old }
    {
        self.inner.arm_fail(calls);
    }

    fn disarm(&mut self) {
        self.left = None;
        self.inner.disarm();
    }

    fn cut_armed(&self) -> bool {
        self.left.is_some() || self.inner.cut_armed()
    }

    fn fail_armed(&self) -> bool {
        self.inner.fail_armed()
    }
}

impl<D: Peek> Peek for Fuse<D> {
    fn peek(&self, line: LineNo) -> LineState {
        self.inner.peek(line)
    }

    fn unit(&self) -> u64 {
        self.inner.unit()
    }
}
