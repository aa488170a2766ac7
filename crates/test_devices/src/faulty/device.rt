ghost use Rattle.std.specs.Prelude.{◌≡◌, ◌<◌, ◌≤◌, false, Err, IsTrue, IfOk, OnOk, MatchResult};
ghost use Rattle.line_device.specs.Medium.{WritesBack, Shows, installed, zeros};
ghost use Rattle.line_device.specs.Panel.{Start, SetsUp, KeepsPower, outcome, with_unit, after_arm_cut, after_arm_fail, after_evict, after_disarm, after_power_off, IsUnit};
ghost use Rattle.line_device.specs.Device.{Restarted, Waited, setup_outcome};
ghost use Rattle.line_device.specs.declared.fault.DeviceFault.TheVariants.{Poisoned, Failed};
ghost use Rattle.line_device.specs.declared.fault.ResetFault.TheVariants as setup;
ghost use Rattle.test_devices.specs.Schedule.{schedule_ended};
ghost use Rattle.test_devices.specs.Faulty.{faulty, schedule, reached, Numbered, setup_failed};

use super::Faulty;
use line_device::{Choice, DeviceFault, LineDevice, LineState, Peek, ResetFault};
use nvm_base::LineNo;
use std::alloc::AllocError;

impl<D: LineDevice> LineDevice for Faulty<D> {
    fn reset(&mut self, lines: u64, unit: u64) -> Result<(), ResetFault>
        requires some { 1 ≤ lines }
        requires few { lines ≤ 118016 }
        requires known { IsUnit unit }
        ensures lines { OnOk result (WritesBack (zeros lines) (faulty D.state self.new).medium) }
        ensures on { OnOk result (IsTrue (faulty D.state self.new).panel.power) }
        ensures stays_on { IsTrue (faulty D.state self.old).panel.power → IsTrue (faulty D.state self.new).panel.power }
        ensures unit { OnOk result ((faulty D.state self.new).panel.unit ≡ unit) }
        ensures sets_up { SetsUp (setup_outcome result) (with_unit (faulty D.state self.old).panel (faulty D.state self.new).panel.unit) (faulty D.state self.new).panel }
        ensures numbered { Numbered self.old self.new
            ((result ≡ Err setup.Failed) × ((faulty D.state self.new).panel.counts ≡ setup_failed (faulty D.state self.old).panel.counts))
            (SetsUp (setup_outcome result) (with_unit (D.state (reached self.old)).panel (D.state (reached self.new)).panel.unit) (D.state (reached self.new)).panel) }
    {
        if self.fails_setup() {
            return Err(ResetFault::Failed);
        }
        self.inner.reset(lines, unit)
    }

    fn install(&mut self, line: LineNo, told: &LineState) -> Result<(), ResetFault>
        requires { line.0 < (faulty D.state self.old).medium.count }
        ensures lines { OnOk result (WritesBack (installed (faulty D.state self.old).medium line.0 told.now) (faulty D.state self.new).medium) }
        ensures power { (faulty D.state self.new).panel.power ≡ (faulty D.state self.old).panel.power }
        ensures sets_up { SetsUp (setup_outcome result) (faulty D.state self.old).panel (faulty D.state self.new).panel }
        ensures numbered { Numbered self.old self.new
            ((result ≡ Err setup.Failed) × ((faulty D.state self.new).panel.counts ≡ setup_failed (faulty D.state self.old).panel.counts))
            (SetsUp (setup_outcome result) (D.state (reached self.old)).panel (D.state (reached self.new)).panel) }
    {
        if self.fails_setup() {
            return Err(ResetFault::Failed);
        }
        self.inner.install(line, told)
    }

    fn extract(&mut self, line: LineNo) -> Result<LineState, DeviceFault>
        requires { line.0 < (faulty D.state self.old).medium.count }
        ensures told { IfOk result (λ told. Shows (faulty D.state self.old).medium line.0 told) }
        ensures never_poisoned { (n : _) → result ≡ Err (Poisoned n) → ⊥ }
        ensures lines { WritesBack (faulty D.state self.old).medium (faulty D.state self.new).medium }
        ensures power { KeepsPower (outcome result) (faulty D.state self.old).panel (faulty D.state self.new).panel }
        ensures sets_up { SetsUp (outcome result) (faulty D.state self.old).panel (faulty D.state self.new).panel }
        ensures numbered { Numbered self.old self.new
            ((result ≡ Err Failed) × ((faulty D.state self.new).panel.counts ≡ setup_failed (faulty D.state self.old).panel.counts))
            (SetsUp (outcome result) (D.state (reached self.old)).panel (D.state (reached self.new)).panel) }
    {
        if self.fails_setup() {
            return Err(DeviceFault::Failed);
        }
        self.inner.extract(line)
    }

    fn evict(&mut self, lines: u64)
        ensures lines { WritesBack (faulty D.state self.old).medium (faulty D.state self.new).medium }
        ensures panel { (faulty D.state self.new).panel ≡ after_evict (faulty D.state self.old).panel lines }
        ensures schedule { schedule self.new ≡ schedule self.old }
    {
        self.inner.evict(lines);
    }

    fn power_off(&mut self)
        requires { IsTrue (faulty D.state self.old).panel.power }
        ensures lines { WritesBack (faulty D.state self.old).medium (faulty D.state self.new).medium }
        ensures panel { (faulty D.state self.new).panel ≡ after_power_off (faulty D.state self.old).panel }
        ensures schedule { schedule self.new ≡ schedule_ended (schedule self.old) }
    {
        self.failures.end();
        self.inner.power_off();
    }

    fn restart(&mut self, choice: Choice) -> Result<(), AllocError>
        requires { (faulty D.state self.old).panel.power ≡ false }
        ensures restarted { MatchResult result
            (λ _. (start : Start) × Restarted choice (faulty D.state self.old) (faulty D.state self.new) start)
            (λ _. Waited (faulty D.state self.old) (faulty D.state self.new)) }
        ensures schedule { schedule self.new ≡ schedule self.old }
    {
        self.inner.restart(choice)
    }

    fn arm_cut(&mut self, calls: u64)
        requires { 1 ≤ calls }
        ensures lines { WritesBack (faulty D.state self.old).medium (faulty D.state self.new).medium }
        ensures panel { (faulty D.state self.new).panel ≡ after_arm_cut (faulty D.state self.old).panel calls }
        ensures schedule { schedule self.new ≡ schedule self.old }
    {
        self.inner.arm_cut(calls);
    }

    fn arm_fail(&mut self, calls: u64)
        requires { 1 ≤ calls }
        ensures lines { WritesBack (faulty D.state self.old).medium (faulty D.state self.new).medium }
        ensures panel { (faulty D.state self.new).panel ≡ after_arm_fail (faulty D.state self.old).panel calls }
        ensures schedule { schedule self.new ≡ schedule self.old }
    {
        self.inner.arm_fail(calls);
    }

    fn disarm(&mut self)
        ensures lines { WritesBack (faulty D.state self.old).medium (faulty D.state self.new).medium }
        ensures panel { (faulty D.state self.new).panel ≡ after_disarm (faulty D.state self.old).panel }
        ensures schedule { schedule self.new ≡ schedule_ended (schedule self.old) }
    {
        self.failures.end();
        self.inner.disarm();
    }

    fn cut_armed(&self) -> bool {
        self.inner.cut_armed()
    }

    fn fail_armed(&self) -> bool {
        self.failures.is_to_come() || self.inner.fail_armed()
    }
}

impl<D: Peek> Peek for Faulty<D> {
    fn peek(&self, line: LineNo) -> LineState {
        self.inner.peek(line)
    }

    fn unit(&self) -> u64 {
        self.inner.unit()
    }
}
