ghost use Rattle.std.specs.Prelude.{◌≡◌, ◌<◌, ◌≤◌, ℕ, false, IsTrue, IsOk, IfOk, OnOk, OnErr, MatchResult, Some, None};
ghost use Rattle.line_device.specs.Medium.{WritesBack, Shows, installed, zeros};
ghost use Rattle.line_device.specs.Panel.{Start, SetsUp, KeepsPower, outcome, with_unit, after_arm_cut, after_arm_fail, after_evict, after_disarm, after_power_off, IsUnit};
ghost use Rattle.line_device.specs.Device.{Restarted, Waited, setup_outcome};
ghost use Rattle.line_device.specs.Cells.{kept};
ghost use Rattle.line_device.specs.Switches.{cut_left, fail_left, switches_after_restart, powered};
ghost use Rattle.line_device.specs.Plain.{device_of, plain_medium, switches_of};
ghost use Rattle.line_device.specs.declared.fault.ResetFault.TheVariants as setup;
ghost use Rattle.line_device.specs.declared.fault.DeviceFault.TheVariants.{Poisoned};

use super::Plain;
use crate::{Choice, DeviceFault, LineDevice, LineState, Peek, ResetFault};
use nvm_base::LineNo;
use std::alloc::AllocError;

impl LineDevice for Plain {
    fn reset(&mut self, lines: u64, unit: u64) -> Result<(), ResetFault>
        requires some { 1 ≤ lines }
        requires few { lines ≤ 118016 }
        requires known { IsUnit unit }
        ensures lines { OnOk result (WritesBack (zeros lines) (plain_medium self.new)) }
        ensures on { OnOk result (IsTrue (device_of self.new).panel.power) }
        ensures stays_on { IsTrue (device_of self.old).panel.power → IsTrue (device_of self.new).panel.power }
        ensures unit { OnOk result ((device_of self.new).panel.unit ≡ unit) }
        ensures sets_up { SetsUp (setup_outcome result) (with_unit (device_of self.old).panel (device_of self.new).panel.unit) (device_of self.new).panel }
        ensures exactly { MatchResult result (λ _. plain_medium self.new ≡ zeros lines) (λ _. plain_medium self.new ≡ plain_medium self.old) }
        ensures never_failed { result ≡ Err setup.Failed → ⊥ }
        ensures switches { MatchResult result
            (λ _. switches_of self.new ≡ powered unit (switches_of self.old))
            (λ _. switches_of self.new ≡ switches_of self.old) }
    {
        match self.cells.reset(lines) {
            Ok(()) => {
                self.switches.power_on(unit);
                Ok(())
            }
            Err(_) => Err(ResetFault::Memory),
        }
    }

    fn install(&mut self, line: LineNo, told: &LineState) -> Result<(), ResetFault>
        requires { line.0 < (plain_medium self.old).count }
        ensures lines { OnOk result (WritesBack (installed (plain_medium self.old) line.0 told.now) (plain_medium self.new)) }
        ensures power { (device_of self.new).panel.power ≡ (device_of self.old).panel.power }
        ensures sets_up { SetsUp (setup_outcome result) (device_of self.old).panel (device_of self.new).panel }
        ensures exactly { plain_medium self.new ≡ installed (plain_medium self.old) line.0 told.now }
        ensures never_fails { IsOk result }
        ensures switches { switches_of self.new ≡ switches_of self.old }
    {
        self.cells.install(line, told);
        Ok(())
    }

    fn extract(&mut self, line: LineNo) -> Result<LineState, DeviceFault>
        requires { line.0 < (plain_medium self.old).count }
        ensures told { IfOk result (λ told. Shows (plain_medium self.old) line.0 told) }
        ensures never_poisoned { (n : _) → result ≡ Err (Poisoned n) → ⊥ }
        ensures lines { WritesBack (plain_medium self.old) (plain_medium self.new) }
        ensures power { KeepsPower (outcome result) (device_of self.old).panel (device_of self.new).panel }
        ensures sets_up { SetsUp (outcome result) (device_of self.old).panel (device_of self.new).panel }
        ensures never_fails { IsOk result }
        ensures exactly { plain_medium self.new ≡ plain_medium self.old }
        ensures switches { switches_of self.new ≡ switches_of self.old }
    {
        Ok(self.cells.shown(line))
    }

    fn evict(&mut self, lines: u64)
        ensures lines { WritesBack (plain_medium self.old) (plain_medium self.new) }
        ensures panel { (device_of self.new).panel ≡ after_evict (device_of self.old).panel lines }
        ensures exactly { plain_medium self.new ≡ plain_medium self.old }
        ensures cut { cut_left (switches_of self.new) ≡ cut_left (switches_of self.old) }
        ensures fail { fail_left (switches_of self.new) ≡ fail_left (switches_of self.old) }
    {
        self.switches.count_evict();
    }

    fn power_off(&mut self)
        requires { IsTrue (device_of self.old).panel.power }
        ensures lines { WritesBack (plain_medium self.old) (plain_medium self.new) }
        ensures panel { (device_of self.new).panel ≡ after_power_off (device_of self.old).panel }
        ensures exactly { plain_medium self.new ≡ plain_medium self.old }
    {
        self.switches.power_off();
    }

    fn restart(&mut self, choice: Choice) -> Result<(), AllocError>
        requires { (device_of self.old).panel.power ≡ false }
        ensures restarted { MatchResult result
            (λ _. (start : Start) × Restarted choice (device_of self.old) (device_of self.new) start)
            (λ _. Waited (device_of self.old) (device_of self.new)) }
        ensures exactly { plain_medium self.new ≡ kept choice (plain_medium self.old) }
        ensures never_refuses { IsOk result }
        ensures switches { switches_of self.new ≡ switches_after_restart (switches_of self.old) }
    {
        self.cells.keep(choice);
        self.switches.restart();
        Ok(())
    }

    fn arm_cut(&mut self, calls: u64)
        requires { 1 ≤ calls }
        ensures lines { WritesBack (plain_medium self.old) (plain_medium self.new) }
        ensures panel { (device_of self.new).panel ≡ after_arm_cut (device_of self.old).panel calls }
        ensures exactly { plain_medium self.new ≡ plain_medium self.old }
        ensures cut { cut_left (switches_of self.new) ≡ Some calls }
        ensures fail { fail_left (switches_of self.new) ≡ fail_left (switches_of self.old) }
    {
        self.switches.arm_cut(calls);
    }

    fn arm_fail(&mut self, calls: u64)
        requires { 1 ≤ calls }
        ensures lines { WritesBack (plain_medium self.old) (plain_medium self.new) }
        ensures panel { (device_of self.new).panel ≡ after_arm_fail (device_of self.old).panel calls }
        ensures exactly { plain_medium self.new ≡ plain_medium self.old }
        ensures cut { cut_left (switches_of self.new) ≡ cut_left (switches_of self.old) }
        ensures fail { fail_left (switches_of self.new) ≡ Some calls }
    {
        self.switches.arm_fail(calls);
    }

    fn disarm(&mut self)
        ensures lines { WritesBack (plain_medium self.old) (plain_medium self.new) }
        ensures panel { (device_of self.new).panel ≡ after_disarm (device_of self.old).panel }
        ensures exactly { plain_medium self.new ≡ plain_medium self.old }
    {
        self.switches.disarm();
    }

    fn cut_armed(&self) -> bool {
        self.switches.cut_armed()
    }

    fn fail_armed(&self) -> bool {
        self.switches.fail_armed()
    }
}

impl Peek for Plain {
    fn peek(&self, line: LineNo) -> LineState {
        self.cells.shown(line)
    }

    fn unit(&self) -> u64 {
        self.switches.unit()
    }
}
