ghost use Rattle.std.specs.Prelude.{◌≡◌, ◌<◌, ◌≤◌, ℕ, false, IsTrue, IsOk, IfOk, OnOk, OnErr, MatchResult, Some, None};
ghost use Rattle.line_device.specs.Medium.{WritesBack, Shows, installed, zeros};
ghost use Rattle.line_device.specs.Panel.{Start, SetsUp, KeepsPower, outcome, with_unit, after_arm_cut, after_arm_fail, after_evict, after_disarm, after_power_off, IsUnit};
ghost use Rattle.line_device.specs.Device.{Restarted, Waited, setup_outcome};
ghost use Rattle.line_module.specs.Memory.{memory_after_reset, memory_after_install, memory_after_evict, memory_after_restart, is_told_weak};
ghost use Rattle.line_device.specs.Switches.{cut_left, fail_left, switches_after_restart, powered};
ghost use Rattle.line_module.specs.Module.{memory_of, module_device, module_medium, module_switches};
ghost use Rattle.line_device.specs.declared.fault.ResetFault.TheVariants as setup;
ghost use Rattle.line_device.specs.declared.fault.DeviceFault.TheVariants.{Poisoned};

use super::Module;
use crate::cells::Cells;
use line_device::{Choice, DeviceFault, LineDevice, LineState, Peek, ResetFault};
use nvm_base::LineNo;
use std::alloc::AllocError;

impl LineDevice for Module {
    fn reset(&mut self, lines: u64, unit: u64) -> Result<(), ResetFault>
        requires some { 1 ≤ lines }
        requires few { lines ≤ 118016 }
        requires known { IsUnit unit }
        ensures lines { OnOk result (WritesBack (zeros lines) (module_medium self.new)) }
        ensures on { OnOk result (IsTrue (module_device self.new).panel.power) }
        ensures stays_on { IsTrue (module_device self.old).panel.power → IsTrue (module_device self.new).panel.power }
        ensures unit { OnOk result ((module_device self.new).panel.unit ≡ unit) }
        ensures sets_up { SetsUp (setup_outcome result) (with_unit (module_device self.old).panel (module_device self.new).panel.unit) (module_device self.new).panel }
        ensures exactly { MatchResult result
            (λ _. memory_of self.new ≡ memory_after_reset lines)
            (λ _. memory_of self.new ≡ memory_of self.old) }
        ensures never_failed { result ≡ Err setup.Failed → ⊥ }
        ensures switches { MatchResult result
            (λ _. module_switches self.new ≡ powered unit (module_switches self.old))
            (λ _. module_switches self.new ≡ module_switches self.old) }
    {
        match Cells::new(self.alloc, lines) {
            Ok(cells) => {
                self.cells = Some(cells);
                self.switches.power_on(unit);
                Ok(())
            }
            Err(_) => Err(ResetFault::Memory),
        }
    }

    fn install(&mut self, line: LineNo, told: &LineState) -> Result<(), ResetFault>
        requires { line.0 < (module_medium self.old).count }
        ensures lines { OnOk result (WritesBack (installed (module_medium self.old) line.0 told.now) (module_medium self.new)) }
        ensures power { (module_device self.new).panel.power ≡ (module_device self.old).panel.power }
        ensures sets_up { SetsUp (setup_outcome result) (module_device self.old).panel (module_device self.new).panel }
        ensures exactly { MatchResult result
            (λ _. memory_of self.new ≡ memory_after_install (memory_of self.old) line.0 told.now)
            (λ _. memory_of self.new ≡ memory_of self.old) }
        ensures succeeds { is_told_weak told.now ≡ false → IsOk result }
        ensures never_failed { result ≡ Err setup.Failed → ⊥ }
        ensures switches { module_switches self.new ≡ module_switches self.old }
    {
        match &mut self.cells {
            Some(cells) => match cells.install(line, told) {
                Ok(()) => Ok(()),
                Err(_) => Err(ResetFault::Memory),
            },
            None => Ok(()),
        }
    }

    fn extract(&mut self, line: LineNo) -> Result<LineState, DeviceFault>
        requires { line.0 < (module_medium self.old).count }
        ensures told { IfOk result (λ told. Shows (module_medium self.old) line.0 told) }
        ensures never_poisoned { (n : _) → result ≡ Err (Poisoned n) → ⊥ }
        ensures lines { WritesBack (module_medium self.old) (module_medium self.new) }
        ensures power { KeepsPower (outcome result) (module_device self.old).panel (module_device self.new).panel }
        ensures sets_up { SetsUp (outcome result) (module_device self.old).panel (module_device self.new).panel }
        ensures never_fails { IsOk result }
        ensures exactly { memory_of self.new ≡ memory_of self.old }
        ensures switches { module_switches self.new ≡ module_switches self.old }
    {
        Ok(self.shown(line))
    }

    fn evict(&mut self, lines: u64)
        ensures lines { WritesBack (module_medium self.old) (module_medium self.new) }
        ensures panel { (module_device self.new).panel ≡ after_evict (module_device self.old).panel lines }
        ensures exactly { memory_of self.new ≡ memory_after_evict (memory_of self.old) lines }
        ensures cut { cut_left (module_switches self.new) ≡ cut_left (module_switches self.old) }
        ensures fail { fail_left (module_switches self.new) ≡ fail_left (module_switches self.old) }
    {
        self.switches.count_evict();
        match &mut self.cells {
            Some(cells) => cells.evict(lines),
            None => {}
        }
    }

    fn power_off(&mut self)
        requires { IsTrue (module_device self.old).panel.power }
        ensures lines { WritesBack (module_medium self.old) (module_medium self.new) }
        ensures panel { (module_device self.new).panel ≡ after_power_off (module_device self.old).panel }
        ensures exactly { memory_of self.new ≡ memory_of self.old }
    {
        self.switches.power_off();
    }

    fn restart(&mut self, choice: Choice) -> Result<(), AllocError>
        requires { (module_device self.old).panel.power ≡ false }
        ensures restarted { MatchResult result
            (λ _. (start : Start) × Restarted choice (module_device self.old) (module_device self.new) start)
            (λ _. Waited (module_device self.old) (module_device self.new)) }
        ensures exactly { memory_of self.new ≡ memory_after_restart (module_device self.old).panel.unit (memory_of self.old) choice }
        ensures never_refuses { IsOk result }
        ensures switches { module_switches self.new ≡ switches_after_restart (module_switches self.old) }
    {
        self.switches.restart();
        let unit = self.switches.unit();
        match &mut self.cells {
            Some(cells) => cells.restart(unit, choice),
            None => {}
        }
        Ok(())
    }

    fn arm_cut(&mut self, calls: u64)
        requires { 1 ≤ calls }
        ensures lines { WritesBack (module_medium self.old) (module_medium self.new) }
        ensures panel { (module_device self.new).panel ≡ after_arm_cut (module_device self.old).panel calls }
        ensures exactly { memory_of self.new ≡ memory_of self.old }
        ensures cut { cut_left (module_switches self.new) ≡ Some calls }
        ensures fail { fail_left (module_switches self.new) ≡ fail_left (module_switches self.old) }
    {
        self.switches.arm_cut(calls);
    }

    fn arm_fail(&mut self, calls: u64)
        requires { 1 ≤ calls }
        ensures lines { WritesBack (module_medium self.old) (module_medium self.new) }
        ensures panel { (module_device self.new).panel ≡ after_arm_fail (module_device self.old).panel calls }
        ensures exactly { memory_of self.new ≡ memory_of self.old }
        ensures cut { cut_left (module_switches self.new) ≡ cut_left (module_switches self.old) }
        ensures fail { fail_left (module_switches self.new) ≡ Some calls }
    {
        self.switches.arm_fail(calls);
    }

    fn disarm(&mut self)
        ensures lines { WritesBack (module_medium self.old) (module_medium self.new) }
        ensures panel { (module_device self.new).panel ≡ after_disarm (module_device self.old).panel }
        ensures exactly { memory_of self.new ≡ memory_of self.old }
    {
        self.switches.disarm();
    }

    fn cut_armed(&self) -> bool {
        self.switches.cut_armed()
    }

    fn fail_armed(&self) -> bool {
        self.switches.fail_armed()
    }
}

impl Peek for Module {
    fn peek(&self, line: LineNo) -> LineState {
        self.shown(line)
    }

    fn unit(&self) -> u64 {
        self.switches.unit()
    }
}
