ghost use Rattle.std.specs.Prelude.{◌≡◌, ◌≤◌, false, MatchResult, OnOk};
ghost use Rattle.line_device.specs.Medium.{WritesBack};
ghost use Rattle.line_device.specs.Panel.{Start as Told, after_arm_cut, after_arm_fail, after_evict};
ghost use Rattle.line_device.specs.Device.{Restarted, Waited};
ghost use Rattle.test_devices.specs.Recorder.{recorded, recorded_device};

use super::{Recorder, look};
use crate::Start;
use line_device::{Choice, DeviceFault, LineDevice, LineState, Order, Peek, ResetFault};
use nvm_base::LineNo;
use std::alloc::AllocError;

impl<D: Peek> LineDevice for Recorder<D> {
    fn reset(&mut self, lines: u64, unit: u64) -> Result<(), ResetFault> {
        self.inner.reset(lines, unit)
    }

    fn install(&mut self, line: LineNo, told: &LineState) -> Result<(), ResetFault> {
        self.inner.install(line, told)
    }

    fn extract(&mut self, line: LineNo) -> Result<LineState, DeviceFault> {
        self.inner.extract(line)
    }

    fn evict(&mut self, lines: u64)
        ensures lines { WritesBack (recorded D.state self.old).medium (recorded D.state self.new).medium }
        ensures panel { (recorded D.state self.new).panel ≡ after_evict (recorded D.state self.old).panel lines }
        ensures behind { (D.state (recorded_device self.new)).panel ≡ after_evict (D.state (recorded_device self.old)).panel lines }
    {
        self.last = Some(Order::Evict(lines));
        self.inner.evict(lines);
    }

    fn power_off(&mut self) {
        self.inner.power_off();
    }

    fn restart(&mut self, choice: Choice) -> Result<(), AllocError>
        requires { (recorded D.state self.old).panel.power ≡ false }
        ensures restarted { MatchResult result
            (λ _. (start : Told) × Restarted choice (recorded D.state self.old) (recorded D.state self.new) start)
            (λ _. Waited (recorded D.state self.old) (recorded D.state self.new)) }
        ensures behind { OnOk result
            ((start : Told) × Restarted choice (D.state (recorded_device self.old)) (D.state (recorded_device self.new)) start) }
    {
        let mut lines = self.room()?;
        let unit = self.inner.unit();
        self.inner.restart(choice)?;
        look(&self.inner, &mut lines);
        self.starts
            .push(Start {
                choice,
                unit,
                lines,
            })
            .unwrap();
        Ok(())
    }

    fn arm_cut(&mut self, calls: u64)
        requires { 1 ≤ calls }
        ensures lines { WritesBack (recorded D.state self.old).medium (recorded D.state self.new).medium }
        ensures panel { (recorded D.state self.new).panel ≡ after_arm_cut (recorded D.state self.old).panel calls }
        ensures behind { (D.state (recorded_device self.new)).panel ≡ after_arm_cut (D.state (recorded_device self.old)).panel calls }
    {
        self.last = Some(Order::Cut(calls));
        self.inner.arm_cut(calls);
    }

    fn arm_fail(&mut self, calls: u64)
        requires { 1 ≤ calls }
        ensures lines { WritesBack (recorded D.state self.old).medium (recorded D.state self.new).medium }
        ensures panel { (recorded D.state self.new).panel ≡ after_arm_fail (recorded D.state self.old).panel calls }
        ensures behind { (D.state (recorded_device self.new)).panel ≡ after_arm_fail (D.state (recorded_device self.old)).panel calls }
    {
        self.last = Some(Order::Fail(calls));
        self.inner.arm_fail(calls);
    }

    fn disarm(&mut self) {
        self.inner.disarm();
    }

    fn cut_armed(&self) -> bool {
        self.inner.cut_armed()
    }

    fn fail_armed(&self) -> bool {
        self.inner.fail_armed()
    }
}

impl<D: Peek> Peek for Recorder<D> {
    fn peek(&self, line: LineNo) -> LineState {
        self.inner.peek(line)
    }

    fn unit(&self) -> u64 {
        self.inner.unit()
    }
}
