// The power of a device of memory, what is armed there, and its counts.
ghost use Rattle.std.specs.Prelude.{◌≡◌, ◌+◌, ◌≤◌, true, false, None, Some, IsTrue};
ghost use Rattle.line_device.specs.Arming.{is_due, counted_down, fail_after};
ghost use Rattle.line_device.specs.Panel.{Runs, outcome, after_arm_cut, after_arm_fail, after_disarm, after_power_off};
ghost use Rattle.line_device.specs.Panel.Outcome.{went};
ghost use Rattle.line_device.specs.Switches.{panel_of, cut_left, fail_left, call_answer, after_call, switches_after_persist, switches_after_evict, switches_after_restart, powered};

use crate::{Counts, DeviceFault};
use nvm_base::raise;

/// The power, an armed cut, an armed failure and the counts. At first the power is off and nothing is armed.
#[derive(Clone, Copy, Debug, Default, PartialEq, Eq)]
pub struct Switches {
    power: bool,
    cut: Option<u64>,
    fail: Option<u64>,
    counts: Counts,
    /// How many bytes of a word a cut keeps or loses together.
    unit: u64,
}

impl Switches {
    pub fn power(&self) -> bool
        ensures { result ≡ (panel_of self.now).power }
    {
        self.power
    }

    pub fn cut_armed(&self) -> bool
        ensures { result ≡ (panel_of self.now).cut_armed }
    {
        self.cut.is_some()
    }

    pub fn fail_armed(&self) -> bool
        ensures { result ≡ (panel_of self.now).fail_armed }
    {
        self.fail.is_some()
    }

    pub fn counts(&self) -> Counts
        ensures { result ≡ (panel_of self.now).counts }
    {
        self.counts
    }

    /// Counts a call of `load`, `store`, `persist` or `clear`, and returns whether it is done.
    pub fn count_call(&mut self) -> Result<(), DeviceFault>
        ensures answer { result ≡ call_answer self.old }
        ensures after { self.new ≡ after_call self.old }
        ensures runs { Runs 1 0 (outcome result) (panel_of self.old) (panel_of self.new) }
    {
        // Mostly nothing is armed.
        match (self.cut, self.fail) {
            (None, None) => {
                raise(&mut self.counts.calls);
                Ok(())
            }
            _ => self.count_armed_call(),
        }
    }

    fn count_armed_call(&mut self) -> Result<(), DeviceFault>
        ensures answer { result ≡ call_answer self.old }
        ensures after { self.new ≡ after_call self.old }
        ensures runs { Runs 1 0 (outcome result) (panel_of self.old) (panel_of self.new) }
    {
        let cut = is_due(self.cut);
        let fail = is_due(self.fail);
        self.fail = fail_after(self.cut, self.fail);
        self.cut = counted_down(self.cut);
        raise(&mut self.counts.calls);
        if cut {
            self.power = false;
            raise(&mut self.counts.cuts);
            return Err(DeviceFault::PowerLost);
        }
        if fail {
            raise(&mut self.counts.faults);
            return Err(DeviceFault::Failed);
        }
        Ok(())
    }

    pub fn count_persist(&mut self)
        ensures after { self.new ≡ switches_after_persist self.old }
        ensures runs { Runs 0 1 went (panel_of self.old) (panel_of self.new) }
    {
        raise(&mut self.counts.persists);
    }

    pub fn arm_cut(&mut self, calls: u64)
        ensures panel { panel_of self.new ≡ after_arm_cut (panel_of self.old) calls }
        ensures cut { cut_left self.new ≡ Some calls }
        ensures fail { fail_left self.new ≡ fail_left self.old }
    {
        self.cut = Some(calls);
        raise(&mut self.counts.arms);
    }

    pub fn arm_fail(&mut self, calls: u64)
        ensures panel { panel_of self.new ≡ after_arm_fail (panel_of self.old) calls }
        ensures cut { cut_left self.new ≡ cut_left self.old }
        ensures fail { fail_left self.new ≡ Some calls }
    {
        self.fail = Some(calls);
        raise(&mut self.counts.arms);
    }

    pub fn disarm(&mut self)
        ensures { panel_of self.new ≡ after_disarm (panel_of self.old) }
    {
        self.cut = None;
        self.fail = None;
        raise(&mut self.counts.disarms);
    }

    pub fn power_off(&mut self)
        ensures { panel_of self.new ≡ after_power_off (panel_of self.old) }
    {
        self.power = false;
        self.cut = None;
        self.fail = None;
        raise(&mut self.counts.offs);
    }

    pub fn unit(&self) -> u64
        ensures { result ≡ (panel_of self.now).unit }
    {
        self.unit
    }

    /// Turns the power on, for a device of this unit. Only a restart counts as one.
    pub fn power_on(&mut self, unit: u64)
        ensures { self.new ≡ powered unit self.old }
    {
        self.power = true;
        self.unit = unit;
    }

    pub fn restart(&mut self)
        ensures { self.new ≡ switches_after_restart self.old }
    {
        self.power = true;
        raise(&mut self.counts.restarts);
    }

    pub fn count_evict(&mut self)
        ensures { self.new ≡ switches_after_evict self.old }
    {
        raise(&mut self.counts.evicts);
    }
}

// Whether the next counted call is the one.
fn is_due(left: Option<u64>) -> bool
    ensures { result ≡ is_due left }
{
    match left {
        Some(calls) => calls <= 1,
        None => false,
    }
}

fn counted_down(left: Option<u64>) -> Option<u64>
    ensures { result ≡ counted_down left }
{
    match left {
        Some(calls) if calls > 1 => Some(calls - 1),
        _ => None,
    }
}

// A cut takes the call from a failure that is due with it.
fn fail_after(cut: Option<u64>, fail: Option<u64>) -> Option<u64>
    ensures { result ≡ fail_after cut fail }
{
    if is_due(cut) && is_due(fail) {
        fail
    } else {
        counted_down(fail)
    }
}
