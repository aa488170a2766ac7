// A device whose calls fail by a list of their numbers.
ghost use Rattle.std.specs.Prelude.{◌≡◌, false, IsTrue};
ghost use Rattle.line_device.specs.Medium.{WritesBack};
ghost use Rattle.line_device.specs.Panel.{Runs, SetsUp};
ghost use Rattle.line_device.specs.Panel.Outcome.{failed};
ghost use Rattle.test_devices.specs.Schedule.{schedule_of, fails_next, is_to_come, schedule_after};
ghost use Rattle.test_devices.specs.Faulty.{faulty, faulty_panel, schedule, reached, call_failed, setup_failed};

use failures::Failures;
use line_device::LineDevice;
use nvm_base::{Words, raise};

mod device;
mod failures;
mod lines;

/// Numbers from 1 all calls of `reset`, `install`, `extract`, `load`, `store`, `persist` and `clear`. Those whose numbers are
/// listed fail in place of reaching the inner device.
#[derive(Drop)]
pub struct Faulty<D> {
    inner: D,
    failures: Failures,
    calls: u64,
    persists: u64,
    setups: u64,
}

impl<D: LineDevice> Faulty<D> {
    /// `fails` names the calls that fail, from 1, in any order. `disarm` and `power_off` end the list.
    pub fn new(inner: D, fails: Words) -> Self
        ensures lines { (faulty D.state result).medium ≡ (D.state inner).medium }
        ensures panel { (faulty D.state result).panel ≡ faulty_panel (is_to_come (schedule_of fails.items)) 0 0 0 (D.state inner).panel }
        ensures schedule { schedule result ≡ schedule_of fails.items }
        ensures reached { reached result ≡ inner }
    {
        Faulty {
            inner,
            failures: Failures::new(fails),
            calls: 0,
            persists: 0,
            setups: 0,
        }
    }

    // Numbers a call of `load`, `store`, `persist` or `clear`, and says whether it fails.
    fn fails_call(&mut self) -> bool
        ensures value { result ≡ fails_next (schedule self.old) }
        ensures schedule { schedule self.new ≡ schedule_after (schedule self.old) }
        ensures reached { reached self.new ≡ reached self.old }
        ensures lines { WritesBack (faulty D.state self.old).medium (faulty D.state self.new).medium }
        ensures failed { IsTrue result → Runs 1 0 failed (faulty D.state self.old).panel (faulty D.state self.new).panel }
        ensures counted { IsTrue result → (faulty D.state self.new).panel.counts ≡ call_failed (faulty D.state self.old).panel.counts }
        ensures others { result ≡ false → (faulty D.state self.new).panel ≡ (faulty D.state self.old).panel }
        ensures counts { result ≡ false → (self.new.calls ≡ self.old.calls) × (self.new.persists ≡ self.old.persists) × (self.new.setups ≡ self.old.setups) }
    {
        let fails = self.failures.next();
        if fails {
            raise(&mut self.calls);
        }
        fails
    }

    // The same of a call of `reset`, `install` or `extract`.
    fn fails_setup(&mut self) -> bool
        ensures value { result ≡ fails_next (schedule self.old) }
        ensures schedule { schedule self.new ≡ schedule_after (schedule self.old) }
        ensures reached { reached self.new ≡ reached self.old }
        ensures lines { WritesBack (faulty D.state self.old).medium (faulty D.state self.new).medium }
        ensures failed { IsTrue result → SetsUp failed (faulty D.state self.old).panel (faulty D.state self.new).panel }
        ensures counted { IsTrue result → (faulty D.state self.new).panel.counts ≡ setup_failed (faulty D.state self.old).panel.counts }
        ensures others { result ≡ false → (faulty D.state self.new).panel ≡ (faulty D.state self.old).panel }
        ensures counts { result ≡ false → (self.new.calls ≡ self.old.calls) × (self.new.persists ≡ self.old.persists) × (self.new.setups ≡ self.old.setups) }
    {
        let fails = self.failures.next();
        if fails {
            raise(&mut self.setups);
        }
        fails
    }
}
