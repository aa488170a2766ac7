ghost use Rattle.std.specs.Prelude.{◌≡◌, ◌<◌, ◌≤◌, ◌+◌, false, length, Err, IsTrue, IfOk, MatchResult};
ghost use Rattle.std.specs.Borrow.{sem};
ghost use Rattle.std.specs.Io.BufRead.{Rests};
ghost use Rattle.line_device.specs.Medium.{WritesBack, IsLine, Weakens, stored, persisted, cleared, poisoned};
ghost use Rattle.line_device.specs.Panel.{Runs, outcome};
ghost use Rattle.line_device.specs.Device.{Poisons};
ghost use Rattle.line_device.specs.declared.fault.DeviceFault.TheVariants.{Failed};
ghost use Rattle.test_devices.specs.contracts.faulty.Faulty.{the_row};
ghost use Rattle.test_devices.specs.Schedule.{fails_next};
ghost use Rattle.test_devices.specs.Faulty.{faulty, schedule, reached, Numbered, LoadFails, LoadNumbered, call_failed, persist_failed};

use super::Faulty;
use line_device::{Counts, DeviceFault, LineDevice, Lines};
use nvm_base::{LineNo, raise};
use std::alloc::AllocError;

impl<D: LineDevice> Lines for Faulty<D> {
    ghost state = { faulty D.state };

    ghost load_leaves = { LoadNumbered D.state D.load_leaves };

    fn lines(&self) -> u64 {
        self.inner.lines()
    }

    fn power(&self) -> bool {
        self.inner.power()
    }

    fn counts(&self) -> Counts {
        let mut counts = self.inner.counts();
        counts.faults = counts
            .faults
            .saturating_add(self.calls)
            .saturating_add(self.setups);
        counts.calls = counts.calls.saturating_add(self.calls);
        counts.persists = counts.persists.saturating_add(self.persists);
        counts.setups = counts.setups.saturating_add(self.setups);
        counts
    }

    fn is_bad(&self, line: LineNo) -> bool {
        self.inner.is_bad(line)
    }

    fn is_weak(&self, line: LineNo) -> bool {
        self.inner.is_weak(line)
    }

    fn load(&mut self, line: LineNo) -> Result<&[u8], DeviceFault>
        requires within { line.0 < (faulty D.state self.old).medium.count }
        requires on { IsTrue (faulty D.state self.old).panel.power }
        ensures bytes { IfOk result (λ bytes. IsLine (faulty D.state self.old).medium line.0 bytes.now) }
        ensures poison { Poisons line.0 ((faulty D.state self.old).medium.is_bad line.0) result }
        ensures fails { LoadFails (fails_next (schedule self.old)) (D.state (reached self.old)).panel.fail_armed (Err Failed) result }
        ensures* after { sem 𝓛 (Rests (the_row D.row) self.entry (λ new.
            WritesBack (faulty D.state self.old).medium (faulty D.state new).medium
            × Runs 1 0 (outcome result) (faulty D.state self.old).panel (faulty D.state new).panel
            × LoadNumbered D.state D.load_leaves self.old new)) }
    {
        if self.fails_call() {
            return Err(DeviceFault::Failed);
        }
        self.inner.load(line)
    }

    fn store(&mut self, line: LineNo, at: u64, bytes: &[u8]) -> Result<(), DeviceFault>
        requires within { line.0 < (faulty D.state self.old).medium.count }
        requires on { IsTrue (faulty D.state self.old).panel.power }
        requires some { 0 < length bytes.now }
        requires fits { at + length bytes.now ≤ 64 }
        ensures lines { MatchResult result
            (λ _. WritesBack (stored (faulty D.state self.old).medium line.0 at bytes.now) (faulty D.state self.new).medium)
            (λ _. WritesBack (faulty D.state self.old).medium (faulty D.state self.new).medium) }
        ensures poison { Poisons line.0 ((faulty D.state self.old).medium.is_bad line.0) result }
        ensures runs { Runs 1 0 (outcome result) (faulty D.state self.old).panel (faulty D.state self.new).panel }
        ensures numbered { Numbered self.old self.new
            ((result ≡ Err Failed) × ((faulty D.state self.new).panel.counts ≡ call_failed (faulty D.state self.old).panel.counts))
            (Runs 1 0 (outcome result) (D.state (reached self.old)).panel (D.state (reached self.new)).panel) }
    {
        if self.fails_call() {
            return Err(DeviceFault::Failed);
        }
        self.inner.store(line, at, bytes)
    }

    fn persist(&mut self, line: LineNo) -> Result<(), DeviceFault>
        requires within { line.0 < (faulty D.state self.old).medium.count }
        requires on { IsTrue (faulty D.state self.old).panel.power }
        ensures lines { MatchResult result
            (λ _. WritesBack (persisted (faulty D.state self.old).medium line.0) (faulty D.state self.new).medium)
            (λ _. WritesBack (faulty D.state self.old).medium (faulty D.state self.new).medium) }
        ensures poison { Poisons line.0 ((faulty D.state self.old).medium.is_bad line.0) result }
        ensures runs { Runs 1 1 (outcome result) (faulty D.state self.old).panel (faulty D.state self.new).panel }
        ensures numbered { Numbered self.old self.new
            ((result ≡ Err Failed) × ((faulty D.state self.new).panel.counts ≡ persist_failed (faulty D.state self.old).panel.counts))
            (Runs 1 1 (outcome result) (D.state (reached self.old)).panel (D.state (reached self.new)).panel) }
    {
        if self.fails_call() {
            raise(&mut self.persists);
            return Err(DeviceFault::Failed);
        }
        self.inner.persist(line)
    }

    fn clear(&mut self, line: LineNo) -> Result<(), DeviceFault>
        requires within { line.0 < (faulty D.state self.old).medium.count }
        requires on { IsTrue (faulty D.state self.old).panel.power }
        ensures lines { MatchResult result
            (λ _. WritesBack (cleared (faulty D.state self.old).medium line.0) (faulty D.state self.new).medium)
            (λ _. WritesBack (faulty D.state self.old).medium (faulty D.state self.new).medium) }
        ensures poison { Poisons line.0 false result }
        ensures runs { Runs 1 0 (outcome result) (faulty D.state self.old).panel (faulty D.state self.new).panel }
        ensures numbered { Numbered self.old self.new
            ((result ≡ Err Failed) × ((faulty D.state self.new).panel.counts ≡ call_failed (faulty D.state self.old).panel.counts))
            (Runs 1 0 (outcome result) (D.state (reached self.old)).panel (D.state (reached self.new)).panel) }
    {
        if self.fails_call() {
            return Err(DeviceFault::Failed);
        }
        self.inner.clear(line)
    }

    fn poison(&mut self, line: LineNo)
        requires { line.0 < (faulty D.state self.old).medium.count }
        ensures lines { WritesBack (poisoned (faulty D.state self.old).medium line.0) (faulty D.state self.new).medium }
        ensures panel { (faulty D.state self.new).panel ≡ (faulty D.state self.old).panel }
        ensures schedule { schedule self.new ≡ schedule self.old }
    {
        self.inner.poison(line);
    }

    fn weaken(&mut self, line: LineNo) -> Result<(), AllocError>
        requires { line.0 < (faulty D.state self.old).medium.count }
        ensures lines { MatchResult result
            (λ _. Weakens line.0 (faulty D.state self.old).medium (faulty D.state self.new).medium)
            (λ _. WritesBack (faulty D.state self.old).medium (faulty D.state self.new).medium) }
        ensures panel { (faulty D.state self.new).panel ≡ (faulty D.state self.old).panel }
        ensures schedule { schedule self.new ≡ schedule self.old }
    {
        self.inner.weaken(line)
    }

    ghost sound = { λ f. D.sound f.inner };
}
