ghost use Rattle.std.specs.Prelude.{◌≡◌, ◌<◌, ◌≤◌, ◌+◌, false, length, IsTrue, IfOk, MatchResult};
ghost use Rattle.std.specs.Borrow.{sem};
ghost use Rattle.std.specs.Io.BufRead.{Rests};
ghost use Rattle.line_device.specs.Medium.{WritesBack, IsLine, Weakens, stored, persisted, cleared, poisoned};
ghost use Rattle.line_device.specs.Panel.{Runs, outcome};
ghost use Rattle.line_device.specs.Device.{Poisons};
ghost use Rattle.test_devices.specs.contracts.fuse.Fuse.{the_row};
ghost use Rattle.test_devices.specs.Fuse.{fused, passes_left, after_pass, behind, Burns, LoadPasses};

use super::Fuse;
use line_device::{Counts, DeviceFault, LineDevice, Lines};
use nvm_base::LineNo;
use std::alloc::AllocError;

impl<D: LineDevice> Lines for Fuse<D> {
    ghost state = { fused D.state };

    ghost load_leaves = { LoadPasses D.load_leaves };

    fn lines(&self) -> u64 {
        self.inner.lines()
    }

    fn power(&self) -> bool {
        self.inner.power()
    }

    fn counts(&self) -> Counts {
        let mut counts = self.inner.counts();
        counts.cuts = counts.cuts.saturating_add(self.burnt);
        counts.calls = counts.calls.saturating_add(self.burnt);
        counts.offs = self.offs;
        counts
    }

    fn is_bad(&self, line: LineNo) -> bool {
        self.inner.is_bad(line)
    }

    fn is_weak(&self, line: LineNo) -> bool {
        self.inner.is_weak(line)
    }

    fn load(&mut self, line: LineNo) -> Result<&[u8], DeviceFault>
        requires within { line.0 < (fused D.state self.old).medium.count }
        requires on { IsTrue (fused D.state self.old).panel.power }
        ensures bytes { IfOk result (λ bytes. IsLine (fused D.state self.old).medium line.0 bytes.now) }
        ensures poison { Poisons line.0 ((fused D.state self.old).medium.is_bad line.0) result }
        ensures burns { Burns (passes_left self.old) (D.state (behind self.old)).panel.cut_armed result }
        ensures* after { sem 𝓛 (Rests (the_row D.row) self.entry (λ new.
            WritesBack (fused D.state self.old).medium (fused D.state new).medium
            × Runs 1 0 (outcome result) (fused D.state self.old).panel (fused D.state new).panel
            × LoadPasses D.load_leaves self.old new)) }
    {
        if self.burns() {
            return Err(DeviceFault::PowerLost);
        }
        self.inner.load(line)
    }

    fn store(&mut self, line: LineNo, at: u64, bytes: &[u8]) -> Result<(), DeviceFault>
        requires within { line.0 < (fused D.state self.old).medium.count }
        requires on { IsTrue (fused D.state self.old).panel.power }
        requires some { 0 < length bytes.now }
        requires fits { at + length bytes.now ≤ 64 }
        ensures lines { MatchResult result
            (λ _. WritesBack (stored (fused D.state self.old).medium line.0 at bytes.now) (fused D.state self.new).medium)
            (λ _. WritesBack (fused D.state self.old).medium (fused D.state self.new).medium) }
        ensures poison { Poisons line.0 ((fused D.state self.old).medium.is_bad line.0) result }
        ensures runs { Runs 1 0 (outcome result) (fused D.state self.old).panel (fused D.state self.new).panel }
        ensures burns { Burns (passes_left self.old) (D.state (behind self.old)).panel.cut_armed result }
        ensures left { passes_left self.new ≡ after_pass (passes_left self.old) }
    {
        if self.burns() {
            return Err(DeviceFault::PowerLost);
        }
        self.inner.store(line, at, bytes)
    }

    fn persist(&mut self, line: LineNo) -> Result<(), DeviceFault>
        requires within { line.0 < (fused D.state self.old).medium.count }
        requires on { IsTrue (fused D.state self.old).panel.power }
        ensures lines { MatchResult result
            (λ _. WritesBack (persisted (fused D.state self.old).medium line.0) (fused D.state self.new).medium)
            (λ _. WritesBack (fused D.state self.old).medium (fused D.state self.new).medium) }
        ensures poison { Poisons line.0 ((fused D.state self.old).medium.is_bad line.0) result }
        ensures runs { Runs 1 1 (outcome result) (fused D.state self.old).panel (fused D.state self.new).panel }
        ensures burns { Burns (passes_left self.old) (D.state (behind self.old)).panel.cut_armed result }
        ensures left { passes_left self.new ≡ after_pass (passes_left self.old) }
    {
        if self.burns() {
            return Err(DeviceFault::PowerLost);
        }
        self.inner.persist(line)
    }

    fn clear(&mut self, line: LineNo) -> Result<(), DeviceFault>
        requires within { line.0 < (fused D.state self.old).medium.count }
        requires on { IsTrue (fused D.state self.old).panel.power }
        ensures lines { MatchResult result
            (λ _. WritesBack (cleared (fused D.state self.old).medium line.0) (fused D.state self.new).medium)
            (λ _. WritesBack (fused D.state self.old).medium (fused D.state self.new).medium) }
        ensures poison { Poisons line.0 false result }
        ensures runs { Runs 1 0 (outcome result) (fused D.state self.old).panel (fused D.state self.new).panel }
        ensures burns { Burns (passes_left self.old) (D.state (behind self.old)).panel.cut_armed result }
        ensures left { passes_left self.new ≡ after_pass (passes_left self.old) }
    {
        if self.burns() {
            return Err(DeviceFault::PowerLost);
        }
        self.inner.clear(line)
    }

    fn poison(&mut self, line: LineNo)
        requires { line.0 < (fused D.state self.old).medium.count }
        ensures lines { WritesBack (poisoned (fused D.state self.old).medium line.0) (fused D.state self.new).medium }
        ensures panel { (fused D.state self.new).panel ≡ (fused D.state self.old).panel }
        ensures left { passes_left self.new ≡ passes_left self.old }
    {
        self.inner.poison(line);
    }

    fn weaken(&mut self, line: LineNo) -> Result<(), AllocError>
        requires { line.0 < (fused D.state self.old).medium.count }
        ensures lines { MatchResult result
            (λ _. Weakens line.0 (fused D.state self.old).medium (fused D.state self.new).medium)
            (λ _. WritesBack (fused D.state self.old).medium (fused D.state self.new).medium) }
        ensures panel { (fused D.state self.new).panel ≡ (fused D.state self.old).panel }
        ensures left { passes_left self.new ≡ passes_left self.old }
    {
        self.inner.weaken(line)
    }

    ghost sound = { λ f. D.sound f.inner };
}
