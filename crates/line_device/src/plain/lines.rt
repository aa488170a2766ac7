ghost use Rattle.std.specs.Prelude.{false, ◌≡◌, ◌+◌, ◌<◌, ◌≤◌, length, IsTrue, IfOk, MatchResult, IsOk, OnOk};
ghost use Rattle.std.specs.Borrow.{sem};
ghost use Rattle.std.specs.Io.BufRead.{Rests};
ghost use Rattle.line_device.specs.Medium.{WritesBack, IsLine, Weakens, stored, persisted, cleared, poisoned};
ghost use Rattle.line_device.specs.Panel.{Runs, outcome};
ghost use Rattle.line_device.specs.Device.{Poisons};
ghost use Rattle.line_device.specs.Cells.{ends_of, weakened};
ghost use Rattle.line_device.specs.Switches.{end_of, after_call, switches_after_persist};
ghost use Rattle.line_device.specs.Plain.{device_of, plain_medium, switches_of, OnlyCounts};
ghost use Rattle.line_device.specs.contracts.plain.Plain.{the_row};

use super::Plain;
use crate::{Counts, DeviceFault, Lines};
use nvm_base::LineNo;
use std::alloc::AllocError;

impl Lines for Plain {
    ghost use Rattle.line_device.specs.PlainSound.{is_sound-plain};

    ghost state = { device_of };

    ghost load_leaves = { OnlyCounts };

    fn lines(&self) -> u64 {
        self.cells.lines()
    }

    fn power(&self) -> bool {
        self.switches.power()
    }

    fn counts(&self) -> Counts {
        self.switches.counts()
    }

    fn is_bad(&self, line: LineNo) -> bool {
        self.cells.is_bad(line)
    }

    fn is_weak(&self, line: LineNo) -> bool {
        self.cells.is_weak(line)
    }

    fn load(&mut self, line: LineNo) -> Result<&[u8], DeviceFault>
        requires within { line.0 < (plain_medium self.old).count }
        requires on { IsTrue (device_of self.old).panel.power }
        ensures bytes { IfOk result (λ bytes. IsLine (plain_medium self.old) line.0 bytes.now) }
        ensures poison { Poisons line.0 ((plain_medium self.old).is_bad line.0) result }
        ensures fires { outcome result ≡ end_of (switches_of self.old) }
        ensures* after { sem 𝓛 (Rests the_row self.entry (λ new.
            WritesBack (plain_medium self.old) (plain_medium new)
            × Runs 1 0 (outcome result) (device_of self.old).panel (device_of new).panel
            × OnlyCounts self.old new)) }
    {
        self.reach(line)?;
        Ok(self.cells.line(line))
    }

    fn store(&mut self, line: LineNo, at: u64, bytes: &[u8]) -> Result<(), DeviceFault>
        requires within { line.0 < (plain_medium self.old).count }
        requires on { IsTrue (device_of self.old).panel.power }
        requires some { 0 < length bytes.now }
        requires fits { at + length bytes.now ≤ 64 }
        ensures lines { MatchResult result
            (λ _. WritesBack (stored (plain_medium self.old) line.0 at bytes.now) (plain_medium self.new))
            (λ _. WritesBack (plain_medium self.old) (plain_medium self.new)) }
        ensures poison { Poisons line.0 ((plain_medium self.old).is_bad line.0) result }
        ensures runs { Runs 1 0 (outcome result) (device_of self.old).panel (device_of self.new).panel }
        ensures exactly { MatchResult result
            (λ _. plain_medium self.new ≡ ends_of (stored (plain_medium self.old) line.0 at bytes.now))
            (λ _. plain_medium self.new ≡ plain_medium self.old) }
        ensures fires { outcome result ≡ end_of (switches_of self.old) }
        ensures switches { switches_of self.new ≡ after_call (switches_of self.old) }
    {
        self.reach(line)?;
        self.cells.store(line, at, bytes);
        Ok(())
    }

    fn persist(&mut self, line: LineNo) -> Result<(), DeviceFault>
        requires within { line.0 < (plain_medium self.old).count }
        requires on { IsTrue (device_of self.old).panel.power }
        ensures lines { MatchResult result
            (λ _. WritesBack (persisted (plain_medium self.old) line.0) (plain_medium self.new))
            (λ _. WritesBack (plain_medium self.old) (plain_medium self.new)) }
        ensures poison { Poisons line.0 ((plain_medium self.old).is_bad line.0) result }
        ensures runs { Runs 1 1 (outcome result) (device_of self.old).panel (device_of self.new).panel }
        ensures exactly { MatchResult result
            (λ _. plain_medium self.new ≡ persisted (plain_medium self.old) line.0)
            (λ _. plain_medium self.new ≡ plain_medium self.old) }
        ensures fires { outcome result ≡ end_of (switches_of self.old) }
        ensures switches { switches_of self.new ≡ after_call (switches_after_persist (switches_of self.old)) }
    {
        self.switches.count_persist();
        self.reach(line)?;
        self.cells.persist(line);
        Ok(())
    }

    fn clear(&mut self, line: LineNo) -> Result<(), DeviceFault>
        requires within { line.0 < (plain_medium self.old).count }
        requires on { IsTrue (device_of self.old).panel.power }
        ensures lines { MatchResult result
            (λ _. WritesBack (cleared (plain_medium self.old) line.0) (plain_medium self.new))
            (λ _. WritesBack (plain_medium self.old) (plain_medium self.new)) }
        ensures poison { Poisons line.0 false result }
        ensures runs { Runs 1 0 (outcome result) (device_of self.old).panel (device_of self.new).panel }
        ensures exactly { MatchResult result
            (λ _. plain_medium self.new ≡ cleared (plain_medium self.old) line.0)
            (λ _. plain_medium self.new ≡ plain_medium self.old) }
        ensures fires { outcome result ≡ end_of (switches_of self.old) }
        ensures switches { switches_of self.new ≡ after_call (switches_of self.old) }
    {
        self.switches.count_call()?;
        self.cells.clear(line);
        Ok(())
    }

    fn poison(&mut self, line: LineNo)
        requires { line.0 < (plain_medium self.old).count }
        ensures lines { WritesBack (poisoned (plain_medium self.old) line.0) (plain_medium self.new) }
        ensures panel { (device_of self.new).panel ≡ (device_of self.old).panel }
        ensures exactly { plain_medium self.new ≡ poisoned (plain_medium self.old) line.0 }
        ensures switches { switches_of self.new ≡ switches_of self.old }
    {
        self.cells.poison(line);
    }

    fn weaken(&mut self, line: LineNo) -> Result<(), AllocError>
        requires { line.0 < (plain_medium self.old).count }
        ensures lines { MatchResult result
            (λ _. Weakens line.0 (plain_medium self.old) (plain_medium self.new))
            (λ _. WritesBack (plain_medium self.old) (plain_medium self.new)) }
        ensures panel { (device_of self.new).panel ≡ (device_of self.old).panel }
        ensures exactly { OnOk result (plain_medium self.new ≡ weakened (plain_medium self.old) line.0) }
        ensures never_refuses { IsOk result }
        ensures switches { switches_of self.new ≡ switches_of self.old }
    {
        self.cells.weaken(line);
        Ok(())
    }

    ghost sound = { λ p. is_sound-plain p };
}
