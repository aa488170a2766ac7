ghost use Rattle.std.specs.Prelude.{false, true, ◌||◌, ◌≡◌, ◌+◌, ◌<◌, ◌≤◌, length, IsTrue, IfOk, MatchResult, IsOk, OnOk};
ghost use Rattle.std.specs.Borrow.{sem};
ghost use Rattle.std.specs.Io.BufRead.{Rests};
ghost use Rattle.line_device.specs.Medium.{WritesBack, IsLine, Weakens, stored, persisted, cleared, poisoned};
ghost use Rattle.line_device.specs.Panel.{Runs, outcome};
ghost use Rattle.line_device.specs.Device.{Poisons};
ghost use Rattle.line_module.specs.Memory.{memory_after_store, memory_after_persist, memory_after_clear, memory_after_poison, memory_after_weaken};
ghost use Rattle.line_device.specs.Switches.{end_of, after_call, switches_after_persist};
ghost use Rattle.line_module.specs.Module.{memory_of, module_device, module_medium, module_switches, LeavesMemory, IsUnarmed};
ghost use Rattle.line_module.specs.contracts.module.Module.{the_row};

use super::Module;
use line_device::{Counts, DeviceFault, Lines};
use nvm_base::LineNo;
use std::alloc::AllocError;

impl Lines for Module {
    ghost use Rattle.line_module.specs.ModuleSound.{is_sound-module};

    ghost state = { module_device };

    ghost load_leaves = { LeavesMemory };

    fn lines(&self) -> u64 {
        match &self.cells {
            Some(cells) => cells.lines(),
            None => 0,
        }
    }

    fn power(&self) -> bool {
        self.switches.power()
    }

    fn counts(&self) -> Counts {
        self.switches.counts()
    }

    fn is_bad(&self, line: LineNo) -> bool {
        self.bad(line)
    }

    fn is_weak(&self, line: LineNo) -> bool {
        match &self.cells {
            Some(cells) => cells.is_weak(line),
            None => false,
        }
    }

    fn load(&mut self, line: LineNo) -> Result<&[u8], DeviceFault>
        requires within { line.0 < (module_medium self.old).count }
        requires on { IsTrue (module_device self.old).panel.power }
        ensures bytes { IfOk result (λ bytes. IsLine (module_medium self.old) line.0 bytes.now) }
        ensures poison { Poisons line.0 ((module_medium self.old).is_bad line.0) result }
        ensures fires { outcome result ≡ end_of (module_switches self.old) }
        ensures outright { (module_medium self.old).is_bad line.0 ≡ false → IsUnarmed (module_device self.old).panel → IsOk result }
        ensures* after { sem 𝓛 (Rests the_row self.entry (λ new.
            WritesBack (module_medium self.old) (module_medium new)
            × Runs 1 0 (outcome result) (module_device self.old).panel (module_device new).panel
            × LeavesMemory self.old new)) }
    {
        self.reach(line)?;
        Ok(self.bytes(line))
    }

    fn store(&mut self, line: LineNo, at: u64, bytes: &[u8]) -> Result<(), DeviceFault>
        requires within { line.0 < (module_medium self.old).count }
        requires on { IsTrue (module_device self.old).panel.power }
        requires some { 0 < length bytes.now }
        requires fits { at + length bytes.now ≤ 64 }
        ensures lines { MatchResult result
            (λ _. WritesBack (stored (module_medium self.old) line.0 at bytes.now) (module_medium self.new))
            (λ _. WritesBack (module_medium self.old) (module_medium self.new)) }
        ensures poison { Poisons line.0 ((module_medium self.old).is_bad line.0) result }
        ensures runs { Runs 1 0 (outcome result) (module_device self.old).panel (module_device self.new).panel }
        ensures exactly { MatchResult result
            (λ _. memory_of self.new ≡ memory_after_store (memory_of self.old) line.0 at bytes.now)
            (λ _. memory_of self.new ≡ memory_of self.old) }
        ensures fires { outcome result ≡ end_of (module_switches self.old) }
        ensures outright { (module_medium self.old).is_bad line.0 ≡ false → IsUnarmed (module_device self.old).panel → IsOk result }
        ensures switches { module_switches self.new ≡ after_call (module_switches self.old) }
    {
        self.reach(line)?;
        match &mut self.cells {
            Some(cells) => cells.store(line, at, bytes),
            None => {}
        }
        Ok(())
    }

    #[inline]
    fn persist(&mut self, line: LineNo) -> Result<(), DeviceFault>
        requires within { line.0 < (module_medium self.old).count }
        requires on { IsTrue (module_device self.old).panel.power }
        ensures lines { MatchResult result
            (λ _. WritesBack (persisted (module_medium self.old) line.0) (module_medium self.new))
            (λ _. WritesBack (module_medium self.old) (module_medium self.new)) }
        ensures poison { Poisons line.0 ((module_medium self.old).is_bad line.0) result }
        ensures runs { Runs 1 1 (outcome result) (module_device self.old).panel (module_device self.new).panel }
        ensures exactly { MatchResult result
            (λ _. memory_of self.new ≡ memory_after_persist (memory_of self.old) line.0)
            (λ _. memory_of self.new ≡ memory_of self.old) }
        ensures fires { outcome result ≡ end_of (module_switches self.old) }
        ensures outright { (module_medium self.old).is_bad line.0 ≡ false → IsUnarmed (module_device self.old).panel → IsOk result }
        ensures switches { module_switches self.new ≡ after_call (switches_after_persist (module_switches self.old)) }
    {
        self.switches.count_persist();
        self.reach(line)?;
        match &mut self.cells {
            Some(cells) => cells.persist(line),
            None => {}
        }
        Ok(())
    }

    fn clear(&mut self, line: LineNo) -> Result<(), DeviceFault>
        requires within { line.0 < (module_medium self.old).count }
        requires on { IsTrue (module_device self.old).panel.power }
        ensures lines { MatchResult result
            (λ _. WritesBack (cleared (module_medium self.old) line.0) (module_medium self.new))
            (λ _. WritesBack (module_medium self.old) (module_medium self.new)) }
        ensures poison { Poisons line.0 false result }
        ensures runs { Runs 1 0 (outcome result) (module_device self.old).panel (module_device self.new).panel }
        ensures exactly { MatchResult result
            (λ _. memory_of self.new ≡ memory_after_clear (memory_of self.old) line.0)
            (λ _. memory_of self.new ≡ memory_of self.old) }
        ensures fires { outcome result ≡ end_of (module_switches self.old) }
        ensures outright { IsUnarmed (module_device self.old).panel → IsOk result }
        ensures switches { module_switches self.new ≡ after_call (module_switches self.old) }
    {
        self.switches.count_call()?;
        match &mut self.cells {
            Some(cells) => cells.clear(line),
            None => {}
        }
        Ok(())
    }

    fn poison(&mut self, line: LineNo)
        requires { line.0 < (module_medium self.old).count }
        ensures lines { WritesBack (poisoned (module_medium self.old) line.0) (module_medium self.new) }
        ensures panel { (module_device self.new).panel ≡ (module_device self.old).panel }
        ensures exactly { memory_of self.new ≡ memory_after_poison (memory_of self.old) line.0 }
        ensures switches { module_switches self.new ≡ module_switches self.old }
    {
        match &mut self.cells {
            Some(cells) => cells.poison(line),
            None => {}
        }
    }

    fn weaken(&mut self, line: LineNo) -> Result<(), AllocError>
        requires { line.0 < (module_medium self.old).count }
        ensures lines { MatchResult result
            (λ _. Weakens line.0 (module_medium self.old) (module_medium self.new))
            (λ _. WritesBack (module_medium self.old) (module_medium self.new)) }
        ensures panel { (module_device self.new).panel ≡ (module_device self.old).panel }
        ensures exactly { MatchResult result
            (λ _. memory_of self.new ≡ memory_after_weaken (memory_of self.old) line.0)
            (λ _. memory_of self.new ≡ memory_of self.old) }
        ensures succeeds { ((module_medium self.old).is_bad line.0 || (module_medium self.old).is_weak line.0) ≡ true → IsOk result }
        ensures switches { module_switches self.new ≡ module_switches self.old }
    {
        match &mut self.cells {
            Some(cells) => cells.weaken(line),
            None => Ok(()),
        }
    }

    ghost sound = { λ p. is_sound-module p };
}
