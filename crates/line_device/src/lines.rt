// The calls on lines, which every layer above uses.
ghost use Rattle.std.specs.Prelude.{false, ◌≡◌, ◌+◌, ◌<◌, ◌≤◌, length, IsTrue, IfOk, MatchResult, OnOk, OnErr};
ghost use Rattle.std.specs.Borrow.{sem};
ghost use Rattle.std.specs.Io.BufRead.{Rests};
ghost use Rattle.line_device.specs.Medium.{WritesBack, IsSound, IsLine, Weakens, stored, persisted, cleared, poisoned};
ghost use Rattle.line_device.specs.Panel.{Runs, outcome};
ghost use Rattle.line_device.specs.Panel.Outcome.{went};
ghost use Rattle.line_device.specs.Device.{Device, Poisons};

use crate::{Counts, DeviceFault};
use nvm_base::LineNo;
use std::alloc::AllocError;

pub trait Lines {
    /// Its lines, and what it shows beside them.
    ghost state: { Self → Device };

    /// What a load leaves besides, on a device that reports more than its state.
    ghost load_leaves: { Self → Self → Type 0 } = { λ _ _. Unit {0} };

    fn lines(&self) -> u64
        ensures { result ≡ (state self.now).medium.count };

    fn power(&self) -> bool
        ensures { result ≡ (state self.now).panel.power };

    fn counts(&self) -> Counts
        ensures { result ≡ (state self.now).panel.counts };

    fn is_bad(&self, line: LineNo) -> bool
        requires { line.0 < (state self.now).medium.count }
        ensures { result ≡ (state self.now).medium.is_bad line.0 };

    fn is_weak(&self, line: LineNo) -> bool
        requires { line.0 < (state self.now).medium.count }
        ensures { result ≡ (state self.now).medium.is_weak line.0 };

    /// The line's bytes as last stored, lent by the device.
    fn load(&mut self, line: LineNo) -> Result<&[u8], DeviceFault>
        requires within { line.0 < (state self.old).medium.count }
        requires on { IsTrue (state self.old).panel.power }
        ensures bytes { IfOk result (λ bytes. IsLine (state self.old).medium line.0 bytes.now) }
        ensures poison { Poisons line.0 ((state self.old).medium.is_bad line.0) result }
        ensures* after { sem 𝓛 (Rests Self.row self.entry (λ new.
            WritesBack (state self.old).medium (state new).medium
            × Runs 1 0 (outcome result) (state self.old).panel (state new).panel
            × load_leaves self.old new)) };

    /// Puts bytes at an offset of the line. Until a persist, a cut may lose them, word by word.
    fn store(&mut self, line: LineNo, at: u64, bytes: &[u8]) -> Result<(), DeviceFault>
        requires within { line.0 < (state self.old).medium.count }
        requires on { IsTrue (state self.old).panel.power }
        requires some { 0 < length bytes.now }
        requires fits { at + length bytes.now ≤ 64 }
        ensures lines { MatchResult result
            (λ _. WritesBack (stored (state self.old).medium line.0 at bytes.now) (state self.new).medium)
            (λ _. WritesBack (state self.old).medium (state self.new).medium) }
        ensures poison { Poisons line.0 ((state self.old).medium.is_bad line.0) result }
        ensures runs { Runs 1 0 (outcome result) (state self.old).panel (state self.new).panel };

    /// Makes the line durable. A weak line becomes bad, and the answer is Ok.
    fn persist(&mut self, line: LineNo) -> Result<(), DeviceFault>
        requires within { line.0 < (state self.old).medium.count }
        requires on { IsTrue (state self.old).panel.power }
        ensures lines { MatchResult result
            (λ _. WritesBack (persisted (state self.old).medium line.0) (state self.new).medium)
            (λ _. WritesBack (state self.old).medium (state self.new).medium) }
        ensures poison { Poisons line.0 ((state self.old).medium.is_bad line.0) result }
        ensures runs { Runs 1 1 (outcome result) (state self.old).panel (state self.new).panel };

    /// Makes the line zeros, healthy, not weak and durable, in one step.
    fn clear(&mut self, line: LineNo) -> Result<(), DeviceFault>
        requires within { line.0 < (state self.old).medium.count }
        requires on { IsTrue (state self.old).panel.power }
        ensures lines { MatchResult result
            (λ _. WritesBack (cleared (state self.old).medium line.0) (state self.new).medium)
            (λ _. WritesBack (state self.old).medium (state self.new).medium) }
        ensures poison { Poisons line.0 false result }
        ensures runs { Runs 1 0 (outcome result) (state self.old).panel (state self.new).panel };

    /// A media error takes the line, with the power on or off.
    fn poison(&mut self, line: LineNo)
        requires { line.0 < (state self.old).medium.count }
        ensures lines { WritesBack (poisoned (state self.old).medium line.0) (state self.new).medium }
        ensures panel { (state self.new).panel ≡ (state self.old).panel };

    /// Marks a healthy line as weak: it works until its next persist, which makes it bad.
    fn weaken(&mut self, line: LineNo) -> Result<(), AllocError>
        requires { line.0 < (state self.old).medium.count }
        ensures lines { MatchResult result
            (λ _. Weakens line.0 (state self.old).medium (state self.new).medium)
            (λ _. WritesBack (state self.old).medium (state self.new).medium) }
        ensures panel { (state self.new).panel ≡ (state self.old).panel };

    /// Every device is sound.
    ghost sound: { (device : Self) → IsSound (state device).medium };
}
