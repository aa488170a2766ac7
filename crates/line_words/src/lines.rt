// Whole lines that are neither bad nor weak.
ghost use Rattle.std.specs.Prelude.{◌≡◌, ◌+◌, ◌/◌, ◌<◌, ◌≤◌, ℕ, IsTrue, MatchResult, OnErr, OnOk, length};
ghost use Rattle.line_device.specs.Medium.{WritesBack, IsHealthy, IsLine, cleared, last_image, flushed, stored};
ghost use Rattle.line_device.specs.Panel.{Runs};
ghost use Rattle.line_words.specs.Words.{IsOnly, IsGoodLine};
ghost use Rattle.line_words.specs.Ending.{ended};

use crate::Interruption;
use crate::interruption::stop_of;
use line_device::Lines;
use nvm_base::LineNo;

/// Makes a line durable.
pub fn persist_line<L: Lines>(dev: &mut L, line: u64) -> Result<(), Interruption>
    requires good_line { IsGoodLine (L.state dev.old).medium line }
    requires on { IsTrue (L.state dev.old).panel.power }
    ensures lines { MatchResult result
        (λ _. WritesBack (flushed (L.state dev.old).medium line) (L.state dev.new).medium)
        (λ _. WritesBack (L.state dev.old).medium (L.state dev.new).medium) }
    ensures runs { Runs 1 1 (ended result) (L.state dev.old).panel (L.state dev.new).panel }
{
    match dev.persist(LineNo(line)) {
        Ok(()) => Ok(()),
        Err(fault) => Err(stop_of(fault, line)),
    }
}

/// Makes a number of lines durable.
pub fn persist_lines<L: Lines>(dev: &mut L, first: u64, count: u64) -> Result<(), Interruption>
    requires end { first + count ≤ (L.state dev.old).medium.count }
    requires good_line { (line : ℕ) → first ≤ line → line < first + count → IsGoodLine (L.state dev.old).medium line }
    requires on { IsTrue (L.state dev.old).panel.power }
    ensures lines { WritesBack (L.state dev.old).medium (L.state dev.new).medium }
    ensures ok { OnOk result ((p : ℕ) → first ≤ p / 8 → p / 8 < first + count
        → IsOnly (last_image (L.state dev.old).medium p) ((L.state dev.new).medium.history p)) }
    ensures runs { Runs count count (ended result) (L.state dev.old).panel (L.state dev.new).panel }
{
    for k in 0..count {
        persist_line(dev, first + k)?;
    }
    Ok(())
}

/// Makes a line zeros, healthy, not weak and durable.
pub fn clear_line<L: Lines>(dev: &mut L, line: u64) -> Result<(), Interruption>
    requires there { line < (L.state dev.old).medium.count }
    requires on { IsTrue (L.state dev.old).panel.power }
    ensures lines { MatchResult result
        (λ _. WritesBack (cleared (L.state dev.old).medium line) (L.state dev.new).medium)
        (λ _. WritesBack (L.state dev.old).medium (L.state dev.new).medium) }
    ensures runs { Runs 1 0 (ended result) (L.state dev.old).panel (L.state dev.new).panel }
{
    match dev.clear(LineNo(line)) {
        Ok(()) => Ok(()),
        Err(fault) => Err(stop_of(fault, line)),
    }
}

/// Stores all bytes of a line.
pub fn store_line<L: Lines>(dev: &mut L, line: u64, bytes: &[u8]) -> Result<(), Interruption>
    requires healthy { IsHealthy (L.state dev.old).medium line }
    requires on { IsTrue (L.state dev.old).panel.power }
    requires length { length bytes.now ≡ 64 }
    ensures lines { MatchResult result
        (λ _. WritesBack (stored (L.state dev.old).medium line 0 bytes.now) (L.state dev.new).medium)
        (λ _. WritesBack (L.state dev.old).medium (L.state dev.new).medium) }
    ensures runs { Runs 1 0 (ended result) (L.state dev.old).panel (L.state dev.new).panel }
{
    match dev.store(LineNo(line), 0, bytes) {
        Ok(()) => Ok(()),
        Err(fault) => Err(stop_of(fault, line)),
    }
}

/// Reads all bytes of a line as last stored.
pub fn load_line<L: Lines>(dev: &mut L, line: u64, out: &mut [u8]) -> Result<(), Interruption>
    requires healthy { IsHealthy (L.state dev.old).medium line }
    requires on { IsTrue (L.state dev.old).panel.power }
    requires length { length out.old ≡ 64 }
    ensures ok { OnOk result (IsLine (L.state dev.old).medium line out.new) }
    ensures err { OnErr result (out.new ≡ out.old) }
    ensures lines { WritesBack (L.state dev.old).medium (L.state dev.new).medium }
    ensures runs { Runs 1 0 (ended result) (L.state dev.old).panel (L.state dev.new).panel }
{
    match dev.load(LineNo(line)) {
        Ok(bytes) => {
            out.copy_from_slice(bytes);
            Ok(())
        }
        Err(fault) => Err(stop_of(fault, line)),
    }
}
