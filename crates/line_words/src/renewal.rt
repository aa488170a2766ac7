// Lines given new bytes whatever they were: bad, weak, or with words that are not durable.
ghost use Rattle.std.specs.Prelude.{◌≡◌, ◌+◌, ◌*◌, ◌/◌, ◌%◌, ◌<◌, ◌≤◌, ℕ, IsTrue, OnOk, drop, length, take};
ghost use Rattle.line_device.specs.Panel.{Runs};
ghost use Rattle.line_words.specs.Words.{HoldsLine, IsGoodLine, WritesBackBeside};
ghost use Rattle.line_words.specs.Ending.{ended};

use crate::Interruption;
use crate::lines::{clear_line, persist_line, store_line};
use line_device::Lines;
use nvm_base::{LINE, LineNo};

/// Makes a line healthy and not weak, with these bytes, durably.
pub fn renew_line<L: Lines>(dev: &mut L, line: u64, bytes: &[u8]) -> Result<(), Interruption>
    requires there { line < (L.state dev.old).medium.count }
    requires on { IsTrue (L.state dev.old).panel.power }
    requires length { length bytes.now ≡ 64 }
    ensures ok { OnOk result (HoldsLine (L.state dev.new).medium line bytes.now) }
    ensures outside { WritesBackBeside (λ n. n ≡ line) (L.state dev.old).medium (L.state dev.new).medium }
    ensures runs { Runs 3 1 (ended result) (L.state dev.old).panel (L.state dev.new).panel }
{
    make_good(dev, line)?;
    store_line(dev, line, bytes)?;
    persist_line(dev, line)
}

// Makes a line healthy and not weak: one that is bad or weak is cleared.
fn make_good<L: Lines>(dev: &mut L, line: u64) -> Result<(), Interruption>
    requires there { line < (L.state dev.old).medium.count }
    requires on { IsTrue (L.state dev.old).panel.power }
    ensures ok { OnOk result (IsGoodLine (L.state dev.new).medium line) }
    ensures outside { WritesBackBeside (λ n. n ≡ line) (L.state dev.old).medium (L.state dev.new).medium }
    ensures runs { Runs 1 0 (ended result) (L.state dev.old).panel (L.state dev.new).panel }
{
    if dev.is_bad(LineNo(line)) || dev.is_weak(LineNo(line)) {
        clear_line(dev, line)?;
    }
    Ok(())
}

/// Renews lines that follow each other, with 64 of the bytes each.
pub fn renew_lines<L: Lines>(dev: &mut L, first: u64, bytes: &[u8]) -> Result<(), Interruption>
    requires there { first + length bytes.now / 64 ≤ (L.state dev.old).medium.count }
    requires on { IsTrue (L.state dev.old).panel.power }
    requires whole { length bytes.now % 64 ≡ 0 }
    ensures ok { OnOk result ((k : ℕ) → k < length bytes.now / 64
        → HoldsLine (L.state dev.new).medium (first + k) (take 64 (drop (64 * k) bytes.now))) }
    ensures outside { WritesBackBeside (λ n. (first ≤ n) × (n < first + length bytes.now / 64))
        (L.state dev.old).medium (L.state dev.new).medium }
    ensures runs { Runs (3 * (length bytes.now / 64)) (length bytes.now / 64) (ended result)
        (L.state dev.old).panel (L.state dev.new).panel }
{
    let size = LINE as usize;
    for k in 0..bytes.len() / size {
        renew_line(dev, first + k as u64, &bytes[size * k..size * k + size])?;
    }
    Ok(())
}
