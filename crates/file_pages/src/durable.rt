// Lines given new bytes durably, as cells. `line_words` has calls that do the same, of which is known only that no word has another
// value.
ghost use Rattle.std.specs.Prelude.{◌≡◌, ◌+◌, ◌*◌, ◌/◌, ◌%◌, ◌<◌, ◌≤◌, ℕ, IsTrue, OnOk, drop, length, take};
ghost use Rattle.line_device.specs.Panel.{Runs};
ghost use Rattle.line_words.specs.Words.{IsGoodLine, WritesBackBeside};
ghost use Rattle.line_words.specs.Ending.{ended};
ghost use Rattle.nvm_model.specs.Cell.{CellStands};
ghost use Rattle.file_pages.specs.Fresh.{durable_cell};

use line_device::Lines;
use line_words::{Interruption, clear_line, persist_line, store_line};
use nvm_base::{LINE, LineNo};

/// Makes lines that follow each other healthy and not weak, with 64 of the bytes each, durably.
pub(crate) fn renew_lines<L: Lines>(
    dev: &mut L,
    first: u64,
    bytes: &[u8],
) -> Result<(), Interruption>
    requires there { first + length bytes.now / 64 ≤ (L.state dev.old).medium.count }
    requires on { IsTrue (L.state dev.old).panel.power }
    requires whole { length bytes.now % 64 ≡ 0 }
    ensures ok { OnOk result ((k : ℕ) → k < length bytes.now / 64
        → CellStands (L.state dev.new).medium (first + k) (durable_cell (take 64 (drop (64 * k) bytes.now)))) }
    ensures outside { WritesBackBeside (λ n. (first ≤ n) × (n < first + length bytes.now / 64))
        (L.state dev.old).medium (L.state dev.new).medium }
    ensures runs { Runs (3 * (length bytes.now / 64)) (length bytes.now / 64) (ended result)
        (L.state dev.old).panel (L.state dev.new).panel }
{
    let size = LINE as usize;
    for k in 0..bytes.len() / size {
        renew_line(dev, first + k as u64, &bytes[size * k..size * k + size])?;
    }
    Ok(())
}

fn renew_line<L: Lines>(dev: &mut L, line: u64, bytes: &[u8]) -> Result<(), Interruption>
    requires there { line < (L.state dev.old).medium.count }
    requires on { IsTrue (L.state dev.old).panel.power }
    requires length { length bytes.now ≡ 64 }
    ensures ok { OnOk result (CellStands (L.state dev.new).medium line (durable_cell bytes.now)) }
    ensures outside { WritesBackBeside (λ n. n ≡ line) (L.state dev.old).medium (L.state dev.new).medium }
    ensures runs { Runs 3 1 (ended result) (L.state dev.old).panel (L.state dev.new).panel }
{
    make_good(dev, line)?;
    store_line(dev, line, bytes)?;
    persist_line(dev, line)
}

// Makes a line healthy and not weak: one that is bad or weak is cleared.
fn make_good<L: Lines>(dev: &mut L, line: u64) -> Result<(), Interruption>
    requires there { line < (L.state dev.old).medium.count }
    requires on { IsTrue (L.state dev.old).panel.power }
    ensures ok { OnOk result (IsGoodLine (L.state dev.new).medium line) }
    ensures outside { WritesBackBeside (λ n. n ≡ line) (L.state dev.old).medium (L.state dev.new).medium }
    ensures runs { Runs 1 0 (ended result) (L.state dev.old).panel (L.state dev.new).panel }
{
    if dev.is_bad(LineNo(line)) || dev.is_weak(LineNo(line)) {
        clear_line(dev, line)?;
    }
    Ok(())
}
