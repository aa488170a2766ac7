// Lines made zeros, whatever they were.
ghost use Rattle.std.specs.Prelude.{◌≡◌, ◌+◌, ◌<◌, ◌≤◌, ◌^◌, ℕ, false, Some, IsTrue, OnErr, OnOk};
ghost use Rattle.line_device.specs.Medium.{WritesBack};
ghost use Rattle.line_device.specs.Panel.{Runs};
ghost use Rattle.line_words.specs.Ending.{ended};
ghost use Rattle.nvm_model.specs.Cell.{CellStands, zero_cell};
ghost use Rattle.page_lines.specs.Placed.{AreApart, IsPlacedAmong, one_there, there_among};
ghost use Rattle.page_lines.specs.Turns.{MayClear, MayTurn, WritesBackOthers};

use crate::Places;
use line_device::Lines;
use line_words::{Interruption, clear_line};

/// Makes each of a number of lines, from the first on, that exists one of zeros: healthy, not weak and durable, by one
/// call each.
pub fn clear_lines<L: Lines, P: Places>(
    dev: &mut L,
    places: &P,
    first: u64,
    count: u64,
) -> Result<(), Interruption>
    requires within { first + count ≤ 2 ^ 40 }
    requires apart { AreApart (P.place places.now) (L.state dev.old).medium.count }
    requires on { IsTrue (L.state dev.old).panel.power }
    ensures ok { OnOk result ((n line : ℕ) → first ≤ n → n < first + count → P.place places.now n ≡ Some line
        → CellStands (L.state dev.new).medium line zero_cell) }
    ensures err { OnErr result ((n line : ℕ) → P.place places.now n ≡ Some line
        → MayTurn MayClear line (L.state dev.old).medium (L.state dev.new).medium) }
    ensures good { (line : ℕ) → (L.state dev.old).medium.is_bad line ≡ false → (L.state dev.new).medium.is_bad line ≡ false }
    ensures outside { WritesBackOthers (IsPlacedAmong (P.place places.now) first count)
        (L.state dev.old).medium (L.state dev.new).medium }
    ensures runs { Runs (there_among (P.place places.now) first count) 0 (ended result)
        (L.state dev.old).panel (L.state dev.new).panel }
{
    let end = first + count;
    let mut stretch = places.stretch(first, end);
    for k in 0..count {
        let n = first + k;
        stretch = stretch.reaching(places, n, end);
        clear_at(dev, &stretch, n)?;
    }
    Ok(())
}

// Makes line n zeros, where it is there.
fn clear_at<L: Lines, P: Places>(dev: &mut L, places: &P, n: u64) -> Result<(), Interruption>
    requires apart { AreApart (P.place places.now) (L.state dev.old).medium.count }
    requires on { IsTrue (L.state dev.old).panel.power }
    ensures ok { OnOk result ((line : ℕ) → P.place places.now n ≡ Some line
        → CellStands (L.state dev.new).medium line zero_cell) }
    ensures err { OnErr result (WritesBack (L.state dev.old).medium (L.state dev.new).medium) }
    ensures good { (line : ℕ) → (L.state dev.old).medium.is_bad line ≡ false → (L.state dev.new).medium.is_bad line ≡ false }
    ensures outside { WritesBackOthers (λ line. P.place places.now n ≡ Some line)
        (L.state dev.old).medium (L.state dev.new).medium }
    ensures runs { Runs (one_there (P.place places.now n)) 0 (ended result)
        (L.state dev.old).panel (L.state dev.new).panel }
{
    match places.line(n) {
        Some(line) => clear_line(dev, line),
        None => Ok(()),
    }
}
