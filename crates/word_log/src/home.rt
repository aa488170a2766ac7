// Giving home words their values.
ghost use Rattle.std.specs.Prelude.{◌≡◌, ◌*◌, ◌/◌, ℕ, length, IsTrue, OnOk};
ghost use Rattle.line_device.specs.Medium.{WritesBack, last_image};
ghost use Rattle.line_device.specs.Panel.{Runs};
ghost use Rattle.word_log.specs.Changes.{changed, lists, IsDistinct};
ghost use Rattle.line_words.specs.Words.{IsGoodLine, WritesBackOutside};
ghost use Rattle.line_words.specs.Words.{IsOnly};
ghost use Rattle.line_words.specs.Ending.{ended};

use line_device::Lines;
use line_words::{Interruption, persist_line, store_word};

fn store_home<L: Lines>(dev: &mut L, changes: &[(u64, u64)]) -> Result<(), Interruption>
    requires good_line { (p : ℕ) → IsTrue (lists changes.now p) → IsGoodLine (L.state dev.old).medium (p / 8) }
    requires distinct { IsDistinct changes.now }
    requires on { IsTrue (L.state dev.old).panel.power }
    ensures outside { WritesBackOutside (λ p. IsTrue (lists changes.now p))
        (L.state dev.old).medium (L.state dev.new).medium }
    ensures ok { OnOk result ((p : ℕ) → last_image (L.state dev.new).medium p
        ≡ changed changes.now (last_image (L.state dev.old).medium) p) }
    ensures runs { Runs (length changes.now) 0 (ended result)
        (L.state dev.old).panel (L.state dev.new).panel }
{
    for change in changes {
        store_word(dev, change.0, change.1)?;
    }
    Ok(())
}

fn persist_home<L: Lines>(dev: &mut L, changes: &[(u64, u64)]) -> Result<(), Interruption>
    requires good_line { (p : ℕ) → IsTrue (lists changes.now p) → IsGoodLine (L.state dev.old).medium (p / 8) }
    requires on { IsTrue (L.state dev.old).panel.power }
    ensures lines { WritesBack (L.state dev.old).medium (L.state dev.new).medium }
    ensures ok { OnOk result ((p : ℕ) → IsTrue (lists changes.now p)
        → IsOnly (last_image (L.state dev.old).medium p) ((L.state dev.new).medium.history p)) }
    ensures runs { Runs (length changes.now) (length changes.now) (ended result)
        (L.state dev.old).panel (L.state dev.new).panel }
{
    for change in changes {
        persist_line(dev, change.0 / 8)?;
    }
    Ok(())
}

/// Gives the listed words their values, and makes them durable.
pub fn apply<L: Lines>(dev: &mut L, changes: &[(u64, u64)]) -> Result<(), Interruption>
    requires good_line { (p : ℕ) → IsTrue (lists changes.now p) → IsGoodLine (L.state dev.old).medium (p / 8) }
    requires distinct { IsDistinct changes.now }
    requires on { IsTrue (L.state dev.old).panel.power }
    ensures outside { WritesBackOutside (λ p. IsTrue (lists changes.now p))
        (L.state dev.old).medium (L.state dev.new).medium }
    ensures ok { OnOk result ((p : ℕ) → IsTrue (lists changes.now p)
        → IsOnly (changed changes.now (last_image (L.state dev.old).medium) p) ((L.state dev.new).medium.history p)) }
    ensures runs { Runs (2 * length changes.now) (length changes.now) (ended result)
        (L.state dev.old).panel (L.state dev.new).panel }
{
    store_home(dev, changes)?;
    persist_home(dev, changes)
}
