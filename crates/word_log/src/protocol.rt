// The gate, and the order of a commit.
ghost use Rattle.std.specs.Prelude.{◌≡◌, ◌⊎◌, ◌+◌, ◌*◌, ℕ, length, OnOk};
ghost use Rattle.line_device.specs.History.{IsIn};
ghost use Rattle.line_device.specs.Panel.{Runs};
ghost use Rattle.word_log.specs.Area.{IsUsable, IsOf, gate_place};
ghost use Rattle.word_log.specs.Changes.{changed, MayCommit};
ghost use Rattle.word_log.specs.Commits.{Commits};
ghost use Rattle.word_log.specs.Replay.{Replays};
ghost use Rattle.line_words.specs.Words.{WritesBackOutside};
ghost use Rattle.word_log.specs.Rest.{IsAtRest, EachImage};
ghost use Rattle.line_words.specs.Words.{IsOnly};
ghost use Rattle.word_log.specs.Protocol.{IsWritten, IsOpen};
ghost use Rattle.line_words.specs.Ending.{ended};

use crate::LogArea;
use crate::entries::write_entries;
use crate::home::apply;
use line_device::Lines;
use line_words::{Interruption, persist_line, store_word};

/// A gate after which no entry counts.
pub const CLOSED: u64 = 0;

/// A gate after which the entries count.
pub const OPEN: u64 = 1;

/// Sets the gate, and makes it durable.
pub fn set_gate<L: Lines>(dev: &mut L, area: LogArea, gate: u64) -> Result<(), Interruption>
    requires usable { IsUsable area (L.state dev.old) }
    ensures outside { WritesBackOutside (λ p. p ≡ gate_place area) (L.state dev.old).medium (L.state dev.new).medium }
    ensures either { (x : ℕ) → IsIn x ((L.state dev.new).medium.history (gate_place area))
        → IsIn x ((L.state dev.old).medium.history (gate_place area)) ⊎ (x ≡ gate) }
    ensures ok { OnOk result (IsOnly gate ((L.state dev.new).medium.history (gate_place area))) }
    ensures runs { Runs 2 1 (ended result) (L.state dev.old).panel (L.state dev.new).panel }
{
    store_word(dev, area.gate_place(), gate)?;
    persist_line(dev, area.log.start)
}

/// Behind an open gate gives the home words their values, and closes the gate.
pub fn finish<L: Lines>(
    dev: &mut L,
    area: LogArea,
    changes: &[(u64, u64)],
) -> Result<(), Interruption>
    requires usable { IsUsable area (L.state dev.old) }
    requires written { IsWritten area changes.now (L.state dev.old).medium }
    ensures ok { OnOk result ((words : ℕ → ℕ) → IsOpen area changes.now words (L.state dev.old).medium
        → IsAtRest area (L.state dev.new).medium (changed changes.now words)) }
    ensures images { (words : ℕ → ℕ) → IsOpen area changes.now words (L.state dev.old).medium
        → EachImage area (L.state dev.new).medium (λ image. Replays area image (changed changes.now words)) }
    ensures outside { WritesBackOutside (IsOf area) (L.state dev.old).medium (L.state dev.new).medium }
    ensures runs { Runs (2 * length changes.now + 2) (length changes.now + 1) (ended result)
        (L.state dev.old).panel (L.state dev.new).panel }
{
    apply(dev, changes)?;
    set_gate(dev, area, CLOSED)
}

/// Makes the listed words the listed values, durably and together.
pub fn commit_at<L: Lines>(
    dev: &mut L,
    area: LogArea,
    changes: &[(u64, u64)],
) -> Result<(), Interruption>
    requires usable { IsUsable area (L.state dev.old) }
    requires rest { (words : ℕ → ℕ) × IsAtRest area (L.state dev.old).medium words }
    requires taken { MayCommit area changes.now }
    ensures commits { Commits area (L.state dev.old) (L.state dev.new) result changes.now }
{
    write_entries(dev, area, changes)?;
    set_gate(dev, area, OPEN)?;
    finish(dev, area, changes)
}
