// Writing entries and count, which nothing reads while the gate is closed.
ghost use Rattle.std.specs.Prelude.{◌≡◌, ◌+◌, ◌*◌, ◌<◌, ◌≤◌, length, OnOk};
ghost use Rattle.line_device.specs.Medium.{last_image};
ghost use Rattle.line_device.specs.Panel.{Runs};
ghost use Rattle.word_log.specs.Area.{IsReadable, IsUsable, entry_place};
ghost use Rattle.word_log.specs.Changes.{MayCommit};
ghost use Rattle.word_log.specs.Replay.{entries};
ghost use Rattle.line_words.specs.Words.{WritesBackOutside};
ghost use Rattle.word_log.specs.Protocol.{IsBehindGate, IsRecorded};
ghost use Rattle.line_words.specs.Ending.{ended};

use crate::LogArea;
use line_device::Lines;
use line_words::{Interruption, persist_lines, store_word};

/// Stores entry k.
fn store_entry<L: Lines>(
    dev: &mut L,
    area: LogArea,
    k: u64,
    change: (u64, u64),
) -> Result<(), Interruption>
    requires room { k < area.cap }
    requires readable { IsReadable area (L.state dev.old) }
    ensures outside { WritesBackOutside (λ p. (entry_place area k ≤ p) × (p < entry_place area (k + 1)))
        (L.state dev.old).medium (L.state dev.new).medium }
    ensures place { OnOk result (last_image (L.state dev.new).medium (entry_place area k) ≡ change.0) }
    ensures value { OnOk result (last_image (L.state dev.new).medium (entry_place area k + 1) ≡ change.1) }
    ensures runs { Runs 2 0 (ended result) (L.state dev.old).panel (L.state dev.new).panel }
{
    let place = area.entry_place(k);
    store_word(dev, place, change.0)?;
    store_word(dev, place + 1, change.1)
}

fn store_entries<L: Lines>(
    dev: &mut L,
    area: LogArea,
    changes: &[(u64, u64)],
) -> Result<(), Interruption>
    requires room { length changes.now ≤ area.cap }
    requires readable { IsReadable area (L.state dev.old) }
    ensures outside { WritesBackOutside (λ p. (entry_place area 0 ≤ p) × (p < entry_place area (length changes.now)))
        (L.state dev.old).medium (L.state dev.new).medium }
    ensures ok { OnOk result
        (entries (last_image (L.state dev.new).medium) (entry_place area 0) (length changes.now) ≡ changes.now) }
    ensures runs { Runs (2 * length changes.now) 0 (ended result)
        (L.state dev.old).panel (L.state dev.new).panel }
{
    for (k, change) in changes.iter().enumerate() {
        store_entry(dev, area, k as u64, *change)?;
    }
    Ok(())
}

/// Writes entries and count, and makes them durable.
pub fn write_entries<L: Lines>(
    dev: &mut L,
    area: LogArea,
    changes: &[(u64, u64)],
) -> Result<(), Interruption>
    requires taken { MayCommit area changes.now }
    requires usable { IsUsable area (L.state dev.old) }
    ensures outside { WritesBackOutside (IsBehindGate area) (L.state dev.old).medium (L.state dev.new).medium }
    ensures ok { OnOk result (IsRecorded area changes.now (L.state dev.new).medium) }
    ensures runs { Runs (3 * length changes.now + 2) (length changes.now + 1) (ended result)
        (L.state dev.old).panel (L.state dev.new).panel }
{
    store_entries(dev, area, changes)?;
    let count = changes.len() as u64;
    store_word(dev, area.count_place(), count)?;
    // The gate stands in the count's line: stored before this, it could open on another count.
    persist_lines(dev, area.log.start, 1 + count.div_ceil(4))
}
