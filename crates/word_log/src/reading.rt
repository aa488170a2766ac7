// Reads a log, and tells whether it is in order.
ghost use Rattle.std.specs.Prelude.{◌≡◌, ◌+◌, ◌*◌, ◌&&◌, ◌<◌, ◌≤◌, ◌^◌, [], None, not, length, IsTrue, IfOk};
ghost use Rattle.line_device.specs.Medium.{WritesBack, last_image};
ghost use Rattle.line_device.specs.Panel.{Runs};
ghost use Rattle.word_log.specs.Area.{Fits, IsReadable, is_home, gate_place, count_place, entry_place};
ghost use Rattle.word_log.specs.Changes.{lists};
ghost use Rattle.word_log.specs.Replay.{entries, listed, wrong_entry, wrong_at, first_wrong};
ghost use Rattle.word_log.specs.Mount.{LogFinds, TellsPlace};
ghost use Rattle.word_log.specs.Outcomes.{log_outcome};
ghost use Rattle.line_words.specs.Ending.{ended};

use crate::lines::bad_line;
use crate::{LogArea, LogFault};
use line_device::Lines;
use line_words::{Interruption, load_word};
use nvm_base::Buffer;
use std::alloc::Global;

/// Changes of words: places and values.
pub type Changes = Buffer<(u64, u64)>;

/// Entry k.
fn read_entry<L: Lines>(dev: &mut L, area: LogArea, k: u64) -> Result<(u64, u64), Interruption>
    requires room { k < area.cap }
    requires readable { IsReadable area (L.state dev.old) }
    ensures entry { IfOk result (λ entry. entry ≡ (
      last_image (L.state dev.old).medium (entry_place area k),
      last_image (L.state dev.old).medium (entry_place area k + 1),
    )) }
    ensures lines { WritesBack (L.state dev.old).medium (L.state dev.new).medium }
    ensures runs { Runs 2 0 (ended result) (L.state dev.old).panel (L.state dev.new).panel }
{
    let at = area.entry_place(k);
    let place = load_word(dev, at)?;
    let value = load_word(dev, at + 1)?;
    Ok((place, value))
}

fn read_entries<L: Lines>(
    alloc: Global,
    dev: &mut L,
    area: LogArea,
    count: u64,
) -> Result<Changes, LogFault>
    requires room { count ≤ area.cap }
    requires readable { IsReadable area (L.state dev.old) }
    ensures stops { TellsPlace None result }
    ensures entries { IfOk result (λ changes. changes.items
        ≡ entries (last_image (L.state dev.old).medium) (entry_place area 0) count) }
    ensures lines { WritesBack (L.state dev.old).medium (L.state dev.new).medium }
    ensures runs { Runs (2 * count) 0 (log_outcome result) (L.state dev.old).panel (L.state dev.new).panel }
{
    let mut changes = Buffer::new(alloc);
    for k in 0..count {
        let entry = read_entry(dev, area, k)?;
        changes.push(entry)?;
    }
    Ok(changes)
}

/// One of these changes is of this place.
fn has(changes: &[(u64, u64)], place: u64) -> bool
    ensures { result ≡ lists changes.now place }
{
    changes.iter().any(|change| change.0 == place)
}

/// An entry may be of this place, after these.
fn is_next(area: LogArea, before: &[(u64, u64)], place: u64) -> bool
    ensures { result ≡ (is_home area place && not (lists before.now place)) }
{
    area.has_home(place) && !has(before, place)
}

/// Where the first wrong one of these entries stands.
fn wrong_place(area: LogArea, entries: &[(u64, u64)]) -> Option<u64>
    requires { entry_place area (length entries.now) < 2 ^ 64 }
    ensures { result ≡ wrong_entry area (entry_place area 0) [] entries.now }
{
    for (k, entry) in entries.iter().enumerate() {
        if !is_next(area, &entries[..k], entry.0) {
            return Some(area.entry_place(k as u64));
        }
    }
    None
}

/// The changes of a log whose gate is open.
fn read_open<L: Lines>(alloc: Global, dev: &mut L, area: LogArea) -> Result<Changes, LogFault>
    requires readable { IsReadable area (L.state dev.old) }
    ensures tells { TellsPlace (wrong_at 1 area (last_image (L.state dev.old).medium)) result }
    ensures changes { IfOk result (λ changes. changes.items ≡ entries (last_image (L.state dev.old).medium)
        (entry_place area 0) (last_image (L.state dev.old).medium (count_place area))) }
    ensures lines { WritesBack (L.state dev.old).medium (L.state dev.new).medium }
    ensures runs { Runs (2 * area.cap + 1) 0 (log_outcome result) (L.state dev.old).panel (L.state dev.new).panel }
{
    let count = load_word(dev, area.count_place())?;
    if count == 0 || count > area.cap {
        return Err(LogFault::Bad(area.count_place()));
    }
    let changes = read_entries(alloc, dev, area, count)?;
    match wrong_place(area, changes.as_slice()) {
        Some(place) => Err(LogFault::Bad(place)),
        None => Ok(changes),
    }
}

/// The changes of a log whose lines are good.
fn read_whole<L: Lines>(alloc: Global, dev: &mut L, area: LogArea) -> Result<Changes, LogFault>
    requires readable { IsReadable area (L.state dev.old) }
    ensures tells { TellsPlace (first_wrong area (last_image (L.state dev.old).medium)) result }
    ensures changes { IfOk result (λ changes. changes.items ≡ listed area (last_image (L.state dev.old).medium)) }
    ensures lines { WritesBack (L.state dev.old).medium (L.state dev.new).medium }
    ensures runs { Runs (2 * area.cap + 2) 0 (log_outcome result) (L.state dev.old).panel (L.state dev.new).panel }
{
    match load_word(dev, area.gate_place())? {
        0 => Ok(Buffer::new(alloc)),
        1 => read_open(alloc, dev, area),
        _ => Err(LogFault::Bad(area.gate_place())),
    }
}

/// The changes that a log lists.
pub fn read_log<L: Lines>(alloc: Global, dev: &mut L, area: LogArea) -> Result<Changes, LogFault>
    requires fits { Fits area (L.state dev.old).medium }
    requires on { IsTrue (L.state dev.old).panel.power }
    ensures finds { LogFinds area (L.state dev.old).medium result }
    ensures changes { IfOk result (λ changes. changes.items ≡ listed area (last_image (L.state dev.old).medium)) }
    ensures lines { WritesBack (L.state dev.old).medium (L.state dev.new).medium }
    ensures runs { Runs (2 * area.cap + 2) 0 (log_outcome result) (L.state dev.old).panel (L.state dev.new).panel }
{
    match bad_line(dev, area) {
        Some(line) => Err(LogFault::Poisoned(line)),
        None => read_whole(alloc, dev, area),
    }
}
