// Mounting a log, and looking at it without a store.
ghost use Rattle.std.specs.Prelude.{◌≡◌, ◌+◌, ◌*◌, ◌/◌, true, IsTrue, IfOk, IfErr, OnOk};
ghost use Rattle.line_device.specs.Medium.{WritesBack, last_image};
ghost use Rattle.line_device.specs.Panel.{Runs};
ghost use Rattle.word_log.specs.Area.{Fits, IsStrong, IsUsable, IsOf, gate_place};
ghost use Rattle.word_log.specs.Replay.{replayed, Replays};
ghost use Rattle.line_words.specs.Words.{WritesBackOutside};
ghost use Rattle.word_log.specs.Rest.{IsAtRest, EachImage};
ghost use Rattle.word_log.specs.Leaving.{LeavesLog};
ghost use Rattle.word_log.specs.Mount.{IsRefusal, LogFinds};
ghost use Rattle.word_log.specs.Protocol.{AwaitsReplay};
ghost use Rattle.word_log.specs.Outcomes.{log_outcome};
ghost use Rattle.line_words.specs.Ending.{ended};

use crate::lines::make_durable;
use crate::protocol::finish;
use crate::reading::read_log;
use crate::{Log, LogArea, LogFault};
use line_device::Lines;
use line_words::Interruption;
use std::alloc::Global;

/// Replays these changes, those of a durable log, if there are any, and closes it.
fn redo<L: Lines>(dev: &mut L, area: LogArea, changes: &[(u64, u64)]) -> Result<(), Interruption>
    requires usable { IsUsable area (L.state dev.old) }
    requires awaits { AwaitsReplay area changes.now (L.state dev.old).medium }
    ensures ok { OnOk result (IsAtRest area (L.state dev.new).medium
        (replayed area (last_image (L.state dev.old).medium))) }
    ensures images { EachImage area (L.state dev.new).medium (λ image.
        Replays area image (replayed area (last_image (L.state dev.old).medium))) }
    ensures closed { last_image (L.state dev.old).medium (gate_place area) ≡ 0
        → WritesBack (L.state dev.old).medium (L.state dev.new).medium }
    ensures outside { WritesBackOutside (IsOf area) (L.state dev.old).medium (L.state dev.new).medium }
    ensures runs { Runs (2 * area.cap + 2) (area.cap + 1) (ended result)
        (L.state dev.old).panel (L.state dev.new).panel }
{
    if changes.is_empty() {
        return Ok(());
    }
    finish(dev, area, changes)
}

/// Mounts the log at this place: replays it where its gate is open.
pub fn mount<L: Lines>(alloc: Global, dev: &mut L, area: LogArea) -> Result<Log, LogFault>
    requires on { IsTrue (L.state dev.old).panel.power }
    requires fits { Fits area (L.state dev.old).medium }
    requires strong { IsStrong area (L.state dev.old).medium }
    ensures log { IfOk result (λ log. log ≡ record { area = area; settled = true }) }
    ensures ok { OnOk result (IsAtRest area (L.state dev.new).medium
        (replayed area (last_image (L.state dev.old).medium))) }
    ensures finds { LogFinds area (L.state dev.old).medium result }
    ensures refused { IfErr result (λ fault. IsRefusal fault
        → WritesBack (L.state dev.old).medium (L.state dev.new).medium) }
    ensures leaves { LeavesLog area (L.state dev.old).medium (L.state dev.new).medium }
    ensures runs { Runs (area.log.len + area.home.len / 8 + 4 * area.cap + 6)
        (area.log.len + area.home.len / 8 + area.cap + 3) (log_outcome result)
        (L.state dev.old).panel (L.state dev.new).panel }
{
    let changes = read_log(alloc, dev, area)?;
    // What was read is to be durable before it is replayed: a cut could still take it back.
    make_durable(dev, area)?;
    redo(dev, area, changes.as_slice())?;
    Ok(Log::at_rest(area))
}

/// Refuses as `mount` does, without a store.
pub fn inspect<L: Lines>(alloc: Global, dev: &mut L, area: LogArea) -> Result<(), LogFault>
    requires on { IsTrue (L.state dev.old).panel.power }
    requires fits { Fits area (L.state dev.old).medium }
    ensures finds { LogFinds area (L.state dev.old).medium result }
    ensures lines { WritesBack (L.state dev.old).medium (L.state dev.new).medium }
    ensures runs { Runs (2 * area.cap + 2) 0 (log_outcome result) (L.state dev.old).panel (L.state dev.new).panel }
{
    let _changes = read_log(alloc, dev, area)?;
    Ok(())
}
