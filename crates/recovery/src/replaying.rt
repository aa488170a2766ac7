// The logs of a device and the tables that they keep.
ghost use Rattle.std.specs.Prelude.{◌≡◌, ◌+◌, ◌*◌, ◌/◌, None, IfErr, IfOk, IsTrue, OnOk, map, option_map};
ghost use Rattle.line_device.specs.Medium.{WritesBack, last_image};
ghost use Rattle.line_device.specs.Panel.{Runs};
ghost use Rattle.line_device.specs.Panel.Outcome.{went};
ghost use Rattle.line_words.specs.Told.{IsStop};
ghost use Rattle.word_tables.specs.Bounds.{IsValid};
ghost use Rattle.word_log.specs.Mount.Finding.{wrong_word};
ghost use Rattle.word_log.specs.Replay.{replayed};
ghost use Rattle.word_log.specs.Rest.{IsAtRest};
ghost use Rattle.block_device.specs.Area.{block_area};
ghost use Rattle.pm_volume.specs.Area.{volume_area};
ghost use Rattle.file_journal.specs.Area.{file_area};
ghost use Rattle.recovery.specs.Findings.{wrong_log};
ghost use Rattle.recovery.specs.Mounting.{Finds, IsInOrder, device_says, mount_outcome};
ghost use Rattle.recovery.specs.Tables.{AreLogs, AreOf, AreTables, LeavesLogs, ServesFiles, wrong_words};

use crate::events::find_events;
use crate::{MountFault, Mounted};
use block_device::{Blocks, block_area};
use file_journal::{Journal, file_area};
use file_pages::FilePages;
use line_device::Lines;
use nvm_base::Words;
use pm_volume::{Volume, volume_area};
use std::alloc::Global;
use word_log::{Log, mount_words};
use word_tables::Geometry;

/// The logs of a device, at rest, and the words of their tables.
#[derive(Debug, Drop)]
pub struct Tables {
    block_log: Log,
    map: Words,
    volume_log: Log,
    presence: Words,
    file_log: Log,
    file_words: Words,
}

/// Whether all logs are in order.
pub fn inspect_logs<L: Lines>(alloc: Global, dev: &mut L, geo: Geometry) -> Result<(), MountFault>
    requires order { IsInOrder geo (L.state dev.old).medium }
    requires on { IsTrue (L.state dev.old).panel.power }
    ensures finds { Finds (option_map wrong_word (wrong_log geo (last_image (L.state dev.old).medium))) result }
    ensures lines { WritesBack (L.state dev.old).medium (L.state dev.new).medium }
    ensures runs { Runs 1190 0 (mount_outcome result) (L.state dev.old).panel (L.state dev.new).panel }
{
    word_log::inspect(alloc, dev, block_area(geo))?;
    word_log::inspect(alloc, dev, volume_area(geo))?;
    word_log::inspect(alloc, dev, file_area(geo))?;
    Ok(())
}

/// Mounts all logs, which are in order, and reads their tables.
pub fn replay_logs<L: Lines>(
    alloc: Global,
    dev: &mut L,
    geo: Geometry,
) -> Result<Tables, MountFault>
    requires order { IsInOrder geo (L.state dev.old).medium }
    requires right { wrong_log geo (last_image (L.state dev.old).medium) ≡ None }
    requires on { IsTrue (L.state dev.old).panel.power }
    ensures tables { IfOk result (λ tables. AreTables geo (last_image (L.state dev.old).medium) tables) }
    ensures blocks_rest { OnOk result (IsAtRest (block_area geo) (L.state dev.new).medium (replayed (block_area geo) (last_image (L.state dev.old).medium))) }
    ensures volume_rest { OnOk result (IsAtRest (volume_area geo) (L.state dev.new).medium (replayed (volume_area geo) (last_image (L.state dev.old).medium))) }
    ensures files_rest { OnOk result (IsAtRest (file_area geo) (L.state dev.new).medium (replayed (file_area geo) (last_image (L.state dev.old).medium))) }
    ensures stop { IfErr result (IsStop device_says) }
    ensures left { LeavesLogs geo (L.state dev.old).medium (L.state dev.new).medium }
    ensures runs { Runs (geo.blocks / 4 + 6761 + 2 * ((geo.vpages + 7) / 8)) (geo.blocks / 8 + 2864 + (geo.vpages + 7) / 8)
        (mount_outcome result) (L.state dev.old).panel (L.state dev.new).panel }
{
    let (block_log, map) = mount_words(alloc, dev, block_area(geo))?;
    let (volume_log, presence) = mount_words(alloc, dev, volume_area(geo))?;
    let (file_log, file_words) = mount_words(alloc, dev, file_area(geo))?;
    Ok(Tables {
        block_log,
        map,
        volume_log,
        presence,
        file_log,
        file_words,
    })
}

/// The blocks, the volume and the files of these tables, with the events of the files, or what is wrong with the tables.
pub fn judge_tables<L: Lines>(
    alloc: Global,
    dev: &L,
    geo: Geometry,
    tables: Tables,
) -> Result<Mounted, MountFault>
    requires valid { IsValid geo }
    requires logs { AreLogs geo tables }
    requires serves { ServesFiles geo (L.state dev.now).medium tables.file_words.items }
    ensures made { IfOk result (AreOf geo (L.state dev.now).medium tables) }
    ensures finds { Finds (option_map wrong_word (wrong_words geo tables.map.items tables.presence.items tables.file_words.items)) result }
    ensures went { mount_outcome result ≡ went }
{
    let blocks = Blocks::judge(alloc, geo, tables.block_log, tables.map.as_slice())?;
    let volume = Volume::judge(alloc, geo, tables.volume_log, tables.presence.as_slice())?;
    let journal = Journal::judge(alloc, geo, tables.file_log, tables.file_words.as_slice())?;
    let files = FilePages::from(journal);
    let events = find_events(alloc, dev, &files)?;
    Ok(Mounted {
        geo,
        blocks,
        volume,
        files,
        events,
    })
}
