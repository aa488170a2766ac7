// Mounting, in two parts: the device's replays the log and reads the map's words, and the other judges them without the
// device.
ghost use Rattle.std.specs.Prelude.{◌≡◌, ◌+◌, ◌/◌, ◌<◌, ◌≤◌, true, IfOk, IsTrue, length, map};
ghost use Rattle.line_device.specs.Medium.{last_image};
ghost use Rattle.line_device.specs.Panel.{Runs};
ghost use Rattle.line_device.specs.Panel.Outcome.{went};
ghost use Rattle.word_tables.specs.Bounds.{IsValid};
ghost use Rattle.word_tables.specs.Layout.{total_lines};
ghost use Rattle.line_words.specs.Told.{outcome_by};
ghost use Rattle.word_log.specs.Area.{IsWhole};
ghost use Rattle.word_log.specs.Leaving.{LeavesLog};
ghost use Rattle.block_map.specs.States.{word_of};
ghost use Rattle.block_device.specs.Area.{block_area};
ghost use Rattle.block_device.specs.Reading.{states_read, blocks_read};
ghost use Rattle.block_device.specs.Object.{BlocksServe, IsInStep, AreDurable, HasStrongMetadata, blocks_of};
ghost use Rattle.block_device.specs.Mounting.{FindsBlocks, FindsMap, mount_says};
ghost use Rattle.block_device.specs.Images.{KeepsReads};

use crate::area::block_area;
use crate::{Blocks, MountFault};
use block_map::{BlockMap, BlockState, EXTRA_UNITS, TableFault};
use free_pool::Pool;
use line_device::Lines;
use std::alloc::{AllocError, Global};
use word_log::{Log, mount_words};
use word_tables::Geometry;

impl Blocks {
    /// Mounts the blocks of a device: replays their log where it is open, and reads their map.
    pub fn mount<L: Lines>(alloc: Global, dev: &mut L, geo: Geometry) -> Result<Self, MountFault>
        requires valid { IsValid geo }
        requires lines { (L.state dev.old).medium.count ≡ total_lines geo }
        requires strong { HasStrongMetadata geo (L.state dev.old).medium }
        requires on { IsTrue (L.state dev.old).panel.power }
        ensures ok { IfOk result (λ blocks. (blocks.geo ≡ geo) × (blocks_of blocks (L.state dev.new).medium
            ≡ blocks_read geo (L.state dev.old).medium.is_bad (last_image (L.state dev.old).medium))) }
        ensures finds { FindsBlocks geo (L.state dev.old).medium result }
        ensures leaves { LeavesLog (block_area geo) (L.state dev.old).medium (L.state dev.new).medium }
        ensures reads { IsWhole (block_area geo) (L.state dev.old).medium
            → KeepsReads geo (L.state dev.old).medium (L.state dev.new).medium }
        ensures serves { IfOk result (λ blocks.
            AreDurable geo (L.state dev.old).medium (states_read geo (last_image (L.state dev.old).medium))
            → BlocksServe blocks (L.state dev.new).medium) }
        ensures settled { IfOk result (λ blocks. IsTrue blocks.settled) }
        ensures runs { Runs (geo.blocks / 4 + 279) (geo.blocks / 8 + 84) (outcome_by mount_says result)
            (L.state dev.old).panel (L.state dev.new).panel }
    {
        let (log, words) = mount_words(alloc, dev, block_area(geo))?;
        Blocks::judge(alloc, geo, log, words.as_slice())
    }

    /// The blocks of a log at rest and of the words of their map, or what is wrong with these. So a device of several logs
    /// replays all of them before any table is judged.
    pub fn judge(alloc: Global, geo: Geometry, log: Log, words: &[u64]) -> Result<Self, MountFault>
        requires valid { IsValid geo }
        requires log { log ≡ record { area = block_area geo; settled = true } }
        requires length { length words.now ≡ geo.blocks }
        ensures blocks { IfOk result (λ blocks. (blocks.geo ≡ geo) × (map word_of blocks.map ≡ words.now)) }
        ensures settled { IfOk result (λ blocks. IsTrue blocks.settled) }
        ensures finds { FindsMap geo words.now result }
        ensures went { outcome_by mount_says result ≡ went }
    {
        let map = read_map(alloc, geo, words)?;
        let pool = pool_beside(alloc, &map, geo.blocks)?;
        Ok(Blocks {
            geo,
            log,
            map,
            pool,
            settled: true,
        })
    }
}

// The map that these words are, or the place of the first that is wrong.
fn read_map(alloc: Global, geo: Geometry, words: &[u64]) -> Result<BlockMap, MountFault>
    requires valid { IsValid geo }
    requires length { length words.now ≡ geo.blocks }
    ensures ok { IfOk result (λ map_. map word_of map_ ≡ words.now) }
    ensures finds { FindsMap geo words.now result }
    ensures went { outcome_by mount_says result ≡ went }
{
    match BlockMap::read(alloc, geo, words) {
        Ok(map) => Ok(map),
        Err(TableFault::Bad(block)) => Err(MountFault::Bad(geo.block_word(block))),
        Err(TableFault::Memory) => Err(MountFault::Memory),
    }
}

// The units that a map leaves free.
fn pool_beside(alloc: Global, map: &BlockMap, blocks: u64) -> Result<Pool, AllocError>
    requires few { blocks ≤ 4096 }
    requires all { length map.now ≡ blocks }
    ensures units { IfOk result (λ pool. length pool ≡ blocks + 64) }
    ensures in_step { IfOk result (λ pool. IsInStep map.now pool 0) }
{
    let mut pool = Pool::new(alloc, blocks + EXTRA_UNITS)?;
    for block in 0..blocks {
        if let BlockState::At(unit) = map.get(block) {
            pool.mark(unit);
        }
    }
    Ok(pool)
}
