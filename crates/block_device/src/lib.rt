//! Logical blocks of 512 bytes on a device of lines: written to fresh units, and switched by the words of a map.
// Each block is absent, scarred, or on a unit of eight lines, as its word of the block map says. A write never touches
// the unit that a block is on. It goes to a free one, durably; then the log gives the block's word its new value, and the
// old unit is free. There are 64 more units than blocks, so one is always free.
#![tactic(auto)]

mod area;
mod atomic;
mod change;
mod changing;
mod checks;
mod fault;
mod mounting;
mod multiwrite;
mod preparing;
mod queries;
mod reading;
mod switching;
mod writing;

pub use area::block_area;
use block_map::BlockMap;
pub use fault::{BlockFault, MountFault};
use free_pool::Pool;
use std::marker::Model;
use word_log::Log;
use word_tables::Geometry;

/// The blocks of a mounted device.
#[derive(Debug, Drop)]
pub struct Blocks {
    geo: Geometry,
    log: Log,
    map: BlockMap,
    pool: Pool,
    settled: bool,
}

impl Model for Blocks {
    ghost use Rattle.block_device.specs.Object.{BlocksState, IsKept};

    ghost Value = { BlocksState };

    ghost view = { λ b. record {
      geo = b.geo;
      map = b.map;
      free = b.pool;
      quiet = b.log.settled;
      settled = b.settled;
    } };

    ghost invariant = { λ b. IsKept (record {
      geo = b.geo;
      map = b.map;
      free = b.pool;
      quiet = b.log.settled;
      settled = b.settled;
    }) b.log.area };
}
