//! The journal of files on a device of lines: which files there are, and on which physical page each of their pages is. Each
//! change is there as a whole or not at all, wherever the power goes.
// Inodes and page tables are words that change together by one log. Memory has them too, and a change is made there once its
// words are durable.
#![tactic(auto)]

mod area;
mod assigning;
mod changing;
mod checks;
mod fault;
mod files;
mod laws;
mod listing;
mod mounting;
mod queries;
mod units;
mod words;

pub use area::file_area;
pub use fault::{JournalFault, MountFault};
use free_pool::Pool;
use inode_table::Inodes;
pub use laws::{
    a_change_is_of_one_file, a_device_stands_for_files, files_are_those_of_the_inodes,
    files_come_back, words_that_hold_tables_read_as_them,
};
use page_table::PageTable;
pub use page_table::Run;
use std::marker::Model;
use word_log::Log;
use word_tables::Geometry;

/// The files of a mounted device.
#[derive(Debug, Drop)]
pub struct Journal {
    geo: Geometry,
    log: Log,
    inodes: Inodes,
    table: PageTable,
    // the units that are neither a page's nor held for one
    pool: Pool,
    settled: bool,
}

impl Model for Journal {
    ghost use Rattle.file_journal.specs.Object.{JournalState, IsKept};

    ghost Value = { JournalState };

    ghost view = { λ j. record {
      geo = j.geo;
      tables = record { files = j.inodes; pages = j.table.pages };
      free = j.pool;
      quiet = j.log.settled;
      settled = j.settled;
    } };

    ghost invariant = { λ j. IsKept (record {
      geo = j.geo;
      tables = record { files = j.inodes; pages = j.table.pages };
      free = j.pool;
      quiet = j.log.settled;
      settled = j.settled;
    }) j.log.area j.table.units };
}
