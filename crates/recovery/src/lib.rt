//! Mounting a whole device: its superblock first, then its metadata, then the logs of its blocks, of its volume and of its files,
//! the tables that they keep, and the events of bad lines of files.
// The superblock is the first line: a mark, the layout's number, and the sizes, by which all else is found. All logs are
// looked at before one is replayed, and all are replayed before a table is judged. So nothing is stored where a log is
// wrong, and a log with an open gate is replayed, which may be cut and begun again. What is found is answered in this
// order: a bad first line; the lowest wrong word of it; the lowest bad line of metadata; the lowest weak one; the first
// wrong word of the block log, of the volume's log, of the files' log, of the block map, of the presence words, of the inodes,
// of the page tables.
#![tactic(auto)]

mod events;
mod fault;
mod formatting;
mod laws;
mod metadata;
mod mounting;
mod replaying;
mod superblock;

use block_device::Blocks;
use error_events::Events;
pub use fault::MountFault;
use file_pages::FilePages;
pub use formatting::format;
pub use laws::{
    findings_of_small_devices, fresh_devices_are_in_order, mounts_again, superblocks_are_found,
    superblocks_stay,
};
pub use mounting::mount;
use pm_volume::Volume;
use word_tables::Geometry;

/// A mounted device: its sizes, its blocks, its volume, its files, and an event for each bad line of theirs.
#[derive(Debug, Drop)]
pub struct Mounted {
    pub geo: Geometry,
    pub blocks: Blocks,
    pub volume: Volume,
    pub files: FilePages,
    pub events: Events,
}
