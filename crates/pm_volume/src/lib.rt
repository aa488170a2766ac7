//! A volume of pages of 4096 bytes on a device of lines: pages are absent until they are stored to, and then lie at two ranges
//! of physical addresses.
// Each page has lines of its own, and a presence word that says whether it is there. What an absent page's lines hold is of no
// meaning. A store that touches absent pages makes the lines of all of them zeros, durably, then gives all their words 1 by one
// commit, and only then stores: a cut finds no page that shows what an earlier one held. A discard is a commit alone.
#![tactic(auto)]

mod area;
mod checks;
mod discarding;
mod fault;
mod filling;
mod laws;
mod line_laws;
mod lines;
mod loading;
mod mounting;
mod queries;
mod storing;
mod switching;
mod syncing;

pub use area::volume_area;
pub use fault::{MountFault, VolumeFault};
pub use laws::{a_volume_holds_pages, addresses_are_found};
pub use line_laws::{
    a_line_is_written_whole, a_mount_finds_what_was_left, a_restart_leaves_one_value,
    lines_of_a_volume_read_alike, stores_and_syncs_keep_other_lines,
};
use range_sets::RangeSet;
use std::marker::Model;
use word_log::Log;
use word_tables::Geometry;

/// The volume of a mounted device.
#[derive(Debug, Drop)]
pub struct Volume {
    geo: Geometry,
    ranges: RangeSet,
    log: Log,
    // of each page whether it is there
    present: Vec<bool>,
    settled: bool,
}

impl Model for Volume {
    ghost use Rattle.pm_volume.specs.Object.{VolumeState, IsKept};

    ghost Value = { VolumeState };

    ghost view = { λ v. record { geo = v.geo; present = v.present.items; quiet = v.log.settled; settled = v.settled } };

    ghost invariant = { λ v. IsKept (record { geo = v.geo; present = v.present.items; quiet = v.log.settled; settled = v.settled })
        v.log.area v.ranges };
}
