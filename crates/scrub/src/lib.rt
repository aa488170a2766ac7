//! Media errors of blocks, volume and files: made, counted and cleared.
// A media error takes the line of a place, wherever the place's storage lies. A clear is one step, and works on a line that is
// bad alone: what a healthy line holds is never given up.
#![tactic(auto)]

mod clearing;
mod counting;
mod fault;
mod places;
mod poisoning;
mod weakening;

pub use clearing::{clear_file, clear_volume};
pub use counting::{bad_count, bad_in_blocks, bad_in_volume};
pub use fault::{PlaceFault, ScrubFault, WeakenFault};
pub use marked_lines::{LinesFault, bad_in_files, events_of, file_lines, weak_in_files};
pub use poisoning::{poison_block, poison_file, poison_volume};
pub use weakening::{weaken_file, weaken_volume};
