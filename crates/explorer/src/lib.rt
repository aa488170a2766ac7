//! What a program may find after a power cut: it is performed on a device, and all that a cut may leave of what a look reads is
//! followed beside it.
#![tactic(auto)]

mod blocks_look;
mod came;
mod exploring;
mod fault;
mod file_line_look;
mod file_numbers;
mod files_look;
mod following;
mod found;
mod leading;
mod looking;
mod performing;
mod reporting;
mod rows;
mod tabulating;
mod volume_look;
mod watching;

pub use cut_places as places;
pub use cut_places::{durable_laws, reads_asked, sights_seen};
pub use exploring::explore;
pub use fault::ExploreFault;
pub use following::follow;
pub use found::Found;
pub use looking::look_at;
pub use machine_host as host;
pub use reporting::report_refusals;
pub use rows::worked_reports;
pub use tabulating::tabulate;
pub use value_tables as tables;
pub use value_tables::runs;
pub use watching::{Watched, watch};
pub use witnesses as witness;
