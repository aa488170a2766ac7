//! Worked scripts of the machine: what it writes for each, from bytes to bytes, as laws; and that an unarmed run is no other.
#![tactic(auto)]

mod laws;
mod rows;

pub use laws::unarmed_runs_are_performed;
pub use rows::{
    worked_attributes, worked_bytes, worked_cuts, worked_events, worked_failures,
    worked_file_actions, worked_file_errors, worked_files, worked_flushes, worked_mappings,
    worked_pages, worked_scripts,
};
