//! What was made durable stays: a law over every run of the machine, with no device in it.
#![tactic(auto)]

mod laws;
mod rows;

pub use laws::{
    a_stopped_write_is_whole_or_not, media_errors_are_told_once, reads_name_what_is_lost,
    runs_come_to_whole_states, what_bad_metadata_stops, what_files_there_are_stays,
    what_is_lost_stays_lost, what_is_mapped_is_told, what_is_not_synced_may_go,
    what_is_there_stays_while_powered, what_was_made_durable_stays, what_was_written_lasts,
};
pub use rows::worked_mappings;
