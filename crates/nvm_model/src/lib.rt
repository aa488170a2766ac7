//! Storage as the machine sees it: cells, pages, blocks and files as data, with what actions make of them.
#![tactic(auto)]

mod laws;
mod listing_laws;
mod media_laws;
mod touched_laws;

pub use laws::{
    a_restart_keeps_what_one_left, actions_go_line_by_line, lines_and_pages_keep_step,
    only_fills_and_discards_change_which_pages_are_there, what_was_persisted_is_kept,
    what_was_put_is_seen,
};
pub use listing_laws::{
    listed_files_are_found, orders_of_names, slots_and_lists_keep_step,
    the_files_in_slots_are_listed,
};
pub use media_laws::{a_block_loses_one_line, media_errors_keep_step, one_line_changes_alone};
pub use touched_laws::{bad_lines_are_found_one_by_one, spans_are_made_durable_one_by_one};
