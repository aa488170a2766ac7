//! A program may find something after a power cut exactly where some run of the machine finds it.
#![tactic(auto)]

mod laws;

pub use laws::{
    runs_keep_states, scripts_bring_right, the_test_tells_what_is_found,
    what_may_be_found_is_found, worked_runs,
};
