//! What a program may find after a power cut, wherever it falls: a test that tells it of each reply that a program could see, and
//! the law that no run shows anything else. So a `never` is a theorem about every run, and not a search that found nothing.
#![tactic(auto)]

mod laws;

pub use durable as durable_laws;
pub use laws::{what_is_found_may_be_found, what_may_be_shown_is_left, worked_questions};
