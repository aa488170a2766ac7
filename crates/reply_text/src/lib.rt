//! What commands are answered, and the line of each answer.
#![tactic(auto)]

mod data;
mod events;
mod files;
mod laws;
mod printing;
mod ranges;
mod reply;

pub use data::print_data;
pub use laws::replies_tell_their_answers;
pub use printing::print;
pub use reply::{Reply, Why};
