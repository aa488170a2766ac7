//! What the programs have in common: an image is opened, lines are written, and a call ends early, with the status that says why.
#![tactic(auto)]

mod ending;
mod faults;
mod opening;
mod telling;

pub use ending::Ending;
pub use opening::{MOST_BYTES, fetch, open, start};
pub use telling::{numbered, plain_line, tell};
