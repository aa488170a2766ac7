//! The host of one machine over a line device: script text to commands, a command to device calls, an answer to text.
#![tactic(auto)]

mod held;
mod host;
mod outcome;

pub use host::Host;
pub use machine_model::Mode;
pub use outcome::Outcome;
