//! Lines of storage kept in memory, each word with every value that it had since its line was last durable, as the model keeps them.
#![tactic(auto)]

mod line;
mod log;
mod words;

pub use line::HeldLine;
pub use log::Stored;
