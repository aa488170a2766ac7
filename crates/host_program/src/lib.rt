//! What `nvmhost` does with its words: the call that its `main` makes.
#![tactic(auto)]

mod bench;
mod running;
mod storing;
mod telling;
mod top;

pub use top::nvmhost;
