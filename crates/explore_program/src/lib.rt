//! What `nvmexplore` does with its words: the call that its `main` makes.
#![tactic(auto)]

mod answering;
mod asking;
mod beginning;
mod form;
mod laws;
mod reading;
mod refusing;
mod showing;
mod stop;
mod telling;
mod top;

pub use top::nvmexplore;
