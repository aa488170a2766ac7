//! The inodes: 64 slots, each free or a file's name and how many pages it has.
#![tactic(auto)]

mod fault;
mod inodes;
mod laws;
mod reading;
mod slots;
mod words;

pub use fault::TableFault;
pub use inodes::Inodes;
pub use laws::words_hold_their_slots;
