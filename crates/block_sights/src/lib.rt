//! Blocks of 512 bytes as reads see them, kept in memory and changed as actions change blocks.
#![tactic(auto)]

mod block;
mod change;
mod laws;
mod spans;

pub use block::{HeldBlock, Unreadable};
pub use change::BlockChange;
pub use laws::{
    changed_blocks_are_seen_so, lost_lines_are_seen, sights_tell_obstacles_and_bytes,
    written_bytes_are_seen,
};
