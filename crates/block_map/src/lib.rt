//! The block map: for each logical block whether it is there, and on which physical block.
#![tactic(auto)]

mod map;
mod state;
mod table;

pub use map::{BlockMap, EXTRA_UNITS};
pub use state::BlockState;
pub use table::TableFault;
