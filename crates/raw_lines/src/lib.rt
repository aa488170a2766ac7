//! Lines of memory in one allocation, each with its 64 bytes or bare.
//!
//! No byte that was never written is read. A region owns of a held line its bytes, and of a bare one room without a value.
//! Each step that follows the pointer is proved from what is owned there, and room can only be written, forgotten or freed.
//! The table calls held exactly the lines that have bytes, so nothing is lent but what was written.
#![tactic(auto)]

mod block;
mod region;
mod room;

pub use region::Region;
// A crate above can hold a region in a struct only if the types of its fields can be named.
#[doc(hidden)]
pub use room::{Lease, Room};
