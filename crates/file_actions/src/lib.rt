//! Native file actions: writes that a power cut leaves whole or not at all, discards of pages, and a sync of a file. Plain reads
//! and stores are those of `FilePages`.
// An atomic write puts the new bytes of each page that it touches on a fresh unit, durably, and only then switches all of these
// pages by one commit of the journal. The bytes of a page that no range has are those last stored, which are durable then too.
#![tactic(auto)]

mod atomic;
mod building;
mod checks;
mod discarding;
mod fault;
mod finding;
mod preparing;
mod ranges;
mod switching;
mod syncing;

pub use atomic::{atomic_multiwrite, atomic_write};
pub use discarding::discard;
pub use fault::ActionFault;
pub use file_pages::FilePages;
pub use syncing::sync;
