//! Bytes of a file made durable: one span, or several together, with or without a second look at their lines.
// A span may touch lines that another one touched before. No line is persisted until each span was found right and none of its
// lines bad; a line that is bad after that was weak, and is passed over.
#![tactic(auto)]

mod checks;
mod fault;
mod finding;
mod flushing;
mod syncing;
mod verifying;

pub use fault::FlushFault;
pub use finding::next_bad;
pub use flushing::flush;
/// There is no domain of persistence beyond the medium.
pub use flushing::flush as deep_flush;
pub use syncing::sync;
pub use verifying::flush_verify;
