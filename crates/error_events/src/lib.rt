//! Media errors of files, as events that a program is told one at a time.
// An event is made where memory can't be asked for any more: a line is bad by then. So room for it is made before.
#![tactic(auto)]

mod queue;

use nvm_base::Name;
pub use queue::Events;

/// A media error: a number of bytes of a file are lost.
#[derive(Clone, Copy, Debug, PartialEq, Eq)]
pub struct Event {
    pub file: Name,
    pub offset: u64,
    pub len: u64,
    /// A shared mapping showed the place.
    pub mapped: bool,
    /// Whether the event came since the last restart.
    pub live: bool,
}
