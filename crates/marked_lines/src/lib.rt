//! Lines that are bad, or weak: counted, and of files found and reported as events.
// None of this changes the device, or makes a counted call.
#![tactic(auto)]

mod among;
mod events;
mod fault;
mod files;
mod finding;
mod mark;

pub use among::count_among;
pub use events::events_of;
pub use fault::LinesFault;
pub use files::{bad_in_files, weak_in_files};
pub use finding::file_lines;
pub use mark::Mark;
