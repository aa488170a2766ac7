//! Spans of storage whose lines lie at given places of a device: put, made durable, loaded and cleared.
// Line n of the storage has its bytes 64 * n to 64 * n + 63. It lies at one line of the device, or nowhere: such a line is
// passed over. No two lie at the same one. A walk asks where a stretch of neighbouring lines lies, and then goes over them.
#![tactic(auto)]

mod clearing;
mod finding;
mod loading;
mod persisting;
mod places;
mod putting;
mod stretch;

pub use clearing::clear_lines;
pub use finding::{BadLines, lowest_bad};
pub use loading::load_lines;
pub use persisting::persist_lines;
pub use places::{Places, Whole, whole_lines_are_apart};
pub use putting::put_lines;
pub use stretch::Stretch;
