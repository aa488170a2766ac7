//! Calls on single words and whole lines of a device, each with what it leaves of all others.
#![tactic(auto)]

mod interruption;
mod lines;
mod marks;
mod renewal;
mod words;

pub use interruption::{Interruption, stop_of};
pub use lines::{clear_line, load_line, persist_line, persist_lines, store_line};
pub use marks::{first_bad, first_weak};
pub use renewal::{renew_line, renew_lines};
pub use words::{load_word, load_words, store_word};
