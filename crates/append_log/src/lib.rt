//! An append-only log of records of up to 48 bytes in the volume of a device.
// Line 0 of the volume has how many records there are, as one word, and each line after it one record: its length, and then its
// bytes. An append makes the record durable before the count is stored, so a cut leaves the old count or the new one, and
// each record that is counted is whole.
#![tactic(auto)]

mod fault;
mod laws;
mod lines;
mod log;
mod records;

pub use fault::LogFault;
pub use laws::the_log_is_found_again;
pub use log::AppendLog;
pub use records::{MOST_BYTES, Record};
