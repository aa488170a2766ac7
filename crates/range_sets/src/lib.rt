//! Ranges of bytes that don't meet, as one stretch of bytes.
#![tactic(auto)]

mod faults;
mod set;
mod walk;

pub use faults::first_overlap;
pub use set::{RangeFault, RangeSet};
pub use walk::total_of;
