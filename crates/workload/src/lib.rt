//! The stated workload of a medium: its lines, and what a summary of their replies counts.
#![tactic(auto)]

mod draws;
mod rounds;
mod rows;
mod summary;
mod totals;
mod workload;

pub use rows::{worked_lines, worked_summaries};
pub use summary::Summary;
pub use workload::Workload;
