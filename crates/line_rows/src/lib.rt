//! Worked lines: what lines of scripts stand for, as laws.
#![tactic(auto)]

mod rows;

pub use rows::{worked_flush_lines, worked_lines, worked_mapped_lines};
