//! The table of attributes.
#![tactic(auto)]

mod rows;
mod table;

pub use rows::worked_attributes;
pub use table::value;
