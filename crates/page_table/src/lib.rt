//! The page table of files: on which physical page each page of each inode is.
#![tactic(auto)]

mod judging;
mod runs;
mod table;
mod word;

pub use judging::TableFault;
pub use runs::{Run, four_pages_have_runs};
pub use table::{INODE_PAGES, PageTable, SPARE_UNITS, tables_are_right};
