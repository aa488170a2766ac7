//! Script text: its lines, and the command that each asks for.
#![tactic(auto)]

mod command;
mod files;
mod flushing;
mod held;
mod lists;
mod mapped;
mod media;
mod next_line;
mod operands;
mod parsing;
mod piece;
mod plain;
mod power;
mod ranges;
mod spans;
mod streaming;
mod words;
mod writes;

pub use command::Command;
pub use next_line::{InputFault, NextLine};
pub use parsing::{LineFault, parse};
pub use streaming::LineReader;
