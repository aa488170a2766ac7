//! A memory module: lines of memory behind a cache, which a power cut or a media error may meet.
#![tactic(auto)]

mod bytes;
mod cells;
mod chain;
mod laws;
mod module;
mod order;
mod state;
mod survivors;

pub use laws::{
    a_bad_line_is_bare, only_the_oldest_lines_are_written_back, survivors_of_eight_bytes,
    survivors_of_three_words, the_order_lists_the_dirty_lines,
};
pub use module::Module;
pub use survivors::survivor;
