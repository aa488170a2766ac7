//! The line device: 64-byte lines that a power cut, a media error or a failed call may meet at any moment, as a trait.
#![tactic(auto)]

mod counts;
mod device;
mod fault;
mod laws;
mod line;
mod lines;
mod order;
mod plain;
mod switches;
mod unit;
mod words;

pub use counts::Counts;
pub use device::{LineDevice, Peek};
pub use fault::{DeviceFault, ResetFault};
pub use laws::{
    a_cut_may_tear_a_word, effects_stand_between_write_backs, write_back_leaves_fewer_images,
};
pub use line::{Choice, LineList, LineState};
pub use lines::Lines;
pub use order::Order;
pub use plain::Plain;
pub use switches::Switches;
pub use unit::{BYTE_UNIT, WORD_UNIT};
pub use words::{word_bytes, word_in};
