//! The machine that a script speaks to: its modes here, and in specs/ its state, what a command means, and what a run is.
#![tactic(auto)]

mod look;
mod mode;
mod needs;

pub use look::Look;
pub use mode::Mode;
pub use needs::Needs;
