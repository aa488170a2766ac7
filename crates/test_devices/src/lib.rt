//! Devices of tests: one that records how it was restarted and what it was told to do, one that cuts the power, and one whose
//! calls fail by a list.
#![tactic(auto)]

mod faulty;
mod fuse;
mod recorder;
mod start;

pub use faulty::Faulty;
pub use fuse::Fuse;
pub use recorder::Recorder;
pub use start::Start;
