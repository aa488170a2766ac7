//! A script that is to be explored: its program, and what is asked of reads after a power cut.
#![tactic(auto)]

mod ahead;
mod asking;
mod exploration;
mod fitting;
mod laws;
mod lines;
mod look;
mod look_lines;
mod parts;
mod program;
mod program_lines;
mod question;
mod reason;
mod replies;
mod rows;
mod stop;
mod telling;

pub use asking::{Asking, Wanted};
pub use exploration::{Exploration, ScriptFault, read_script};
pub use laws::{
    each_reason_has_its_text, what_is_asked_is_performed, what_is_asked_was_read,
    what_is_seen_was_asked,
};
pub use reason::Reason;
pub use rows::{worked_marks, worked_scripts};
