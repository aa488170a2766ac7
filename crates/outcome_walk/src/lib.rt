//! The outcomes of a look, walked part by part: each keeps, for each place of a cut, which sides still stand there. They are listed, or counted exactly without a list.
#![tactic(auto)]

mod counting;
mod crowd;
mod digits;
mod found;
mod level;
mod moving;
mod sides;
mod steps;
mod tally;
mod walking;

pub use counting::count;
pub use found::Found;
pub use level::{Choice, Level, Link, Rows};
pub use sides::Sides;
pub use tally::Tally;
pub use walking::walk;
