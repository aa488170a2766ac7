//! Where in a program a power cut first leaves what a question asks for: the lines of the volume, the blocks and the files that its
//! reads look at, followed command by command; and files as reads see them, with what a cut may leave of them.
#![tactic(auto)]

mod change;
mod choosing;
mod file;
mod files;
mod finding;
mod fitting;
mod leaving;
mod line;
mod line_fits;
mod line_leaving;
mod lines;
mod listing;
mod map;
mod maps;
mod mixing;
mod place;
mod read_fits;
mod rewriting;
mod sight;
mod stepping;

pub use file::FileSeen;
pub use files::FilesSeen;
pub use finding::find;
pub use place::CutPlace;
pub use sight::Sight;
pub use sights as sights_seen;
pub use sights::{durable_laws, reads_asked};
