//! The bytes of files on a device of lines: holes read as zeros until they are stored to, and a page that is none lies on a unit
//! of the device, as the journal of files says.
// A store that touches holes takes a unit for each of them, makes their lines zeros, durably, then names all of them by one commit
// of the journal, and only then puts the bytes: a cut finds no page that shows what its unit held for another. What is stored
// may be lost until it is made durable.
#![tactic(auto)]

mod checks;
mod durable;
mod fault;
mod filling;
mod fresh;
mod lending;
mod lines;
mod loading;
mod mounting;
mod queries;
mod renewing;
mod storing;
mod syncing;
mod units;

pub use checks::ends_past;
pub use fault::PageFault;
use file_journal::Journal;
pub use lending::borrow_line;
use std::marker::Model;

/// The files of a mounted device, with their bytes.
#[derive(Debug, Drop)]
pub struct FilePages {
    journal: Journal,
    settled: bool,
}

impl Model for FilePages {
    ghost use Rattle.file_pages.specs.Object.{PagesState};

    ghost Value = { PagesState };

    ghost view = { λ p. record { journal = p.journal; settled = p.settled } };
}
