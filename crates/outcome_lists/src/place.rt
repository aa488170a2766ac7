// A place of a cut.
use crate::ways::Ways;
use explorer::places::CutPlace;
use outcome_walk::Rows;

#[derive(Clone, Copy, Debug, PartialEq, Eq)]
pub struct Place {
    pub at: CutPlace,
    /// The states that are old and new there; both are the same before a command.
    pub rows: Rows,
    pub ways: Ways,
}
