use cut_places::CutPlace;
use witnesses::Kept;

/// Where in a program a cut first leaves what is asked, and what of storage it may keep so.
#[derive(Drop)]
pub struct Found {
    pub place: CutPlace,
    pub kept: Kept,
}
