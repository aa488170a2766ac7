// What is looked at where a cut falls.
use cut_places::FilesSeen;
use cut_places::sights_seen::{BlockSeen, LineSeen};

/// The lines, blocks and files as they are; and the new ones that the command makes of them, where a cut inside it may leave some of
/// these, or none.
#[derive(Clone, Copy)]
pub struct Sides<'a> {
    pub lines: &'a [LineSeen],
    pub new_lines: &'a [LineSeen],
    pub blocks: &'a [BlockSeen],
    pub new_blocks: &'a [BlockSeen],
    pub files: &'a FilesSeen,
    pub new_files: Option<&'a FilesSeen>,
}
