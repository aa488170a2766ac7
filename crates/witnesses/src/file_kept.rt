// What a cut may leave of a line of a file.
use crate::line_kept::LineLeft;
use nvm_base::Name;

/// The line of that number of the file of that name, as it is left.
#[derive(Drop)]
pub struct FileLineKept {
    pub name: Name,
    pub number: u32,
    pub left: LineLeft,
    /// Which of its words the cut could have left otherwise.
    pub free: [bool; 8],
}
