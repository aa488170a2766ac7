use crate::block_kept::BlockKept;
use crate::file_kept::FileLineKept;
use crate::line_kept::LineKept;
use crate::size_kept::SizeKept;

/// What a cut leaves of all that a look's reads touch, in the order in which they read it.
#[derive(Drop)]
pub struct Kept {
    pub lines: Vec<LineKept>,
    pub blocks: Vec<BlockKept>,
    /// Of each file that is read, whether it exists, and how long it is.
    pub sizes: Vec<SizeKept>,
    /// Those lines that exist.
    pub files: Vec<FileLineKept>,
}
