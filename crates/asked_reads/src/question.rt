use crate::reads::{BlockRead, FileRead, PageRead};

/// Question about a look: the replies of its reads of the volume, of blocks and of files.
#[derive(Debug, Drop)]
pub struct Question {
    pub volume: Vec<PageRead>,
    pub blocks: Vec<BlockRead>,
    pub files: Vec<FileRead>,
}
