// Reads of pages, of blocks and of files, each with the reply that is asked for.
ghost use Rattle.std.specs.Prelude.{◌<◌, ◌^◌};

use nvm_base::{Bytes, Name};
use reply_text::Why;

/// What a read of pages is asked to answer.
#[derive(Debug, Drop)]
pub enum PageReply {
    Shows(Bytes),
    /// The byte at which the lowest bad line begins.
    Poison(u64),
    Refuses(Why),
}

/// A read of a number of bytes.
#[derive(Debug, Drop)]
pub struct PageRead {
    pub start: u64,
    pub len: u64,
    pub reply: PageReply,
}

/// A read of a number of bytes of the file of a name.
#[derive(Debug, Drop)]
pub struct FileRead {
    pub name: Name,
    pub pages: PageRead,
    pub ghost reach: { pages.start < 2 ^ 32 },
}

/// What a read of blocks is asked to answer.
#[derive(Debug, Drop)]
pub enum BlockReply {
    Shows(Bytes),
    /// The lowest block that can't be read is scarred,
    Scar(u64),
    /// or has a bad line, of which this is the lowest.
    BadLine { block: u64, line: u64 },
    Refuses(Why),
}

/// A read of a number of blocks.
#[derive(Debug, Drop)]
pub struct BlockRead {
    pub first: u64,
    pub count: u64,
    pub reply: BlockReply,
    pub ghost reach: { first < 2 ^ 32 },
}
