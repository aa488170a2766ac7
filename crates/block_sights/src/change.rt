use nvm_base::Span;

/// What an action does to blocks.
#[derive(Clone, Copy, Debug)]
pub enum BlockChange<'a> {
    /// Bytes written from a block on, 512 to each.
    Write { at: u64, bytes: &'a [u8] },
    /// Bytes written to several ranges, to each its part of them. A range has its first block and its length in bytes.
    WriteRanges { ranges: &'a [Span], bytes: &'a [u8] },
    /// Spans of blocks become absent.
    Discard { spans: &'a [Span] },
    /// Spans of blocks become unreadable.
    Scar { spans: &'a [Span] },
    /// A media error takes a line of a block.
    Lose { block: u64, line: u64 },
}
