// What a command makes of files and of mappings.
use crate::map::Stretch;
use nvm_base::{Name, Span};

/// What becomes of the lines of one file.
#[derive(Drop)]
pub(crate) enum LinesChange<'a> {
    /// Bytes are put at an offset.
    Puts { at: u64, bytes: &'a [u8] },
    /// The lines that the spans touch are made durable.
    Persists(Vec<Span>),
    /// The pages that the ranges touch are written again, durably, with these bytes over the old ones.
    Rewrites { ranges: Vec<Span>, bytes: &'a [u8] },
    /// `count` pages from one on become holes.
    Zeroes { page: u64, count: u64 },
    Loses(u64),
    Weakens(u64),
    Clears(u64),
}

/// What becomes of files and of mappings.
#[derive(Drop)]
pub(crate) enum FilesChange<'a> {
    Nothing,
    Makes { name: Name, pages: u32 },
    Removes(Name),
    Renames { name: Name, to: Name },
    Resizes { name: Name, pages: u32 },
    Changes(Name, LinesChange<'a>),
    Maps(Stretch),
    Unmaps(u64),
}
