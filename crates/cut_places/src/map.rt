// A mapping as it is held.
use nvm_base::{Kind, Name};

/// A stretch of a file, in bytes, as it is mapped.
#[derive(Clone, Copy)]
pub(crate) struct Stretch {
    pub name: Name,
    pub start: u32,
    pub len: u32,
    pub kind: Kind,
}

/// A mapping, but for its copy.
#[derive(Clone, Copy)]
pub(crate) struct MapSeen {
    pub handle: u64,
    pub stretch: Stretch,
}
