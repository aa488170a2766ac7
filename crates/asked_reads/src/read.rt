use nvm_base::Name;

/// A read of a look.
#[derive(Clone, Copy, Debug, PartialEq, Eq)]
pub enum Read {
    /// Of a number of bytes of the volume.
    Volume { start: u64, len: u64 },
    /// Of a number of blocks.
    Blocks { first: u32, count: u64 },
    /// Of a number of bytes of the file of a name.
    File { name: Name, start: u32, len: u64 },
}
