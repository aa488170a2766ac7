// Files as they are listed, and the kinds of their mappings.
use crate::{Buffer, Name};

/// A file: its name, and how many pages it has.
#[derive(Clone, Copy, Debug, PartialEq, Eq)]
pub struct FileEntry {
    pub name: Name,
    pub pages: u64,
}

/// A list of files.
pub type FileList = Buffer<FileEntry>;

/// Whether a mapping shows its file, or a copy of it.
#[derive(Clone, Copy, Debug, PartialEq, Eq)]
pub enum Kind {
    Shared,
    Private,
}
