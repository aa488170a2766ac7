use error_events::Event;
use nvm_base::{FileList, Name, Spans, Words};

/// Why a command is not done.
#[derive(Clone, Copy, Debug, PartialEq, Eq)]
pub enum Why {
    Syntax,
    /// The line is longer than a line may be.
    TooLong,
    Off,
    On,
    Recover,
    /// No file has the name.
    Missing,
    /// A file has the new name.
    Exists,
    /// No mapping has the handle.
    Handle,
    /// A mapping shows the file.
    Mapped,
    Range,
    Length,
    Limit,
    Overlap,
    Address,
    /// There is no place for another file.
    Slots,
    /// There are too few pages left.
    Full,
    /// The place holds no line.
    Nothing,
    NotPoisoned,
    /// Nothing has that name.
    Unknown,
}

/// What a command is answered, but for bytes that it reads.
#[derive(Debug, Drop)]
pub enum Reply {
    Done,
    /// A restart is done. So many lines of storage are bad.
    DoneBad(u64),
    /// Where a volume lies: ranges of physical addresses, one after the other.
    Ranges(Spans),
    /// Files: the name of each, and how many pages it has.
    Files(FileList),
    Yes,
    No,
    /// The handle of a new mapping.
    Handle(u64),
    /// The oldest event that was not taken yet.
    Happened(Event),
    /// All events were taken.
    NoEvent,
    /// Offsets of a file's bad lines.
    BadLines(Words),
    /// The value of an attribute.
    Attribute(u64),
    /// Block that was made unreadable.
    Scarred(u64),
    /// In this block that line is bad.
    PoisonBlock(u64, u64),
    /// The line of the volume at that offset is bad.
    PoisonVolume(u64),
    /// The line of this file at that offset is bad.
    PoisonFile(Name, u64),
    /// The line of this file at that offset went bad when it was made durable.
    VerifyFile(Name, u64),
    /// A call of the device failed.
    DeviceFailed,
    PowerLost,
    /// A mount ran through and found this line of metadata bad, the lowest one.
    Stopped(u64),
    Refused(Why),
    /// Line of metadata that is bad.
    RefusedMeta(u64),
}
