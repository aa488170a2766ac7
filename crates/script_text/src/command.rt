use line_device::Choice;
use nvm_base::{Bytes, Kind, Name, Span, Spans};

/// A command of a script. Blocks, and pages of the volume or of a file, are numbered and counted; offsets and lengths are
/// in bytes of the volume, of a file or from a mapping's start, addresses in bytes of the device.
#[derive(Drop)]
pub enum Command {
    BRead {
        block: u64,
        count: u64,
    },
    BWrite {
        block: u64,
        bytes: Bytes,
    },
    BDiscard {
        block: u64,
        count: u64,
    },
    BDiscardIf {
        block: u64,
        count: u64,
    },
    BExists {
        block: u64,
    },
    BScar {
        ranges: Spans,
    },
    BAtomic {
        block: u64,
        bytes: Bytes,
    },
    BMulti {
        ranges: Spans,
        bytes: Bytes,
    },
    VLoad {
        offset: u64,
        len: u64,
    },
    VStore {
        offset: u64,
        bytes: Bytes,
    },
    VSync {
        offset: u64,
        len: u64,
    },
    /// Where the volume lies on the device, as ranges of physical addresses.
    VRanges,
    /// `VSync` of a span of physical addresses.
    VPSync {
        address: u64,
        len: u64,
    },
    VDiscard {
        page: u64,
        count: u64,
    },
    VDiscardIf {
        page: u64,
        count: u64,
    },
    VExists {
        page: u64,
    },
    /// A file of that name, of a number of holes.
    Create {
        name: Name,
        pages: u64,
    },
    Delete {
        name: Name,
    },
    Rename {
        name: Name,
        to: Name,
    },
    /// Pages of the file are cut, or holes added.
    Resize {
        name: Name,
        pages: u64,
    },
    /// The files, in order of name.
    List,
    FRead {
        name: Name,
        offset: u64,
        len: u64,
    },
    FWrite {
        name: Name,
        offset: u64,
        bytes: Bytes,
    },
    /// The bytes are written wholly or not at all, wherever the power goes.
    FAtomic {
        name: Name,
        offset: u64,
        bytes: Bytes,
    },
    /// Atomic write of several ranges at once, whose bytes follow each other.
    FMulti {
        name: Name,
        ranges: Spans,
        bytes: Bytes,
    },
    /// Pages of the file become holes.
    FDiscard {
        name: Name,
        page: u64,
        count: u64,
    },
    /// The whole file becomes durable.
    FSync {
        name: Name,
    },
    /// A span of the file is shown, or a copy of it.
    Map {
        name: Name,
        span: Span,
        kind: Kind,
    },
    Unmap {
        handle: u64,
    },
    Load {
        handle: u64,
        offset: u64,
        len: u64,
    },
    Store {
        handle: u64,
        offset: u64,
        bytes: Bytes,
    },
    /// The lines of a span of a mapping become durable.
    Sync {
        handle: u64,
        offset: u64,
        len: u64,
    },
    /// Flush of several spans.
    Flush {
        handle: u64,
        spans: Spans,
    },
    /// Flush, and a second look at the lines.
    FlushVerify {
        handle: u64,
        spans: Spans,
    },
    /// Flush to the last domain of persistence.
    DeepFlush {
        handle: u64,
        spans: Spans,
    },
    /// The oldest event is taken.
    NextEvent,
    /// The bad lines of a span of the file.
    CheckFile {
        name: Name,
        offset: u64,
        len: u64,
    },
    /// A line of a block goes bad.
    PoisonBlock {
        block: u64,
        line: u64,
    },
    /// The line of that byte of the volume goes bad.
    PoisonVolume {
        offset: u64,
    },
    /// The line of that byte of the file goes bad.
    PoisonFile {
        name: Name,
        offset: u64,
    },
    /// Makes that line of the metadata bad.
    PoisonMeta {
        line: u64,
    },
    /// The line of that byte goes bad when it is next made durable.
    WeakenFile {
        name: Name,
        offset: u64,
    },
    /// Makes the line weak that has this byte of the volume.
    WeakenVolume {
        offset: u64,
    },
    /// The bad line of that byte becomes zeros.
    ClearFile {
        name: Name,
        offset: u64,
    },
    /// Makes the bad line healthy that has this byte of the volume.
    ClearVolume {
        offset: u64,
    },
    Cut,
    CutIn {
        calls: u64,
    },
    /// The device's call of that number from then on fails.
    FailIn {
        calls: u64,
    },
    Restart {
        choice: Choice,
    },
    /// A mount of the device with its power left on.
    Recover,
    /// What the attribute of that name is. Any word is a name here.
    Attr {
        name: Bytes,
    },
    /// Writes back this number of the oldest dirty lines.
    Evict {
        lines: u64,
    },
}
