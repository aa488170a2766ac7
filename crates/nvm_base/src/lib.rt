//! Units, growable lists with known room, numbers and printed bytes: what every other crate of nvmhost stands on.
#![tactic(auto)]

mod buffer;
mod counts;
mod files;
mod laws;
mod names;
mod numbers;
mod printing;
mod reading;
mod spelling;
mod units;

pub use buffer::{Buffer, Bytes, Spans, Words};
pub use counts::raise;
pub use files::{FileEntry, FileList, Kind};
pub use laws::what_is_printed_is_read_back;
pub use names::{NAME, Name};
pub use numbers::{print_number, read_number};
pub use printing::print_bytes;
pub use reading::{TextFault, read_bytes};
pub use spelling::spellings;
pub use units::{
    BLOCK, INODES, LINE, LineNo, MOST, MOST_READ, MOST_SPANS, PAGE, PAGE_LINES, Span, WORD,
    blocks_of, lines_of, overlaps, pages_of,
};
