// The bytes of lines: a count of records, or one of these.
ghost use Rattle.std.specs.Prelude.{◌≡◌, ◌≤◌, ◌<◌, Some, length, option_map};
ghost use Rattle.line_device.specs.Word.{word_at};
ghost use Rattle.append_log.specs.Lines.{record_of};

use arrayvec::ArrayVec;
use line_device::{word_bytes, word_in};

/// Most bytes of a record.
pub const MOST_BYTES: usize = 48;

/// The bytes of a record.
pub type Record = ArrayVec<u8, 48>;

// The line of a record: its length, and then its bytes.
pub(crate) fn record_line(record: &[u8]) -> [u8; 64]
    requires { length record.now ≤ 48 }
    ensures record { record_of result ≡ Some record.now }
    ensures length { length result ≡ 64 }
{
    let mut line = [0; 64];
    line[0] = record.len() as u8;
    line[1..1 + record.len()].copy_from_slice(record);
    line
}

// The record of a line, None where its length is none that a record has.
pub(crate) fn record_in(line: &[u8]) -> Option<Record>
    requires { length line.now ≡ 64 }
    ensures { option_map (λ found. found.items) result ≡ record_of line.now }
{
    let len = line[0] as usize;
    if len > MOST_BYTES {
        return None;
    }
    let mut record = Record::new();
    for byte in &line[1..1 + len] {
        record.push(*byte);
    }
    Some(record)
}

// The line of a count.
pub(crate) fn count_line(count: u64) -> [u8; 64]
    ensures count { word_at result 0 ≡ count }
    ensures length { length result ≡ 64 }
{
    let mut line = [0; 64];
    line[..8].copy_from_slice(&word_bytes(count));
    line
}

// The count of a line.
pub(crate) fn count_in(line: &[u8]) -> u64
    requires { length line.now ≡ 64 }
    ensures { result ≡ word_at line.now 0 }
{
    word_in(line, 0)
}
