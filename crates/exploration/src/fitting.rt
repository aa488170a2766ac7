// Whether a reply is one that its read may have on some device.
ghost use Rattle.std.specs.Prelude.{◌≡◌, ◌==◌};
ghost use Rattle.questions.specs.Asked.{answer_asked};
ghost use Rattle.exploration.specs.Fitting.{bytes_read, has_length, has_place, has_refusal, is_line_of, refuses_a_file};

use asked_reads::Read;
use nvm_base::{BLOCK, LINE};
use questions::AskedReply;
use reply_text::Why;
use sights::{is_among, touches};

// Whether bytes that are asked for are as many as the read has.
pub(crate) fn has_length(read: &Read, reply: &AskedReply) -> bool
    ensures { result ≡ has_length read.now (answer_asked reply.now) }
{
    match reply {
        AskedReply::Bytes(bytes) => is_bytes_read(read, bytes.len()),
        _ => true,
    }
}

fn is_bytes_read(read: &Read, n: u64) -> bool
    ensures { result ≡ (n == bytes_read read.now) }
{
    match read {
        Read::Volume { len, .. } | Read::File { len, .. } => n == *len,
        Read::Blocks { count, .. } => n / BLOCK == *count && n % BLOCK == 0,
    }
}

// Whether a line or a block that is named is one that the read touches.
pub(crate) fn has_place(read: &Read, reply: &AskedReply) -> bool
    ensures { result ≡ has_place read.now (answer_asked reply.now) }
{
    match (read, reply) {
        (Read::Volume { start, len }, AskedReply::PoisonVolume { offset }) => {
            is_line_of(*start, *len, *offset)
        }
        (Read::Blocks { first, count }, AskedReply::Scarred { block }) => {
            is_among(u64::from(*first), *count, *block)
        }
        (Read::Blocks { first, count }, AskedReply::PoisonBlock { block, line }) => {
            is_among(u64::from(*first), *count, *block) && *line < 8
        }
        (Read::File { start, len, .. }, AskedReply::PoisonFile { offset, .. }) => {
            is_line_of(u64::from(*start), *len, *offset)
        }
        _ => true,
    }
}

// Whether the line of this first byte is one of a span.
fn is_line_of(start: u64, len: u64, at: u64) -> bool
    ensures { result ≡ is_line_of start len at }
{
    touches(start, len, at / LINE) && at % LINE == 0
}

// Whether a file's read may be refused so, where it is to be refused.
pub(crate) fn has_refusal(read: &Read, reply: &AskedReply) -> bool
    ensures { result ≡ has_refusal read.now (answer_asked reply.now) }
{
    match (read, reply) {
        (Read::File { start, len, .. }, AskedReply::Refused(why)) => {
            refuses_a_file(u64::from(*start), *len, *why)
        }
        _ => true,
    }
}

fn refuses_a_file(start: u64, len: u64, why: Why) -> bool
    ensures { result ≡ refuses_a_file start len why }
{
    match why {
        Why::Missing => true,
        Why::Range => start != 0 || len != 0,
        Why::Length => len == 0,
        Why::Limit => 65536 < len,
        _ => false,
    }
}
