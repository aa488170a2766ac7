// A line of a page that is written anew: its bytes as last stored, and those of ranges over them.
ghost use Rattle.std.specs.Prelude.{◌≡◌, ◌∷◌, ◌/◌, ◌%◌, ◌*◌, ◌+◌, ◌<◌, ◌^◌, drop, slice_index};
ghost use Rattle.line_device.specs.History.{newest};
ghost use Rattle.line_histories.specs.Log.{history_in};
ghost use Rattle.nvm_model.specs.Cell.{cell_byte};
ghost use Rattle.nvm_model.specs.Numbered.{list_from};
ghost use Rattle.nvm_model.specs.Page.{touches_page};
ghost use Rattle.nvm_model.specs.Touched.{touches_any};
ghost use Rattle.file_actions.specs.Rewriting.{byte_laid, durable_line, touches_any_page};

use line_device::word_bytes;
use line_histories::{HeldLine, Stored};
use nvm_base::{LINE, PAGE, Span};
use sights::{byte_in, is_among, touches};
use std::alloc::Global;

/// The line of that number, durable, healthy and not weak.
pub(crate) fn rewritten(
    alloc: Global,
    n: u64,
    line: &HeldLine,
    ranges: &[Span],
    bytes: &[u8],
) -> HeldLine
    requires { n < 2 ^ 32 }
    ensures { result ≡ durable_line (λ at. byte_laid ranges.now bytes.now at (cell_byte line.now (at % 64))) n }
{
    HeldLine::of_bytes(alloc, &new_bytes(n, line, ranges, bytes), false)
}

fn new_bytes(n: u64, line: &HeldLine, ranges: &[Span], bytes: &[u8]) -> [u8; 64]
    requires { n < 2 ^ 32 }
    ensures { result ≡ list_from (λ at. byte_laid ranges.now bytes.now at (cell_byte line.now (at % 64))) (64 * n) 64 }
{
    let mut new = [0; 64];
    for i in 0..64_u64 {
        new[i as usize] = byte_laid(ranges, bytes, LINE * n + i, last_byte(line, i));
    }
    new
}

// Byte i of the line as last stored.
fn last_byte(line: &HeldLine, i: u64) -> u8
    requires { i < 64 }
    ensures { result ≡ cell_byte line.now i }
{
    if line.is_bad() {
        return 0;
    }
    let (durable, log) = line.values(i / 8);
    word_bytes(newest(durable, log, i / 8))[(i % 8) as usize]
}

fn newest(durable: u64, log: &[Stored], w: u64) -> u64
    ensures { result ≡ newest (durable ∷ history_in log.now w) }
{
    let mut value = durable;
    for stored in log {
        if stored.word == w {
            value = stored.value;
        }
    }
    value
}

// The byte at a place once those of ranges are over it, each of which has its part of them.
fn byte_laid(ranges: &[Span], bytes: &[u8], at: u64, old: u8) -> u8
    ensures { result ≡ byte_laid ranges.now bytes.now at old }
{
    let mut rest = bytes;
    for range in ranges {
        if is_among(range.start, range.len, at) {
            return byte_in(rest, at - range.start);
        }
        rest = behind(rest, range.len);
    }
    old
}

fn behind(bytes: &[u8], len: u64) -> &[u8]
    ensures { result.now ≡ drop len bytes.now }
{
    bytes.get(len as usize..).unwrap_or(&[])
}

/// Whether some span touches line n.
pub(crate) fn touches_any(spans: &[Span], n: u64) -> bool
    requires { n < 2 ^ 32 }
    ensures { result ≡ touches_any spans.now n }
{
    spans.iter().any(|span| touches(span.start, span.len, n))
}

/// Whether some range touches a page.
pub(crate) fn touches_any_page(ranges: &[Span], page: u64) -> bool
    requires { page < 2 ^ 32 }
    ensures { result ≡ touches_any_page ranges.now page }
{
    ranges.iter().any(|range| touches_page(*range, page))
}

fn touches_page(range: Span, page: u64) -> bool
    requires { page < 2 ^ 32 }
    ensures { result ≡ touches_page range.start range.len page }
{
    // The range may end past the last address.
    range.start / PAGE <= page
        && (PAGE * page < range.start || PAGE * page - range.start < range.len)
}
