// Bytes and addresses, counted through ranges in their order.
ghost use Rattle.std.specs.Prelude.{◌≡◌, ◌+◌, ◌&&◌, ◌^◌, ◌≤◌, All, nat_le};
ghost use Rattle.range_sets.specs.Lines.{fits};
ghost use Rattle.range_sets.specs.Ranges.{IsInReach, offset_of, offset_of_span, address_of, total_of};

use nvm_base::{LINE, Span};

/// The bytes of all ranges.
pub fn total_of(ranges: &[Span]) -> u64
    requires { total_of ranges.now ≤ 2 ^ 40 }
    ensures { result ≡ total_of ranges.now }
{
    ranges.iter().map(|range| range.len).sum()
}

pub(crate) fn place(ranges: &[Span], offset: u64) -> Option<u64>
    requires { All IsInReach ranges.now }
    ensures { result ≡ address_of ranges.now offset }
{
    let mut rest = offset;
    for range in ranges {
        if rest < range.len {
            return Some(range.start + rest);
        }
        rest -= range.len;
    }
    None
}

pub(crate) fn offset_of(ranges: &[Span], address: u64) -> Option<u64>
    requires { total_of ranges.now ≤ 2 ^ 40 }
    ensures { result ≡ offset_of ranges.now address }
{
    let mut before = 0;
    for range in ranges {
        if range.start <= address && address - range.start < range.len {
            return Some(before + (address - range.start));
        }
        before += range.len;
    }
    None
}

pub(crate) fn offset_of_span(ranges: &[Span], span: Span) -> Option<u64>
    requires { total_of ranges.now ≤ 2 ^ 40 }
    ensures { result ≡ offset_of_span ranges.now span }
{
    let mut before = 0;
    for range in ranges {
        if is_inside(span, *range) {
            return Some(before + (span.start - range.start));
        }
        before += range.len;
    }
    None
}

// Whether a range has all of a span.
fn is_inside(span: Span, range: Span) -> bool
    ensures { result ≡ (nat_le range.start span.start && nat_le (span.start + span.len) (range.start + range.len)) }
{
    range.start <= span.start
        && span.len <= range.len
        && span.start - range.start <= range.len - span.len
}

// Whether each range is made of whole lines of a device of so many.
pub(crate) fn fits(ranges: &[Span], lines: u64) -> bool
    requires { All IsInReach ranges.now }
    ensures { result ≡ fits ranges.now lines }
{
    ranges.iter().all(|range| {
        range.start % LINE == 0
            && range.len % LINE == 0
            && (range.start + range.len) / LINE <= lines
    })
}
