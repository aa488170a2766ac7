// When calls are refused. None of this makes a counted call.
ghost use Rattle.std.specs.Prelude.{◌≡◌, ◌+◌, ◌/◌, ◌%◌, ◌^◌, ◌<◌, ◌≤◌, ◌||◌, ◌==◌, IfOk, length, not, sum_by, nat_lt, take};
ghost use Rattle.std.specs.List.{list_any};
ghost use Rattle.nvm_base.specs.declared.units.Span.{Span as Blocks};
ghost use Rattle.word_tables.specs.Bounds.{IsValid};
ghost use Rattle.word_tables.specs.Layout.{total_lines};
ghost use Rattle.range_sets.specs.Ranges.{is_disjoint};
ghost use Rattle.block_device.specs.Refusals.{Checks, block_spans, blocks_touched, bytes_refusal, meta_refusal, ranges_refusal, spans_refusal, together_refusal};

use crate::BlockFault;
use crate::area::MOST_TOGETHER;
use line_device::Lines;
use line_words::first_bad;
use nvm_base::{BLOCK, LineNo, MOST_SPANS, Span};
use range_sets::{first_overlap, total_of};
use word_tables::Geometry;

/// Most spans of blocks that change together.

/// Whether a number of bytes are whole blocks from that one on.
pub fn check_bytes(count: u64, block: u64, len: u64) -> Result<(), BlockFault>
    requires { count ≤ 4096 }
    ensures { Checks (bytes_refusal count block len) result }
{
    let touched = len.div_ceil(BLOCK);
    if block > count || touched > count - block {
        return Err(BlockFault::Range);
    }
    if len == 0 || len % BLOCK != 0 {
        return Err(BlockFault::Length);
    }
    Ok(())
}

/// Whether spans of blocks exist, and none is empty.
pub fn check_spans(count: u64, spans: &[Span]) -> Result<(), BlockFault>
    requires { count ≤ 4096 }
    ensures { Checks (spans_refusal count spans.now) result }
{
    if is_one_past(count, spans) {
        return Err(BlockFault::Range);
    }
    if is_one_empty(spans) {
        return Err(BlockFault::Length);
    }
    Ok(())
}

fn is_one_past(count: u64, spans: &[Span]) -> bool
    requires { count ≤ 4096 }
    ensures { result ≡ list_any (λ (s : Blocks). nat_lt count (s.start + s.len)) spans.now }
{
    spans.iter().any(|span| is_past(count, *span))
}

fn is_one_empty(spans: &[Span]) -> bool
    ensures { result ≡ list_any (λ (s : Blocks). s.len == 0) spans.now }
{
    spans.iter().any(|span| span.len == 0)
}

// Whether a span of blocks ends past the last one.
fn is_past(count: u64, span: Span) -> bool
    requires { count ≤ 4096 }
    ensures { result ≡ nat_lt count (span.start + span.len) }
{
    span.start > count || span.len > count - span.start
}

/// Whether spans of blocks can change together.
pub fn check_together(count: u64, spans: &[Span]) -> Result<(), BlockFault>
    requires { count ≤ 4096 }
    ensures { Checks (together_refusal count spans.now) result }
{
    check_spans(count, spans)?;
    if spans.len() > MOST_SPANS || total_of(spans) > MOST_TOGETHER {
        return Err(BlockFault::Limit);
    }
    match first_overlap(spans) {
        Some(_) => Err(BlockFault::Overlap),
        None => Ok(()),
    }
}

/// Whether ranges, which have their lengths in bytes, can be written together.
pub fn check_ranges(count: u64, ranges: &[Span]) -> Result<(), BlockFault>
    requires { count ≤ 4096 }
    ensures { Checks (ranges_refusal count ranges.now) result }
{
    if is_range_past(count, ranges) {
        return Err(BlockFault::Range);
    }
    if is_range_part(ranges) {
        return Err(BlockFault::Length);
    }
    if ranges.len() > MOST_SPANS {
        return Err(BlockFault::Limit);
    }
    let spans = block_spans(ranges);
    check_together(count, &spans[..ranges.len()])
}

// Whether a range ends past the last block.
fn is_range_past(count: u64, ranges: &[Span]) -> bool
    requires { count ≤ 4096 }
    ensures { result ≡ list_any (λ (r : Blocks). nat_lt count (r.start + blocks_touched r.len)) ranges.now }
{
    ranges.iter().any(|range| is_past(count, touched(*range)))
}

// The blocks that a range touches.
fn touched(range: Span) -> Span
    ensures { result ≡ record { start = range.start; len = blocks_touched range.len } }
{
    Span {
        start: range.start,
        len: range.len.div_ceil(BLOCK),
    }
}

// Whether a range has no blocks, or no whole ones.
fn is_range_part(ranges: &[Span]) -> bool
    ensures { result ≡ list_any (λ (r : Blocks). r.len == 0 || not (r.len % 512 == 0)) ranges.now }
{
    ranges
        .iter()
        .any(|range| range.len == 0 || range.len % BLOCK != 0)
}

// The blocks of ranges that have whole ones, before spans of none.
fn block_spans(ranges: &[Span]) -> [Span; 8]
    requires { length ranges.now ≤ 8 }
    ensures { take (length ranges.now) result ≡ block_spans ranges.now }
{
    let mut spans = [Span { start: 0, len: 0 }; 8];
    for i in 0..ranges.len() {
        spans[i] = Span {
            start: ranges[i].start,
            len: ranges[i].len / BLOCK,
        };
    }
    spans
}

/// Whether no line of metadata is bad.
pub fn check_meta<L: Lines>(dev: &L, geo: Geometry) -> Result<(), BlockFault>
    requires valid { IsValid geo }
    requires lines { (L.state dev.now).medium.count ≡ total_lines geo }
    ensures { Checks (meta_refusal geo (L.state dev.now).medium) result }
{
    match first_bad(dev, 0, geo.meta_lines()) {
        Some(line) => Err(BlockFault::Meta(LineNo(line))),
        None => Ok(()),
    }
}
