// Pages and lines that ranges of bytes touch, and bytes laid over others.
ghost use Rattle.std.specs.Prelude.{◌≡◌, ◌+◌, ◌-◌, ◌<◌, ◌≤◌, ◌^◌, ℕ, All, length, slice_index, sum_by, true, if◌then◌else◌};
ghost use Rattle.nvm_base.specs.declared.units.Span.{Span as Stretch};
ghost use Rattle.nvm_model.specs.Cell.{covers};
ghost use Rattle.nvm_model.specs.Numbered.{is_among};
ghost use Rattle.nvm_model.specs.Page.{touches_page};
ghost use Rattle.range_sets.specs.Ranges.{IsInReach, is_disjoint};
ghost use Rattle.file_actions.specs.Rewriting.{covers_any, byte_laid, pages_touched, touches_any_page};

use nvm_base::{LINE, PAGE, Span};

/// Whether some range touches a page.
pub(crate) fn touches_any(ranges: &[Span], page: u64) -> bool
    requires ends { All IsInReach ranges.now }
    requires small { page < 2 ^ 40 }
    ensures { result ≡ touches_any_page ranges.now page }
{
    for range in ranges {
        if touches(*range, page) {
            return true;
        }
    }
    false
}

fn touches(range: Span, page: u64) -> bool
    requires end { IsInReach range }
    requires small { page < 2 ^ 40 }
    ensures { result ≡ touches_page range.start range.len page }
{
    range.start < PAGE * page + PAGE && PAGE * page < range.start + range.len
}

/// Whether some range covers a line wholly.
pub(crate) fn covers_any(ranges: &[Span], line: u64) -> bool
    requires ends { All IsInReach ranges.now }
    requires small { line < 2 ^ 40 }
    ensures { result ≡ covers_any ranges.now line }
{
    for range in ranges {
        if covers(*range, line) {
            return true;
        }
    }
    false
}

fn covers(range: Span, line: u64) -> bool
    requires end { IsInReach range }
    requires small { line < 2 ^ 40 }
    ensures { result ≡ covers range.start range.len line }
{
    range.start <= LINE * line && LINE * line + LINE <= range.start + range.len
}

/// How many of a number of pages ranges touch.
pub(crate) fn pages_touched(ranges: &[Span], count: u64) -> u64
    requires ends { All IsInReach ranges.now }
    requires small { count ≤ 256 }
    ensures { result ≡ pages_touched ranges.now count }
{
    let mut touched = 0;
    for page in 0..count {
        touched += u64::from(touches_any(ranges, page));
    }
    touched
}

/// Lays the bytes of ranges over those of a file from an offset on. Each range has its part of them.
pub(crate) fn lay(ranges: &[Span], bytes: &[u8], offset: u64, out: &mut [u8])
    requires ends { All IsInReach ranges.now }
    requires disjoint { is_disjoint ranges.now ≡ true }
    requires bytes { length bytes.now ≡ sum_by (λ (r : Stretch). r.len) ranges.now }
    requires small { offset + length out.old ≤ 2 ^ 40 }
    ensures length { length out.new ≡ length out.old }
    ensures bytes { (i : ℕ) → i < length out.old
        → slice_index out.new i ≡ byte_laid ranges.now bytes.now (offset + i) (slice_index out.old i) }
{
    let mut at = 0;
    for range in ranges {
        let end = at + range.len as usize;
        lay_one(*range, &bytes[at..end], offset, out);
        at = end;
    }
}

// Lays the bytes of one range over them.
fn lay_one(range: Span, bytes: &[u8], offset: u64, out: &mut [u8])
    requires end { IsInReach range }
    requires bytes { length bytes.now ≡ range.len }
    requires small { offset + length out.old ≤ 2 ^ 40 }
    ensures length { length out.new ≡ length out.old }
    ensures bytes { (i : ℕ) → i < length out.old → slice_index out.new i
        ≡ (if is_among range.start range.len (offset + i) then slice_index bytes.now (offset + i - range.start) else slice_index out.old i) }
{
    let start = range.start.max(offset);
    let end = (range.start + range.len).min(offset + out.len() as u64);
    if end <= start {
        return;
    }
    let part = &bytes[(start - range.start) as usize..(end - range.start) as usize];
    out[(start - offset) as usize..(end - offset) as usize].copy_from_slice(part);
}
