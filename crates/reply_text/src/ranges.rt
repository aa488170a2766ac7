// The text of ranges.
ghost use Rattle.std.specs.Prelude.{◌*◌, ◌^◌, ◌<◌, ◌≤◌, All, length, sum_by};
ghost use Rattle.nvm_base.specs.Stock.{Appends};
ghost use Rattle.reply_text.specs.Answer.{answer_text, range_text, ranges_text};
ghost use Rattle.reply_text.specs.Answer.Answer.{Ranges};
ghost use Rattle.reply_text.specs.Room.{HasStart};

use crate::printing::print_counted;
use nvm_base::{Bytes, Span};
use std::alloc::AllocError;

// Each range with its offset.
pub(crate) fn print_ranges(ranges: &[Span], out: &mut Bytes) -> Result<(), AllocError>
    requires { sum_by (λ (r : Span). r.len) ranges.now < 2 ^ 64 }
    ensures text { Appends (answer_text (Ranges ranges.now)) result out.old out.new }
    ensures short { length (ranges_text 0 ranges.now) ≤ 63 * length ranges.now }
{
    know_starts(ranges);
    out.extend(b"ranges")?;
    let mut offset = 0;
    for range in ranges {
        print_range(offset, *range, out)?;
        offset += range.len;
    }
    Ok(())
}

// What their type says of ranges.
fn know_starts(ranges: &[Span])
    ensures { All HasStart ranges.now }
{
    for range in ranges {
        know_number(range.start);
    }
}

fn know_number(n: u64)
    ensures { n < 2 ^ 64 }
{}

fn print_range(offset: u64, range: Span, out: &mut Bytes) -> Result<(), AllocError>
    ensures { Appends (range_text offset range) result out.old out.new }
{
    print_counted(b" ", offset, out)?;
    print_counted(b" ", range.start, out)?;
    print_counted(b" ", range.len, out)
}
