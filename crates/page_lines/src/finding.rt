// Bad lines that a span touches. None of this makes a counted call.
ghost use Rattle.std.specs.Prelude.{◌≡◌, ◌&&◌, ◌+◌, ◌*◌, ◌<◌, ◌≤◌, ◌^◌};
ghost use Rattle.nvm_model.specs.Cell.{touches};
ghost use Rattle.page_lines.specs.Placed.{AreApart};
ghost use Rattle.page_lines.specs.Sought.{is_bad_at, is_sought, lowest_bad_in};

use crate::Places;
use line_device::Lines;
use nvm_base::{LINE, LineNo, Span, lines_of};

/// Which bad lines a search is after.
#[derive(Clone, Copy, Debug, PartialEq, Eq)]
pub enum BadLines {
    All,
    /// Lines of which the span touches some bytes, and not all.
    NotCovered,
    /// Lines from this one on.
    From(u64),
}

impl BadLines {
    // Whether the search is after line n, where it is bad.
    fn takes(self, span: Span, n: u64) -> bool
        requires within { span.start + span.len ≤ 2 ^ 40 }
        requires small { n ≤ 2 ^ 40 }
        ensures { result ≡ is_sought self span n }
    {
        match self {
            BadLines::All => true,
            BadLines::NotCovered => {
                !(span.start <= LINE * n && LINE * n + LINE <= span.start + span.len)
            }
            BadLines::From(first) => first <= n,
        }
    }
}

/// The number of the lowest line, among those that the span touches and that exist, that is bad.
pub fn lowest_bad<L: Lines, P: Places>(
    dev: &L,
    places: &P,
    span: Span,
    which: BadLines,
) -> Option<u64>
    requires some { 1 ≤ span.len }
    requires within { span.start + span.len ≤ 2 ^ 40 }
    requires apart { AreApart (P.place places.now) (L.state dev.now).medium.count }
    ensures { result ≡ lowest_bad_in which (P.place places.now) (L.state dev.now).medium span }
{
    let touched = lines_of(span);
    let end = touched.start + touched.len;
    let mut stretch = places.stretch(touched.start, end);
    for k in 0..touched.len {
        let n = touched.start + k;
        stretch = stretch.reaching(places, n, end);
        if is_hit(dev, &stretch, span, which, n) {
            return Some(n);
        }
    }
    None
}

// Whether line n is bad, and one that the search is after.
fn is_hit<L: Lines, P: Places>(dev: &L, places: &P, span: Span, which: BadLines, n: u64) -> bool
    requires within { span.start + span.len ≤ 2 ^ 40 }
    requires small { n ≤ 2 ^ 40 }
    requires apart { AreApart (P.place places.now) (L.state dev.now).medium.count }
    ensures { result ≡ (is_sought which span n && is_bad_at (L.state dev.now).medium (P.place places.now n)) }
{
    which.takes(span, n) && is_bad(dev, places, n)
}

// Whether line n is there and bad.
fn is_bad<L: Lines, P: Places>(dev: &L, places: &P, n: u64) -> bool
    requires apart { AreApart (P.place places.now) (L.state dev.now).medium.count }
    ensures { result ≡ is_bad_at (L.state dev.now).medium (P.place places.now n) }
{
    match places.line(n) {
        Some(line) => dev.is_bad(LineNo(line)),
        None => false,
    }
}
