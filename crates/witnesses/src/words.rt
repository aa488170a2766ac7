// The value that each word of a line keeps, and whether it could keep another one.
ghost use Rattle.std.specs.Prelude.{◌≡◌, ◌<◌, ◌^◌};
ghost use Rattle.std.specs.Option.{option_copied};
ghost use Rattle.witnesses.specs.Asked.{reads_in};
ghost use Rattle.witnesses.specs.Lines.{HasOther, IsAgreed, could_differ, left_of, may_differ, free_words};

use crate::asked::Asked;
use crate::line_kept::LineLeft;
use line_histories::HeldLine;

/// How reads may find line n: bad, or each word with the first value on which all agree.
pub fn line_left(asked: &Asked<'_>, n: u64, line: &HeldLine) -> LineLeft
    requires { n < 2 ^ 32 }
    ensures { result ≡ left_of (reads_in asked.now) n line.now }
{
    if line.is_bad() {
        return LineLeft::Bad;
    }
    LineLeft::Words([
        agreed_value(asked, n, 0, line),
        agreed_value(asked, n, 1, line),
        agreed_value(asked, n, 2, line),
        agreed_value(asked, n, 3, line),
        agreed_value(asked, n, 4, line),
        agreed_value(asked, n, 5, line),
        agreed_value(asked, n, 6, line),
        agreed_value(asked, n, 7, line),
    ])
}

// The first value of word w of line n on which all reads agree, 0 where there is none.
fn agreed_value(asked: &Asked<'_>, n: u64, w: u64, line: &HeldLine) -> u64
    requires line { n < 2 ^ 32 }
    requires word { w < 8 }
    ensures { IsAgreed (reads_in asked.now) n w line.now result }
{
    let (durable, log) = line.values(w);
    let p = 8 * n + w;
    if asked.agree(p, durable) {
        return durable;
    }
    match log
        .iter()
        .find(|stored| stored.word == w && asked.agree(p, stored.value))
    {
        Some(stored) => stored.value,
        None => 0,
    }
}

/// Which words of a line that is left so could be otherwise, where it is such or as a command makes it, or may not be there.
pub fn free_words(now: Option<&HeldLine>, made: Option<&HeldLine>, left: &LineLeft) -> [bool; 8]
    ensures { result ≡ free_words (option_copied now.entry) (option_copied made.entry) left.now }
{
    [
        could_differ(now, 0, left) || could_differ(made, 0, left),
        could_differ(now, 1, left) || could_differ(made, 1, left),
        could_differ(now, 2, left) || could_differ(made, 2, left),
        could_differ(now, 3, left) || could_differ(made, 3, left),
        could_differ(now, 4, left) || could_differ(made, 4, left),
        could_differ(now, 5, left) || could_differ(made, 5, left),
        could_differ(now, 6, left) || could_differ(made, 6, left),
        could_differ(now, 7, left) || could_differ(made, 7, left),
    ]
}

fn could_differ(line: Option<&HeldLine>, w: u64, left: &LineLeft) -> bool
    requires { w < 8 }
    ensures { result ≡ could_differ (option_copied line.entry) w left.now }
{
    match line {
        None => true,
        Some(line) => may_differ(line, w, left),
    }
}

// Whether word w could be otherwise where this is the line.
fn may_differ(line: &HeldLine, w: u64, left: &LineLeft) -> bool
    requires { w < 8 }
    ensures { result ≡ may_differ line.now w left.now }
{
    match left {
        LineLeft::Bad => !line.is_bad(),
        LineLeft::Words(values) => line.is_bad() || has_other(line, w, values[w as usize]),
    }
}

// Whether word w has another value than this one, where the line is not bad.
fn has_other(line: &HeldLine, w: u64, value: u64) -> bool
    requires { w < 8 }
    ensures { HasOther line.now w value result }
{
    let (durable, log) = line.values(w);
    durable != value
        || log
            .iter()
            .any(|stored| stored.word == w && stored.value != value)
}
