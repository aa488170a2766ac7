// What keeps ranges from being a set.
ghost use Rattle.std.specs.Prelude.{◌≡◌, All, MatchOption, true};
ghost use Rattle.std.specs.List.{list_any};
ghost use Rattle.nvm_base.specs.Units.{overlap};
ghost use Rattle.range_sets.specs.Faults.{IsFirstOverlap, first_empty};
ghost use Rattle.range_sets.specs.Ranges.{HasBytes, IsInReach, is_disjoint};

use nvm_base::Span;

pub(crate) fn first_empty(ranges: &[Span]) -> Option<usize>
    ensures { result ≡ first_empty ranges.now }
{
    ranges.iter().position(|range| range.len == 0)
}

/// The index of the first range that shares a byte with an earlier one.
pub fn first_overlap(ranges: &[Span]) -> Option<usize>
    requires some { All HasBytes ranges.now }
    requires ends { All IsInReach ranges.now }
    ensures { MatchOption result (is_disjoint ranges.now ≡ true) (IsFirstOverlap ranges.now) }
{
    for i in 0..ranges.len() {
        if meets(&ranges[..i], ranges[i]) {
            return Some(i);
        }
    }
    None
}

// Whether a range shares a byte with one of these.
fn meets(ranges: &[Span], range: Span) -> bool
    requires some { All HasBytes ranges.now }
    requires ends { All IsInReach ranges.now }
    requires some_byte { HasBytes range }
    requires end { IsInReach range }
    ensures { result ≡ list_any (λ r. overlap r range) ranges.now }
{
    for earlier in ranges {
        if nvm_base::overlaps(*earlier, range) {
            return true;
        }
    }
    false
}
