// Where the lines of some storage lie.
ghost use Rattle.std.specs.Prelude.{◌≡◌, ◌≤◌, ℕ, Option, true};
ghost use Rattle.page_lines.specs.Placed.{AreApart, whole};
ghost use Rattle.page_lines.specs.Stretches.{IsStretchOf, has_line, stretch_place};

use crate::Stretch;

/// Tells which line of a device each line of some storage lies at.
pub trait Places {
    /// None where it lies nowhere.
    ghost place: { Self → ℕ → Option ℕ };

    fn line(&self, n: u64) -> Option<u64>
        ensures { result ≡ place self.now n };

    /// Lines around line n that lie at neighbouring lines of the device, of which those before `_end` are asked for. Where
    /// no more is known than where a line lies, it is that line.
    fn stretch(&self, n: u64, _end: u64) -> Stretch
        ensures within { has_line result n ≡ true }
        ensures lines { IsStretchOf (place self.now) result }
    {
        Stretch::new(n, 1, self.line(n))
    }
}

/// Lines that each lie at the line of the device with its own number.
#[derive(Clone, Copy, Debug)]
pub struct Whole {
    pub count: u64,
}

impl Places for Whole {
    ghost place = { λ lines. whole lines.count };

    fn line(&self, n: u64) -> Option<u64> {
        if n < self.count { Some(n) } else { None }
    }

    fn stretch(&self, n: u64, _end: u64) -> Stretch {
        if n < self.count {
            Stretch::new(0, self.count, Some(0))
        } else {
            Stretch::new(n, 1, None)
        }
    }
}

impl Stretch {
    fn has(&self, n: u64) -> bool
        ensures { result ≡ has_line self.now n }
    {
        self.start <= n && n - self.start < self.len
    }

    // The stretch itself where it has line n, and else that of the line.
    pub(crate) fn reaching<P: Places>(self, places: &P, n: u64, end: u64) -> Self
        requires lines { IsStretchOf (P.place places.now) self }
        ensures lines { IsStretchOf (P.place places.now) result }
        ensures line { stretch_place result n ≡ P.place places.now n }
    {
        if self.has(n) {
            self
        } else {
            places.stretch(n, end)
        }
    }
}

impl Places for Stretch {
    ghost place = { stretch_place };

    fn line(&self, n: u64) -> Option<u64> {
        match self.line {
            Some(line) if self.has(n) => Some(line + (n - self.start)),
            _ => None,
        }
    }
}

/// Lines at their own numbers are apart, where the device has as many.
pub fn whole_lines_are_apart()
    ensures { (count lines : ℕ) → count ≤ lines → AreApart (whole count) lines }
{}
