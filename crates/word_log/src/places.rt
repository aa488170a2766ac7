// The places of a log's words.
ghost use Rattle.std.specs.Prelude.{◌≡◌, ◌+◌, ◌*◌, ◌/◌, ◌<◌, ◌≤◌, ◌^◌, ℕ};
ghost use Rattle.word_log.specs.Area.{gate_place, count_place, entry_place, IsHome, is_home};

use crate::LogArea;
use nvm_base::Span;

impl LogArea {
    pub fn gate_place(self) -> u64
        requires { gate_place self < 2 ^ 64 }
        ensures { result ≡ gate_place self }
    {
        8 * self.log.start
    }

    pub fn count_place(self) -> u64
        requires { count_place self < 2 ^ 64 }
        ensures { result ≡ count_place self }
    {
        8 * self.log.start + 1
    }

    /// Where entry k stands: the place of a word, and its value in the next word.
    pub fn entry_place(self, k: u64) -> u64
        requires { entry_place self k < 2 ^ 64 }
        ensures { result ≡ entry_place self k }
    {
        8 * self.log.start + 8 + 2 * k
    }

    /// The log may change the word at this place.
    pub fn has_home(self, place: u64) -> bool
        ensures { result ≡ is_home self place }
    {
        place >= self.home.start && place - self.home.start < self.home.len
    }

    /// The lines of the home words.
    pub fn home_lines(self) -> Span
        requires { self.home.start + self.home.len < 2 ^ 64 }
        ensures covers { (p : ℕ) → IsHome self p → (result.start ≤ p / 8) × (p / 8 < result.start + result.len) }
        ensures only { (line : ℕ) → result.start ≤ line → line < result.start + result.len
            → (p : ℕ) × IsHome self p × (p / 8 ≡ line) }
        ensures end { 8 * (result.start + result.len) ≤ self.home.start + self.home.len + 7 }
        ensures few { result.len ≤ self.home.len / 8 + 2 }
    {
        if self.home.len == 0 {
            return Span { start: 0, len: 0 };
        }
        let first = self.home.start / 8;
        let last = (self.home.start + self.home.len - 1) / 8;
        Span {
            start: first,
            len: last - first + 1,
        }
    }
}
