// The lines of log and home: whether one is bad, and making them durable.
ghost use Rattle.std.specs.Prelude.{◌≡◌, ◌+◌, ◌/◌, ◌<◌, ◌≤◌, ℕ, true, false, MatchOption, OnOk};
ghost use Rattle.line_device.specs.Medium.{WritesBack, last_image};
ghost use Rattle.line_device.specs.Panel.{Runs};
ghost use Rattle.word_log.specs.Area.{Fits, IsUsable, IsWhole, IsOf, IsLineOf};
ghost use Rattle.line_words.specs.Words.{IsOnly};
ghost use Rattle.line_words.specs.Ending.{ended};

use crate::LogArea;
use line_device::Lines;
use line_words::{Interruption, first_bad, persist_lines};
use nvm_base::{LineNo, Span};

/// The lowest bad one of these lines.
fn bad_line_in<L: Lines>(dev: &L, lines: Span) -> Option<LineNo>
    requires { lines.start + lines.len ≤ (L.state dev.now).medium.count }
    ensures { MatchOption result
        ((line : ℕ) → lines.start ≤ line → line < lines.start + lines.len → (L.state dev.now).medium.is_bad line ≡ false)
        (λ line. (lines.start ≤ line.0) × (line.0 < lines.start + lines.len)
        × ((L.state dev.now).medium.is_bad line.0 ≡ true)) }
{
    match first_bad(dev, lines.start, lines.len) {
        Some(k) => Some(LineNo(lines.start + k)),
        None => None,
    }
}

/// A bad line of log or home. It makes no counted call.
pub fn bad_line<L: Lines>(dev: &L, area: LogArea) -> Option<LineNo>
    requires { Fits area (L.state dev.now).medium }
    ensures { MatchOption result (IsWhole area (L.state dev.now).medium)
        (λ line. IsLineOf area line.0 × ((L.state dev.now).medium.is_bad line.0 ≡ true)) }
{
    if let Some(line) = bad_line_in(dev, area.log) {
        return Some(line);
    }
    bad_line_in(dev, area.home_lines())
}

/// Makes log and home durable.
pub fn make_durable<L: Lines>(dev: &mut L, area: LogArea) -> Result<(), Interruption>
    requires usable { IsUsable area (L.state dev.old) }
    ensures lines { WritesBack (L.state dev.old).medium (L.state dev.new).medium }
    ensures ok { OnOk result ((p : ℕ) → IsOf area p
        → IsOnly (last_image (L.state dev.old).medium p) ((L.state dev.new).medium.history p)) }
    ensures runs { Runs (area.log.len + area.home.len / 8 + 2) (area.log.len + area.home.len / 8 + 2)
        (ended result) (L.state dev.old).panel (L.state dev.new).panel }
{
    persist_lines(dev, area.log.start, area.log.len)?;
    let home = area.home_lines();
    persist_lines(dev, home.start, home.len)
}
