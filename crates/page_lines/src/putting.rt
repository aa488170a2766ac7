// Bytes put over lines, which a cut may lose until the lines are made durable.
ghost use Rattle.std.specs.Prelude.{◌≡◌, ◌+◌, ◌*◌, ◌<◌, ◌≤◌, ◌^◌, ℕ, true, false, Some, IsTrue, MatchResult, OnErr, OnOk, length};
ghost use Rattle.line_device.specs.Medium.{WritesBack, IsHealthy};
ghost use Rattle.line_device.specs.Panel.{Runs};
ghost use Rattle.line_words.specs.Ending.{ended};
ghost use Rattle.nvm_model.specs.Cell.{put_cell, touches, covers};
ghost use Rattle.nvm_model.specs.Interrupted.{MayPut};
ghost use Rattle.page_lines.specs.Placed.{AreApart, IsPlaced, one_there, there_in};
ghost use Rattle.page_lines.specs.Turns.{Turns, MayTurn, WritesBackOthers, healed};

use crate::Places;
use line_device::Lines;
use line_words::{Interruption, clear_line, stop_of};
use nvm_base::{LINE, LineNo, Span, lines_of};

/// Puts bytes at an offset of the storage, in those of its lines that exist. Bad lines are cleared first, and all bytes
/// of such a line are put.
pub fn put_lines<L: Lines, P: Places>(
    dev: &mut L,
    places: &P,
    offset: u64,
    bytes: &[u8],
) -> Result<(), Interruption>
    requires some { 1 ≤ length bytes.now }
    requires within { offset + length bytes.now ≤ 2 ^ 40 }
    requires apart { AreApart (P.place places.now) (L.state dev.old).medium.count }
    requires poison { (n line : ℕ) → touches offset (length bytes.now) n ≡ true → P.place places.now n ≡ Some line
        → (L.state dev.old).medium.is_bad line ≡ true → covers offset (length bytes.now) n ≡ true }
    requires on { IsTrue (L.state dev.old).panel.power }
    ensures ok { OnOk result ((n line : ℕ) → P.place places.now n ≡ Some line
        → Turns (put_cell offset bytes.now n) line (L.state dev.old).medium (L.state dev.new).medium) }
    ensures err { OnErr result ((n line : ℕ) → P.place places.now n ≡ Some line
        → MayTurn (MayPut offset bytes.now n) line (L.state dev.old).medium (L.state dev.new).medium) }
    ensures outside { WritesBackOthers (IsPlaced (P.place places.now) offset (length bytes.now))
        (L.state dev.old).medium (L.state dev.new).medium }
    ensures runs { Runs (2 * there_in (P.place places.now) (record { start = offset; len = length bytes.now })) 0 (ended result)
        (L.state dev.old).panel (L.state dev.new).panel }
{
    let touched = lines_of(Span {
        start: offset,
        len: bytes.len() as u64,
    });
    let end = touched.start + touched.len;
    let mut stretch = places.stretch(touched.start, end);
    for k in 0..touched.len {
        let n = touched.start + k;
        stretch = stretch.reaching(places, n, end);
        put_at(dev, &stretch, offset, bytes, n)?;
    }
    Ok(())
}

// Puts into line n what falls on it, where it is there.
fn put_at<L: Lines, P: Places>(
    dev: &mut L,
    places: &P,
    offset: u64,
    bytes: &[u8],
    n: u64,
) -> Result<(), Interruption>
    requires some { 1 ≤ length bytes.now }
    requires within { offset + length bytes.now ≤ 2 ^ 40 }
    requires touched { touches offset (length bytes.now) n ≡ true }
    requires apart { AreApart (P.place places.now) (L.state dev.old).medium.count }
    requires poison { (line : ℕ) → P.place places.now n ≡ Some line → (L.state dev.old).medium.is_bad line ≡ true
        → covers offset (length bytes.now) n ≡ true }
    requires on { IsTrue (L.state dev.old).panel.power }
    ensures ok { OnOk result ((line : ℕ) → P.place places.now n ≡ Some line
        → Turns (put_cell offset bytes.now n) line (L.state dev.old).medium (L.state dev.new).medium) }
    ensures err { OnErr result ((line : ℕ) → P.place places.now n ≡ Some line
        → MayTurn (MayPut offset bytes.now n) line (L.state dev.old).medium (L.state dev.new).medium) }
    ensures outside { WritesBackOthers (λ line. P.place places.now n ≡ Some line)
        (L.state dev.old).medium (L.state dev.new).medium }
    ensures runs { Runs (2 * one_there (P.place places.now n)) 0 (ended result) (L.state dev.old).panel (L.state dev.new).panel }
{
    match places.line(n) {
        Some(line) => put_one(dev, line, offset, bytes, n),
        None => Ok(()),
    }
}

// Puts what falls on line n into the line of the device that it is at.
fn put_one<L: Lines>(
    dev: &mut L,
    line: u64,
    offset: u64,
    bytes: &[u8],
    n: u64,
) -> Result<(), Interruption>
    requires some { 1 ≤ length bytes.now }
    requires within { offset + length bytes.now ≤ 2 ^ 40 }
    requires touched { touches offset (length bytes.now) n ≡ true }
    requires there { line < (L.state dev.old).medium.count }
    requires poison { (L.state dev.old).medium.is_bad line ≡ true → covers offset (length bytes.now) n ≡ true }
    requires on { IsTrue (L.state dev.old).panel.power }
    ensures ok { OnOk result (Turns (put_cell offset bytes.now n) line (L.state dev.old).medium (L.state dev.new).medium) }
    ensures err { OnErr result (MayTurn (MayPut offset bytes.now n) line (L.state dev.old).medium (L.state dev.new).medium) }
    ensures outside { WritesBackOthers (λ other. other ≡ line) (L.state dev.old).medium (L.state dev.new).medium }
    ensures runs { Runs 2 0 (ended result) (L.state dev.old).panel (L.state dev.new).panel }
{
    make_healthy(dev, line)?;
    store_part(dev, line, offset, bytes, n)
}

// Clears a line that is bad.
fn make_healthy<L: Lines>(dev: &mut L, line: u64) -> Result<(), Interruption>
    requires there { line < (L.state dev.old).medium.count }
    requires on { IsTrue (L.state dev.old).panel.power }
    ensures healthy { OnOk result (IsHealthy (L.state dev.new).medium line) }
    ensures lines { MatchResult result
        (λ _. Turns healed line (L.state dev.old).medium (L.state dev.new).medium)
        (λ _. WritesBack (L.state dev.old).medium (L.state dev.new).medium) }
    ensures outside { WritesBackOthers (λ other. other ≡ line) (L.state dev.old).medium (L.state dev.new).medium }
    ensures runs { Runs 1 0 (ended result) (L.state dev.old).panel (L.state dev.new).panel }
{
    if dev.is_bad(LineNo(line)) {
        clear_line(dev, line)?;
    }
    Ok(())
}

// Stores what falls on line n.
fn store_part<L: Lines>(
    dev: &mut L,
    line: u64,
    offset: u64,
    bytes: &[u8],
    n: u64,
) -> Result<(), Interruption>
    requires some { 1 ≤ length bytes.now }
    requires within { offset + length bytes.now ≤ 2 ^ 40 }
    requires touched { touches offset (length bytes.now) n ≡ true }
    requires healthy { IsHealthy (L.state dev.old).medium line }
    requires on { IsTrue (L.state dev.old).panel.power }
    ensures lines { MatchResult result
        (λ _. Turns (put_cell offset bytes.now n) line (L.state dev.old).medium (L.state dev.new).medium)
        (λ _. WritesBack (L.state dev.old).medium (L.state dev.new).medium) }
    ensures outside { WritesBackOthers (λ other. other ≡ line) (L.state dev.old).medium (L.state dev.new).medium }
    ensures runs { Runs 1 0 (ended result) (L.state dev.old).panel (L.state dev.new).panel }
{
    let start = offset.max(LINE * n);
    let end = (offset + bytes.len() as u64).min(LINE * n + LINE);
    let skip = (start - offset) as usize;
    let size = (end - start) as usize;
    match dev.store(LineNo(line), start % LINE, &bytes[skip..skip + size]) {
        Ok(()) => Ok(()),
        Err(fault) => Err(stop_of(fault, line)),
    }
}
