// Lines made durable, which a weak line does not survive.
ghost use Rattle.std.specs.Prelude.{◌≡◌, ◌+◌, ◌<◌, ◌≤◌, ◌^◌, ℕ, Some, IsTrue, MatchResult, OnErr, OnOk};
ghost use Rattle.line_device.specs.Medium.{WritesBack, persisted};
ghost use Rattle.line_device.specs.Panel.{Runs};
ghost use Rattle.line_words.specs.Ending.{ended};
ghost use Rattle.nvm_model.specs.Cell.{flush_cell, persist_cell};
ghost use Rattle.nvm_model.specs.Interrupted.{MayPersist};
ghost use Rattle.page_lines.specs.Placed.{AreApart, IsPlaced, one_there, there_in};
ghost use Rattle.page_lines.specs.Turns.{Turns, MayTurn, WritesBackOthers};

use crate::Places;
use line_device::Lines;
use line_words::{Interruption, stop_of};
use nvm_base::{LineNo, Span, lines_of};

/// Makes each line durable that the span touches and that exists, by one call each. A weak one becomes bad, and a bad one is
/// passed over.
pub fn persist_lines<L: Lines, P: Places>(
    dev: &mut L,
    places: &P,
    span: Span,
) -> Result<(), Interruption>
    requires some { 1 ≤ span.len }
    requires within { span.start + span.len ≤ 2 ^ 40 }
    requires apart { AreApart (P.place places.now) (L.state dev.old).medium.count }
    requires on { IsTrue (L.state dev.old).panel.power }
    ensures ok { OnOk result ((n line : ℕ) → P.place places.now n ≡ Some line
        → Turns (persist_cell span.start span.len n) line (L.state dev.old).medium (L.state dev.new).medium) }
    ensures err { OnErr result ((n line : ℕ) → P.place places.now n ≡ Some line
        → MayTurn (MayPersist span.start span.len n) line (L.state dev.old).medium (L.state dev.new).medium) }
    ensures outside { WritesBackOthers (IsPlaced (P.place places.now) span.start span.len)
        (L.state dev.old).medium (L.state dev.new).medium }
    ensures runs { Runs (there_in (P.place places.now) span) (there_in (P.place places.now) span) (ended result)
        (L.state dev.old).panel (L.state dev.new).panel }
{
    let touched = lines_of(span);
    let end = touched.start + touched.len;
    let mut stretch = places.stretch(touched.start, end);
    for k in 0..touched.len {
        let n = touched.start + k;
        stretch = stretch.reaching(places, n, end);
        persist_at(dev, &stretch, n)?;
    }
    Ok(())
}

// Makes line n durable, where it is there.
fn persist_at<L: Lines, P: Places>(dev: &mut L, places: &P, n: u64) -> Result<(), Interruption>
    requires apart { AreApart (P.place places.now) (L.state dev.old).medium.count }
    requires on { IsTrue (L.state dev.old).panel.power }
    ensures ok { OnOk result ((line : ℕ) → P.place places.now n ≡ Some line
        → Turns flush_cell line (L.state dev.old).medium (L.state dev.new).medium) }
    ensures err { OnErr result (WritesBack (L.state dev.old).medium (L.state dev.new).medium) }
    ensures outside { WritesBackOthers (λ line. P.place places.now n ≡ Some line)
        (L.state dev.old).medium (L.state dev.new).medium }
    ensures runs { Runs (one_there (P.place places.now n)) (one_there (P.place places.now n)) (ended result)
        (L.state dev.old).panel (L.state dev.new).panel }
{
    match places.line(n) {
        Some(line) => persist_one(dev, line),
        None => Ok(()),
    }
}

// Makes a line of the device durable, unless it is bad.
fn persist_one<L: Lines>(dev: &mut L, line: u64) -> Result<(), Interruption>
    requires within { line < (L.state dev.old).medium.count }
    requires on { IsTrue (L.state dev.old).panel.power }
    ensures lines { MatchResult result
        (λ _. WritesBack (persisted (L.state dev.old).medium line) (L.state dev.new).medium)
        (λ _. WritesBack (L.state dev.old).medium (L.state dev.new).medium) }
    ensures runs { Runs 1 1 (ended result) (L.state dev.old).panel (L.state dev.new).panel }
{
    if dev.is_bad(LineNo(line)) {
        return Ok(());
    }
    match dev.persist(LineNo(line)) {
        Ok(()) => Ok(()),
        Err(fault) => Err(stop_of(fault, line)),
    }
}
