// Pairs of a number and DATA, as many as there are.
ghost use Rattle.std.specs.Prelude.{ℕ, ◌≤◌, List};
ghost use Rattle.nvm_base.specs.declared.units.Span.{Span as Stretch};
ghost use Rattle.script_text.specs.Action.{Action};
ghost use Rattle.script_text.specs.Parsing.{FindsRange, ParsesAs, ReadsRanges};
ghost use Rattle.script_text.specs.Operands.{fitting, ranges_action, ranges_of};
ghost use Rattle.script_text.specs.Script.{words_of};

use crate::LineFault;
use crate::words::next_word;
use nvm_base::{Bytes, MOST, Span, Spans, TextFault, read_bytes, read_number};
use std::alloc::Global;

// At least one pair: the ranges with their lengths in bytes, and the bytes of all.
pub(crate) fn read_ranges(alloc: Global, words: &[u8]) -> Result<(Spans, Bytes), LineFault>
    ensures { (make : List Stretch → List ℕ → Action)
        → ParsesAs (λ p. make p.0.items p.1.items) (ranges_action make (words_of words.now)) result }
{
    match next_word(words) {
        Some(_) => read_all_ranges(alloc, words),
        None => Err(LineFault::Syntax),
    }
}

fn read_all_ranges(alloc: Global, words: &[u8]) -> Result<(Spans, Bytes), LineFault>
    ensures { ReadsRanges (fitting 65536 (ranges_of (words_of words.now))) result }
{
    let mut ranges = Spans::new(alloc);
    let mut bytes = Bytes::new(alloc);
    let mut rest = words;
    while let Some((start, data, others)) = next_range(alloc, rest, MOST - bytes.len())? {
        let len = data.len();
        if ranges.push(Span { start, len }).is_err() || bytes.extend(data.as_slice()).is_err() {
            return Err(LineFault::Memory);
        }
        rest = others;
    }
    Ok((ranges, bytes))
}

// The first pair, its DATA as at most `room` bytes, and what comes after it.
fn next_range(
    alloc: Global,
    words: &[u8],
    room: u64,
) -> Result<Option<(u64, Bytes, &[u8])>, LineFault>
    requires { room ≤ 65536 }
    ensures { FindsRange room words.now result }
{
    let Some((start, rest)) = next_word(words) else {
        return Ok(None);
    };
    let Some((text, rest)) = next_word(rest) else {
        return Err(LineFault::Syntax);
    };
    let Some(start) = read_number(start) else {
        return Err(LineFault::Syntax);
    };
    match read_bytes(alloc, text, room) {
        Ok(bytes) => Ok(Some((start, bytes, rest))),
        Err(TextFault::Bad | TextFault::TooLong) => Err(LineFault::Syntax),
        Err(TextFault::Memory) => Err(LineFault::Memory),
    }
}
