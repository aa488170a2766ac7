// Pairs of numbers, as many as there are.
ghost use Rattle.std.specs.Prelude.{ℕ, List};
ghost use Rattle.nvm_base.specs.declared.units.Span.{Span as Stretch};
ghost use Rattle.script_text.specs.Action.{Action};
ghost use Rattle.script_text.specs.Parsing.{FindsSpan, ParsesAs, ReadsSpans};
ghost use Rattle.script_text.specs.Operands.{numbered_action, spans_action, spans_of};
ghost use Rattle.script_text.specs.Script.{words_of};

use crate::LineFault;
use crate::words::next_word;
use nvm_base::{Span, Spans, read_number};
use std::alloc::Global;

// A handle and at least one pair.
pub(crate) fn read_spans_of(alloc: Global, words: &[u8]) -> Result<(u64, Spans), LineFault>
    ensures { (make : ℕ → List Stretch → Action)
        → ParsesAs (λ p. make p.0 p.1.items) (numbered_action (λ handle. spans_action (make handle)) (words_of words.now)) result }
{
    let Some((handle, rest)) = next_word(words) else {
        return Err(LineFault::Syntax);
    };
    let Some(handle) = read_number(handle) else {
        return Err(LineFault::Syntax);
    };
    match read_spans(alloc, rest) {
        Ok(spans) => Ok((handle, spans)),
        Err(fault) => Err(fault),
    }
}

// At least one pair.
pub(crate) fn read_spans(alloc: Global, words: &[u8]) -> Result<Spans, LineFault>
    ensures { (make : List Stretch → Action) → ParsesAs (λ spans. make spans.items) (spans_action make (words_of words.now)) result }
{
    match next_word(words) {
        Some(_) => read_all_spans(alloc, words),
        None => Err(LineFault::Syntax),
    }
}

fn read_all_spans(alloc: Global, words: &[u8]) -> Result<Spans, LineFault>
    ensures { ReadsSpans (spans_of (words_of words.now)) result }
{
    let mut spans = Spans::new(alloc);
    let mut rest = words;
    while let Some((span, others)) = next_span(rest)? {
        if spans.push(span).is_err() {
            return Err(LineFault::Memory);
        }
        rest = others;
    }
    Ok(spans)
}

// The first pair and what comes after it.
fn next_span(words: &[u8]) -> Result<Option<(Span, &[u8])>, LineFault>
    ensures { FindsSpan words.now result }
{
    let Some((start, rest)) = next_word(words) else {
        return Ok(None);
    };
    let Some((len, rest)) = next_word(rest) else {
        return Err(LineFault::Syntax);
    };
    match (read_number(start), read_number(len)) {
        (Some(start), Some(len)) => Ok(Some((Span { start, len }, rest))),
        _ => Err(LineFault::Syntax),
    }
}
