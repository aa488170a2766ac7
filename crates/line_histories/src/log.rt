// Values that words of a line got since it was last durable.
ghost use Rattle.std.specs.Prelude.{◌≡◌, ◌+◌, ◌*◌, ◌<◌, ◌^◌, ◌∷◌, ℕ, OnOk, length, slice_index};
ghost use Rattle.line_device.specs.History.{newest};
ghost use Rattle.line_device.specs.Medium.{word_stored};
ghost use Rattle.line_histories.specs.Log.{history_in, history};

use crate::words::{put_word, reaches_word, touches_line};
use std::alloc::AllocError;

/// A word of a line, and a value that it got.
#[derive(Clone, Copy)]
pub struct Stored {
    pub word: u64,
    pub value: u64,
}

// The last value of word w.
fn newest_in(durable: u64, log: &[Stored], w: u64) -> u64
    ensures { result ≡ newest (durable ∷ history_in log.now w) }
{
    let mut newest = durable;
    for stored in log {
        if stored.word == w {
            newest = stored.value;
        }
    }
    newest
}

// Puts bytes over word w of line n, if they reach it.
fn log_word(
    durable: u64,
    log: &mut Vec<Stored>,
    n: u64,
    w: u64,
    at: u64,
    bytes: &[u8],
) -> Result<(), AllocError>
    requires n { n < 2 ^ 57 }
    requires w { w < 8 }
    ensures word { OnOk result (durable ∷ history_in log.new.items w ≡ word_stored at bytes.now (8 * n + w) (durable ∷ history_in log.old.items w)) }
    ensures others { OnOk result ((other : ℕ) → (other ≡ w → ⊥) → history_in log.new.items other ≡ history_in log.old.items other) }
{
    let word = 8 * n + w;
    if reaches_word(at, bytes.len() as u64, word) {
        let value = put_word(at, bytes, word, newest_in(durable, log, w));
        log.push(Stored { word: w, value })?;
    }
    Ok(())
}

/// Puts bytes over the words of line n.
pub fn log_line(
    durable: &[u64; 8],
    log: &mut Vec<Stored>,
    n: u64,
    at: u64,
    bytes: &[u8],
) -> Result<(), AllocError>
    requires { n < 2 ^ 57 }
    ensures { OnOk result ((w : ℕ) → w < 8 → history durable.now log.new.items w ≡ word_stored at bytes.now (8 * n + w) (history durable.now log.old.items w)) }
{
    if !touches_line(at, bytes.len() as u64, n) {
        return Ok(());
    }
    for w in 0..8_u64 {
        log_word(durable[w as usize], log, n, w, at, bytes)?;
    }
    Ok(())
}

/// Makes the last value of each word the durable one.
pub fn settle(durable: &mut [u64; 8], log: &[Stored])
    ensures eight { length durable.new ≡ 8 }
    ensures words { (w : ℕ) → w < 8 → slice_index durable.new w ≡ newest (history durable.old log.now w) }
{
    for stored in log {
        if stored.word < 8 {
            durable[stored.word as usize] = stored.value;
        }
    }
}
