ghost use Rattle.std.specs.Prelude.{◌≡◌};
ghost use Rattle.std.specs.Vec.{vec_len};

use crate::survivor;
use arrayvec::ArrayVec;
use line_device::{BYTE_UNIT, word_bytes, word_in};
use std::alloc::{AllocError, Global};

/// How many values of a word a chain has room for, beside the durable one.
const MOST: usize = 15;

/// The values of a line's eight words after the durable ones.
#[derive(Drop)]
pub struct Chain {
    words: Vec<ArrayVec<u64, MOST>>,
    ghost eight: { vec_len words ≡ 8 },
}

impl Chain {
    ghost use Rattle.std.specs.Prelude.{◌≡◌, ◌==◌, ◌+◌, ◌*◌, ◌^◌, ◌<◌, ◌≤◌, ◌∷◌, [], ℕ, length, IfOk, if◌then◌else◌};
    ghost use Rattle.line_device.specs.Word.{word_at, reaches};
    ghost use Rattle.line_module.specs.Chains.{values_in, IsEmptyChain, grown_word};
    ghost use Rattle.line_module.specs.Memory.{one_more, is_full_at};
    ghost use Rattle.line_module.specs.Survivors.{drawn_value, drawn_word, mixed_word};

    pub fn new(alloc: Global) -> Result<Chain, AllocError>
        ensures { IfOk result IsEmptyChain }
    {
        let mut words = Vec::with_capacity(alloc, 8)?;
        for _ in 0..8_u64 {
            words.push(ArrayVec::new())?;
        }
        Ok(Chain { words })
    }

    pub fn clear(&mut self)
        ensures { IsEmptyChain self.new }
    {
        for w in 0..8 {
            self.words[w].clear();
        }
    }

    /// Whether a word that a number of bytes at an offset of the line reach has no room for another value.
    pub fn is_full(&self, at: u64, len: u64) -> bool
        requires some { 0 < len }
        requires fits { at + len ≤ 64 }
        ensures { (first : ℕ → ℕ) → result ≡ is_full_at (λ w. first w ∷ values_in self.now w) at len }
    {
        for w in at / 8..(at + len + 7) / 8 {
            if self.words[w as usize].is_full() {
                return true;
            }
        }
        false
    }

    /// Each word that a number of bytes at an offset of the line reach has one value more, as the line's bytes now have it.
    pub fn grow(&mut self, at: u64, len: u64, line: &[u8; 64])
        requires some { 0 < len }
        requires fits { at + len ≤ 64 }
        ensures { (w first : ℕ) → first ∷ values_in self.new w ≡ grown_word at len line.now w (first ∷ values_in self.old w) }
    {
        for w in at / 8..(at + len + 7) / 8 {
            self.add(w as usize, word_in(line, w));
        }
    }

    /// What a word keeps by a seed in a module of this survival unit, where this value is durable.
    pub fn survivor(&self, unit: u64, seed: u64, place: u64, w: u64, first: u64) -> u64
        requires word { w < 8 }
        requires small { place < 2 ^ 60 }
        ensures { result ≡ drawn_word (unit == 1) seed place first (values_in self.now w) }
    {
        if unit == BYTE_UNIT {
            self.mixed(seed, place, w, first)
        } else {
            self.drawn(seed, place, w, first)
        }
    }

    // Each byte is that of the value which is drawn for the byte's own place.
    fn mixed(&self, seed: u64, place: u64, w: u64, first: u64) -> u64
        requires word { w < 8 }
        requires small { place < 2 ^ 60 }
        ensures { result ≡ mixed_word (λ b. drawn_value seed (8 * place + b) (first ∷ values_in self.now w)) first }
    {
        let mut bytes = [0; 8];
        for b in 0..8_u64 {
            let value = self.drawn(seed, 8 * place + b, w, first);
            bytes[b as usize] = word_bytes(value)[b as usize];
        }
        word_in(&bytes, 0)
    }

    // The value of a word that is drawn for a place.
    fn drawn(&self, seed: u64, place: u64, w: u64, first: u64) -> u64
        requires { w < 8 }
        ensures { result ≡ drawn_value seed place (first ∷ values_in self.now w) }
    {
        let values = self.words[w as usize].as_slice();
        let index = survivor(seed, place, values.len() as u64 + 1);
        if index == 0 {
            first
        } else {
            values[index as usize - 1]
        }
    }

    // The word has one value more. Where there is no room, the first one after the durable one makes it.
    fn add(&mut self, w: usize, value: u64)
        requires { w < 8 }
        ensures on { (first : ℕ) → first ∷ values_in self.new w ≡ one_more (first ∷ values_in self.old w) value }
        ensures beside { (v : ℕ) → (v ≡ w → ⊥) → values_in self.new v ≡ values_in self.old v }
    {
        if self.words[w].is_full() {
            self.words[w].remove(0);
        }
        self.words[w].push(value);
    }
}
