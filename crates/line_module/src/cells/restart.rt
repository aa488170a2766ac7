// What the words of lines keep when the power comes back.
ghost use Rattle.std.specs.Prelude.{◌≡◌, ◌+◌, ◌*◌, ◌<◌, ◌≤◌, ◌∷◌, ℕ, [], false, true, slice_get};
ghost use Rattle.line_device.specs.Word.{word_at};
ghost use Rattle.line_device.specs.declared.line.Choice.TheVariants.{Firsts, Seed};
ghost use Rattle.line_module.specs.Survivors.{survivor_of};
ghost use Rattle.line_module.specs.Chains.{is_clean};
ghost use Rattle.line_module.specs.Memory.{memory_after_restart, with_survivors};
ghost use Rattle.line_module.specs.Cells.{cells_medium, memory_in};

use super::Cells;
use crate::bytes::put;
use crate::state::{Next, State};
use line_device::{Choice, word_bytes, word_in};
use nvm_base::LineNo;

impl Cells {
    /// Each word keeps one value, as a module of this survival unit does.
    pub fn restart(&mut self, unit: u64, choice: Choice)
        ensures { memory_in self.new ≡ memory_after_restart unit (memory_in self.old) choice }
    {
        let mut line = 0;
        while line < self.lines() {
            self.settle(unit, LineNo(line), choice);
            line = self.next_unclean(line);
        }
    }

    // The first line behind this one that is dirty or weak, or how many lines there are.
    fn next_unclean(&self, line: u64) -> u64
        requires { line < (cells_medium self.now).count }
        ensures behind { line < result }
        ensures within { result ≤ (cells_medium self.now).count }
        ensures between { (n : ℕ) → line < n → n < result → is_clean (slice_get self.now.states.items n) ≡ true }
    {
        for next in line + 1..self.lines() {
            if !self.is_clean(LineNo(next)) {
                return next;
            }
        }
        self.lines()
    }

    // Each word of the line keeps one value.
    fn settle(&mut self, unit: u64, line: LineNo, choice: Choice)
        requires { line.0 < (cells_medium self.old).count }
        ensures { memory_in self.new ≡ with_survivors unit (memory_in self.old) line.0 choice }
    {
        if self.is_dirty(line) {
            let bytes = self.survivors(unit, line, choice);
            self.renew(line, Some(bytes), Next::Same);
        }
    }

    // The bytes that a line which is not bad keeps.
    fn survivors(&self, unit: u64, line: LineNo, choice: Choice) -> [u8; 64]
        requires within { line.0 < (cells_medium self.now).count }
        requires good { (cells_medium self.now).is_bad line.0 ≡ false }
        ensures { (w : ℕ) → w < 8 → survivor_of unit choice (8 * line.0 + w) ((cells_medium self.now).history (8 * line.0 + w)) ≡ word_at result w ∷ [] }
    {
        match choice {
            Choice::Firsts => self.copy_durable(line),
            Choice::Lasts => self.copy(line),
            Choice::Seed(seed) => self.drawn(unit, line, seed),
        }
    }

    fn drawn(&self, unit: u64, line: LineNo, seed: u64) -> [u8; 64]
        requires within { line.0 < (cells_medium self.now).count }
        requires good { (cells_medium self.now).is_bad line.0 ≡ false }
        ensures { (w : ℕ) → w < 8 → survivor_of unit (Seed seed) (8 * line.0 + w) ((cells_medium self.now).history (8 * line.0 + w)) ≡ word_at result w ∷ [] }
    {
        let mut bytes = self.copy_durable(line);
        for w in 0..8_u64 {
            let first = word_in(&bytes, w);
            let value = self.drawn_word(unit, line, w, seed, first);
            put(&mut bytes, 8 * w, &word_bytes(value));
        }
        bytes
    }

    // What a word keeps by a seed, where this value is durable.
    fn drawn_word(&self, unit: u64, line: LineNo, w: u64, seed: u64, first: u64) -> u64
        requires within { line.0 < (cells_medium self.now).count }
        requires good { (cells_medium self.now).is_bad line.0 ≡ false }
        requires word { w < 8 }
        requires first { survivor_of unit Firsts (8 * line.0 + w) ((cells_medium self.now).history (8 * line.0 + w)) ≡ first ∷ [] }
        ensures { survivor_of unit (Seed seed) (8 * line.0 + w) ((cells_medium self.now).history (8 * line.0 + w)) ≡ result ∷ [] }
    {
        let place = 8 * line.0 + w;
        match &self.states[line.0 as usize] {
            State::Clean => first,
            State::Dirty(chain) => chain.survivor(unit, seed, place, w, first),
            State::Weak(chain) => chain.survivor(unit, seed, place, w, first),
        }
    }
}
