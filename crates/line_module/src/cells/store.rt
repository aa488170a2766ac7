// Stores.
ghost use Rattle.std.specs.Prelude.{◌≡◌, ◌+◌, ◌<◌, ◌≤◌, false, length, None};
ghost use Rattle.line_module.specs.Memory.{memory_after_store, memory_after_evict, put_over, with_back, in_the_way, has};
ghost use Rattle.line_module.specs.Cells.{cells_medium, memory_in};

use super::Cells;
use crate::bytes::put;
use crate::state::{State, grown};
use nvm_base::LineNo;
use std::mem;

impl Cells {
    pub fn store(&mut self, line: LineNo, at: u64, bytes: &[u8])
        requires within { line.0 < (cells_medium self.old).count }
        requires good { (cells_medium self.old).is_bad line.0 ≡ false }
        requires some { 0 < length bytes.now }
        requires fits { at + length bytes.now ≤ 64 }
        ensures { memory_in self.new ≡ memory_after_store (memory_in self.old) line.0 at bytes.now }
    {
        self.make_way(line, at, bytes.len() as u64);
        self.put(line, at, bytes);
    }

    // Writes back what is in the way of a store.
    fn make_way(&mut self, line: LineNo, at: u64, len: u64)
        requires within { line.0 < (cells_medium self.old).count }
        requires good { (cells_medium self.old).is_bad line.0 ≡ false }
        requires some { 0 < len }
        requires fits { at + len ≤ 64 }
        ensures memory { memory_in self.new ≡ with_back (memory_in self.old) (in_the_way (memory_in self.old) line.0 at len) }
        ensures within { line.0 < (cells_medium self.new).count }
        ensures good { (cells_medium self.new).is_bad line.0 ≡ false }
        ensures room { (cells_medium self.new).is_weak line.0 ≡ false → has line.0 (memory_in self.new).order ≡ false → length (memory_in self.new).order < 1024 }
    {
        if let Some(other) = self.in_the_way(line, at, len) {
            self.write_back(LineNo(other));
        }
    }

    // Puts bytes over the line's last ones, where a chain is left for the line.
    fn put(&mut self, line: LineNo, at: u64, bytes: &[u8])
        requires within { line.0 < (cells_medium self.old).count }
        requires good { (cells_medium self.old).is_bad line.0 ≡ false }
        requires some { 0 < length bytes.now }
        requires fits { at + length bytes.now ≤ 64 }
        requires room { (cells_medium self.old).is_weak line.0 ≡ false → has line.0 (memory_in self.old).order ≡ false → length (memory_in self.old).order < 1024 }
        ensures { memory_in self.new ≡ put_over (memory_in self.old) line.0 at bytes.now }
    {
        let mut last = self.copy(line);
        put(&mut last, at, bytes);
        let len = bytes.len() as u64;
        let place = line.0 as usize;
        let state = mem::replace(&mut self.states[place], State::Clean);
        self.states[place] = grown(state, line.0, at, len, &last, &mut self.order);
        self.cached.hold(line.0, &last);
    }

    /// Writes back the oldest dirty lines, a number of them or all.
    pub fn evict(&mut self, lines: u64)
        ensures { memory_in self.new ≡ memory_after_evict (memory_in self.old) lines }
    {
        for _ in 0..lines {
            match self.order.first() {
                Some(line) => self.write_back(LineNo(line)),
                None => return,
            }
        }
    }
}
