ghost use Rattle.std.specs.Prelude.{◌≡◌, ◌*◌, ◌≤◌};
ghost use Rattle.std.specs.Vec.{vec_len};

use super::bytes::put;
use crate::{Choice, LineState};
use nvm_base::LineNo;
use std::alloc::{AllocError, Global};

/// Marks of a line beside its bytes.
#[derive(Clone, Copy, Debug, PartialEq, Eq)]
pub enum Mark {
    Healthy,
    Weak,
    Bad,
}

/// The bytes of lines, each once as they are durable and once as last stored.
#[derive(Drop)]
pub struct Cells {
    durable: Vec<u8>,
    last: Vec<u8>,
    marks: Vec<Mark>,
    alloc: Global,
    ghost durable_len: { vec_len durable ≡ 64 * vec_len marks },
    ghost last_len: { vec_len last ≡ 64 * vec_len marks },
    ghost few: { vec_len marks ≤ 118016 },
}

impl Cells {
    ghost use Rattle.std.specs.Prelude.{◌≡◌, ◌+◌, ◌*◌, ◌<◌, ◌≤◌, length, [], ◌∷◌, true, false, OnOk, OnErr};
    ghost use Rattle.line_device.specs.Medium.{IsLine, Shows, zeros, stored, persisted, cleared, poisoned, installed, renewed};
    ghost use Rattle.line_device.specs.Word.{word_at};
    ghost use Rattle.line_device.specs.Cells.{medium_of, ends_of, good_mark, weakened, kept};

    /// No lines.
    pub fn new(alloc: Global) -> Self
        ensures { (medium_of result).count ≡ 0 }
    {
        Cells {
            durable: Vec::new(alloc),
            last: Vec::new(alloc),
            marks: Vec::new(alloc),
            alloc,
        }
    }

    /// `lines` lines of zeros.
    pub fn reset(&mut self, lines: u64) -> Result<(), AllocError>
        requires { lines ≤ 118016 }
        ensures ok { OnOk result (medium_of self.new ≡ zeros lines) }
        ensures err { OnErr result (medium_of self.new ≡ medium_of self.old) }
    {
        let count = lines as usize;
        let durable = vec![in self.alloc; 0; 64 * count]?;
        let last = vec![in self.alloc; 0; 64 * count]?;
        let marks = vec![in self.alloc; Mark::Healthy; count]?;
        self.durable = durable;
        self.last = last;
        self.marks = marks;
        Ok(())
    }

    pub fn lines(&self) -> u64
        ensures { result ≡ (medium_of self.now).count }
    {
        self.marks.len() as u64
    }

    pub fn is_bad(&self, line: LineNo) -> bool
        requires { line.0 < (medium_of self.now).count }
        ensures { result ≡ (medium_of self.now).is_bad line.0 }
    {
        matches!(self.marks[line.0 as usize], Mark::Bad)
    }

    pub fn is_weak(&self, line: LineNo) -> bool
        requires { line.0 < (medium_of self.now).count }
        ensures { result ≡ (medium_of self.now).is_weak line.0 }
    {
        matches!(self.marks[line.0 as usize], Mark::Weak)
    }

    /// The bytes of a line that is not bad, as last stored.
    pub fn line(&self, line: LineNo) -> &[u8]
        requires within { line.0 < (medium_of self.now).count }
        requires good { (medium_of self.now).is_bad line.0 ≡ false }
        ensures { IsLine (medium_of self.now) line.0 result.now }
    {
        let start = 64 * line.0 as usize;
        &self.last[start..start + 64]
    }

    pub fn shown(&self, line: LineNo) -> LineState
        requires { line.0 < (medium_of self.now).count }
        ensures { Shows (medium_of self.now) line.0 result }
    {
        if self.is_bad(line) {
            return LineState::Bad;
        }
        let mut bytes = [0; 64];
        bytes.copy_from_slice(self.line(line));
        if self.is_weak(line) {
            LineState::Weak(bytes)
        } else {
            LineState::Healthy(bytes)
        }
    }

    pub fn store(&mut self, line: LineNo, at: u64, bytes: &[u8])
        requires within { line.0 < (medium_of self.old).count }
        requires good { (medium_of self.old).is_bad line.0 ≡ false }
        requires fits { at + length bytes.now ≤ 64 }
        ensures { medium_of self.new ≡ ends_of (stored (medium_of self.old) line.0 at bytes.now) }
    {
        put(&mut self.last, 64 * line.0 + at, bytes);
    }

    pub fn persist(&mut self, line: LineNo)
        requires within { line.0 < (medium_of self.old).count }
        requires good { (medium_of self.old).is_bad line.0 ≡ false }
        ensures { medium_of self.new ≡ persisted (medium_of self.old) line.0 }
    {
        if self.is_weak(line) {
            self.poison(line);
        } else {
            let start = 64 * line.0 as usize;
            put(
                &mut self.durable,
                64 * line.0,
                &self.last[start..start + 64],
            );
        }
    }

    pub fn poison(&mut self, line: LineNo)
        requires { line.0 < (medium_of self.old).count }
        ensures { medium_of self.new ≡ poisoned (medium_of self.old) line.0 }
    {
        self.marks[line.0 as usize] = Mark::Bad;
    }

    /// Marks a line that is not bad as weak.
    pub fn weaken(&mut self, line: LineNo)
        requires { line.0 < (medium_of self.old).count }
        ensures { medium_of self.new ≡ weakened (medium_of self.old) line.0 }
    {
        if !self.is_bad(line) {
            self.marks[line.0 as usize] = Mark::Weak;
        }
    }

    pub fn clear(&mut self, line: LineNo)
        requires { line.0 < (medium_of self.old).count }
        ensures { medium_of self.new ≡ cleared (medium_of self.old) line.0 }
    {
        self.renew(line, false, &[0; 64]);
    }

    pub fn install(&mut self, line: LineNo, told: &LineState)
        requires { line.0 < (medium_of self.old).count }
        ensures { medium_of self.new ≡ installed (medium_of self.old) line.0 told.now }
    {
        match told {
            LineState::Healthy(bytes) => self.renew(line, false, bytes),
            LineState::Weak(bytes) => self.renew(line, true, bytes),
            LineState::Bad => self.poison(line),
        }
    }

    // Makes these bytes the line's, durably.
    fn renew(&mut self, line: LineNo, weak: bool, bytes: &[u8])
        requires within { line.0 < (medium_of self.old).count }
        requires whole { length bytes.now ≡ 64 }
        ensures { medium_of self.new ≡ renewed (medium_of self.old) line.0 false weak (λ w. word_at bytes.now w ∷ []) }
    {
        self.marks[line.0 as usize] = Self::good_mark(weak);
        put(&mut self.durable, 64 * line.0, bytes);
        put(&mut self.last, 64 * line.0, bytes);
    }

    fn good_mark(weak: bool) -> Mark
        ensures { result ≡ good_mark weak }
    {
        if weak { Mark::Weak } else { Mark::Healthy }
    }

    /// Makes each word its last value, or for any other choice its first.
    pub fn keep(&mut self, choice: Choice)
        ensures { medium_of self.new ≡ kept choice (medium_of self.old) }
    {
        match choice {
            Choice::Lasts => self.durable.copy_from_slice(&self.last),
            Choice::Firsts | Choice::Seed(_) => self.last.copy_from_slice(&self.durable),
        }
    }
}
