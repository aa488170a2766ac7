// Reading a script line by line.
ghost use Rattle.std.specs.Prelude.{◌≡◌, ◌≢◌, ◌↔◌, ◌<◌, ◌≤◌, [], ◌++◌, IfErr, IfOk, IfSome, IsTrue, IsFalse};
ghost use Rattle.nvm_base.specs.Counts.{Rose};
ghost use Rattle.script_text.specs.Streaming.{IsUnbroken, ReadsLine, ahead, stream_start};
ghost use Rattle.script_text.specs.StreamSteps.{ReadsOn, ReadsOut, TakesPart};

use crate::held::Held;
use crate::next_line::{InputFault, NextLine};
use crate::piece::Piece;
use host_io::Source;
use memchr::memchr;
use std::alloc::{AllocError, Global};
use std::marker::Model;

/// A script has fewer bytes.
const TOO_LARGE: u64 = 1 << 30;

/// Reads a script line by line. It takes its memory once, however long the script is. After a fault it is of no use.
#[derive(Drop)]
pub struct LineReader {
    line: Held,
    piece: Piece,
    taken: u64,
    ended: bool,
}

impl Model for LineReader {
    ghost use Rattle.std.specs.Prelude.{◌<◌, IsTrue};
    ghost use Rattle.script_text.specs.Streaming.{Stream};

    ghost Value = { Stream };

    ghost view = { λ r. record { line = r.line; waiting = r.piece; taken = r.taken; ended = r.ended } };

    ghost invariant = { λ r. (r.taken < 1073807360) × (IsTrue r.ended → r.taken < 1073741824) };
}

impl LineReader {
    pub fn new(alloc: Global) -> Result<Self, AllocError>
        ensures { IfOk result (λ r. r ≡ stream_start) }
    {
        Ok(LineReader {
            line: Held::new(alloc)?,
            piece: Piece::new(alloc)?,
            taken: 0,
            ended: false,
        })
    }

    /// Reads the next line, without its newline.
    pub fn next<T: Source>(&mut self, source: &mut T) -> Result<NextLine, InputFault>
        ensures reads { ReadsLine self.old self.new (T.left source.old) (T.left source.new) result }
        ensures fewer { IfOk result (λ next. next ≢ NextLine.End → ahead self.new < ahead self.old) }
        ensures quiet { (IsUnbroken self.old.waiting → ⊥) → source.new ≡ source.old }
        ensures later { T.count source.old ≤ T.count source.new }
        ensures cause { IfErr result (λ e. e ≡ InputFault.Failed → Rose (T.count source.old) (T.count source.new)) }
    {
        if !self.read_line(source)? {
            return Ok(NextLine::End);
        }
        if self.line.is_overlong() {
            return Ok(NextLine::TooLong);
        }
        Ok(NextLine::Line)
    }

    /// The line read last, where it was not too long.
    pub fn line(&self) -> &[u8]
        ensures { IfSome self.now.line (λ line. result.now ≡ line) }
    {
        self.line.as_slice()
    }

    /// Whether a whole line waits, so that the next one needs no source.
    pub fn has_line(&self) -> bool
        ensures { IsFalse result ↔ IsUnbroken self.now.waiting }
    {
        memchr(b'\n', self.piece.as_slice()).is_some()
    }

    // Reads up to a newline or to the end, and says whether there was a line.
    fn read_line<T: Source>(&mut self, source: &mut T) -> Result<bool, InputFault>
        ensures reads { ReadsOut self.old self.new (T.left source.old) (T.left source.new) result }
        ensures quiet { (IsUnbroken self.old.waiting → ⊥) → source.new ≡ source.old }
        ensures later { T.count source.old ≤ T.count source.new }
        ensures cause { IfErr result (λ e. e ≡ InputFault.Failed → Rose (T.count source.old) (T.count source.new)) }
    {
        self.line.clear();
        while !self.take_part() {
            if !self.read_on(source)? {
                return Ok(!self.line.is_empty());
            }
        }
        Ok(true)
    }

    // Takes what waits of the line, and says whether that is all of it.
    fn take_part(&mut self) -> bool
        ensures { TakesPart self.old self.new result }
    {
        let waiting = self.piece.as_slice();
        match memchr(b'\n', waiting) {
            Some(end) => {
                self.line.add(&waiting[..end]);
                self.piece.skip(end + 1);
                true
            }
            None => {
                let count = waiting.len();
                self.line.add(waiting);
                self.piece.skip(count);
                false
            }
        }
    }

    // Takes more from the source, and says whether there was more.
    fn read_on<T: Source>(&mut self, source: &mut T) -> Result<bool, InputFault>
        requires { self.old.waiting ≡ [] }
        ensures reads { ReadsOn self.old self.new (T.left source.old) (T.left source.new) result }
        ensures later { T.count source.old ≤ T.count source.new }
        ensures cause { IfErr result (λ e. e ≡ InputFault.Failed → Rose (T.count source.old) (T.count source.new)) }
    {
        if self.ended {
            return Ok(false);
        }
        if self.taken >= TOO_LARGE {
            return Err(InputFault::TooLarge);
        }
        let Ok(count) = self.piece.fill(source) else {
            return Err(InputFault::Failed);
        };
        self.taken += count as u64;
        self.ended = count == 0;
        Ok(count > 0)
    }
}
