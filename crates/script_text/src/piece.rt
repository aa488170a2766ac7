// What a source gave last.
ghost use Rattle.std.specs.Prelude.{◌≡◌, ◌≤◌, [], drop, length, IfOk, OnOk, OnErr, take};
ghost use Rattle.std.specs.Io.KnownBytes.{Keeps};
ghost use Rattle.nvm_base.specs.Counts.{Rose};
ghost use Rattle.script_text.specs.StreamSteps.{FillsPiece};

use host_io::{ReadFailed, Source};
use std::alloc::{AllocError, Global};
use std::marker::Model;

/// How many bytes are asked for at a time.
const PIECE: usize = 65536;

/// The bytes that are left of what a source gave. They stand in memory that is taken once.
#[derive(Drop)]
pub(crate) struct Piece {
    bytes: Vec<u8>,
    at: usize,
    end: usize,
}

impl Model for Piece {
    ghost use Rattle.std.specs.Prelude.{◌≡◌, ◌-◌, ◌≤◌, ℕ, List, drop, take};
    ghost use Rattle.std.specs.Vec.{vec_len};

    ghost Value = { List ℕ };

    ghost view = { λ p. take (p.end - p.at) (drop p.at p.bytes.items) };

    ghost invariant = { λ p. (p.at ≤ p.end) × (p.end ≤ 65536) × (vec_len p.bytes ≡ 65536) };
}

impl Piece {
    pub(crate) fn new(alloc: Global) -> Result<Self, AllocError>
        ensures { IfOk result (λ p. p ≡ []) }
    {
        let bytes = vec![in alloc; 0u8; PIECE]?;
        Ok(Piece {
            bytes,
            at: 0,
            end: 0,
        })
    }

    pub(crate) fn as_slice(&self) -> &[u8]
        ensures left { result.now ≡ self.now }
        ensures bound { length result.now ≤ 65536 }
    {
        &self.bytes.as_slice()[self.at..self.end]
    }

    /// Drops a number of the bytes.
    pub(crate) fn skip(&mut self, n: usize)
        requires { n ≤ length self.old }
        ensures { self.new ≡ drop n self.old }
    {
        self.at += n;
    }

    /// Asks the source for more, in place of what is left, and returns how many bytes it gave: none at its end.
    pub(crate) fn fill<T: Source>(&mut self, source: &mut T) -> Result<usize, ReadFailed>
        ensures fills { FillsPiece (T.left source.old) (T.left source.new) self.new result }
        ensures later { T.count source.old ≤ T.count source.new }
        ensures cause { OnErr result (Rose (T.count source.old) (T.count source.new)) }
    {
        self.at = 0;
        self.end = 0;
        let count = source.read(&mut self.bytes)?;
        self.end = count;
        Ok(count)
    }
}
