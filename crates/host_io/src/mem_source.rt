// A source in memory.
ghost use Rattle.std.specs.Prelude.{◌≡◌, ◌≤◌};

use crate::failures::Failures;
use crate::{ReadFailed, Source};
use nvm_base::{Bytes, Words};
use std::marker::Model;

/// Bytes in memory, given in pieces.
#[derive(Debug, Drop)]
pub struct MemSource {
    bytes: Bytes,
    at: usize,
    piece: usize,
    failures: Failures,
}

impl Model for MemSource {
    ghost use Rattle.std.specs.Prelude.{◌≤◌, drop, length};
    ghost use Rattle.host_io.specs.Memory.{Supply};

    ghost Value = { Supply };

    ghost view = { λ s. record { left = drop s.at s.bytes.items; piece = s.piece; calls = s.failures } };

    ghost invariant = { λ s. (s.at ≤ length s.bytes.items) × (1 ≤ s.piece) };
}

impl MemSource {
    ghost use Rattle.host_io.specs.Schedule.{schedule_of};

    /// A source of these bytes that gives at most `piece` of them a call. `fails` names the calls that fail, from 1.
    pub fn new(bytes: Bytes, piece: usize, fails: Words) -> Self
        requires { 1 ≤ piece }
        ensures left { result.left ≡ bytes.items }
        ensures piece { result.piece ≡ piece }
        ensures calls { result.calls ≡ schedule_of fails.items }
    {
        MemSource {
            bytes,
            at: 0,
            piece,
            failures: Failures::new(fails),
        }
    }
}

impl Source for MemSource {
    ghost use Rattle.std.specs.Prelude.{◌≡◌, ◌≤◌, ◌<◌, ◌↔◌, ◌++◌, min, drop, take, length, Some, IfOk, OnErr, IsErr, IsTrue};
    ghost use Rattle.std.specs.Io.KnownBytes.{ReadConsumes};
    ghost use Rattle.nvm_base.specs.Counts.{Rose};
    ghost use Rattle.host_io.specs.Schedule.{fails_next, schedule_after};

    ghost left = { λ s. Some s.left };

    ghost count = { λ s. s.calls.faults };

    fn read(&mut self, buf: &mut [u8]) -> Result<usize, ReadFailed>
        ensures bound { IfOk result (λ n. n ≤ length buf.new) }
        ensures bytes { ReadConsumes (Some self.old.left) (Some self.new.left) result buf.new }
        ensures later { self.old.calls.faults ≤ self.new.calls.faults }
        ensures cause { OnErr result (Rose self.old.calls.faults self.new.calls.faults) }
        ensures fails { IsErr result ↔ IsTrue (fails_next self.old.calls) }
        ensures given { IfOk result (λ n. n ≡ min (min self.old.piece (length buf.old)) (length self.old.left)) }
        ensures rest { IfOk result (λ n. drop n buf.new ≡ drop n buf.old) }
        ensures failed { OnErr result (buf.new ≡ buf.old) }
        ensures calls { self.new.calls ≡ schedule_after self.old.calls }
        ensures piece { self.new.piece ≡ self.old.piece }
    {
        if self.failures.next() {
            return Err(ReadFailed);
        }
        let left = &self.bytes.as_slice()[self.at..];
        let n = self.piece.min(buf.len()).min(left.len());
        buf[..n].copy_from_slice(&left[..n]);
        self.at += n;
        Ok(n)
    }

    fn faults(&self) -> u64 {
        self.failures.faults()
    }
}
