// A sink in memory.
ghost use Rattle.std.specs.Prelude.{◌≡◌, []};

use crate::failures::Failures;
use crate::{Sink, WriteFault};
use nvm_base::{Bytes, Words};
use std::alloc::Global;
use std::marker::Model;

/// Keeps what is written to it.
#[derive(Debug, Drop)]
pub struct MemSink {
    bytes: Bytes,
    failures: Failures,
}

impl Model for MemSink {
    ghost use Rattle.host_io.specs.Memory.{Written};

    ghost Value = { Written };

    ghost view = { λ s. record { bytes = s.bytes.items; calls = s.failures } };
}

impl MemSink {
    ghost use Rattle.host_io.specs.Schedule.{schedule_of};

    /// An empty sink. `fails` names the calls that fail, from 1.
    pub fn new(alloc: Global, fails: Words) -> Self
        ensures bytes { result.bytes ≡ [] }
        ensures calls { result.calls ≡ schedule_of fails.items }
    {
        MemSink {
            bytes: Bytes::new(alloc),
            failures: Failures::new(fails),
        }
    }

    pub fn written(&self) -> &[u8]
        ensures { result.now ≡ self.now.bytes }
    {
        self.bytes.as_slice()
    }
}

impl Sink for MemSink {
    ghost use Rattle.std.specs.Prelude.{◌≡◌, ◌≤◌, ◌<◌, ◌↔◌, length, Some, IfOk, IfErr, IsTrue};
    ghost use Rattle.std.specs.Io.KnownBytes.{WriteAppends};
    ghost use Rattle.nvm_base.specs.Counts.{Rose};
    ghost use Rattle.host_io.specs.Schedule.{fails_next, schedule_after};

    ghost written = { λ s. Some s.bytes };

    ghost count = { λ s. s.calls.faults };

    /// Takes the whole piece.
    fn write(&mut self, bytes: &[u8]) -> Result<usize, WriteFault>
        ensures bound { IfOk result (λ n. n ≤ length bytes.now) }
        ensures some { IfOk result (λ n. 0 < length bytes.now → 0 < n) }
        ensures bytes { WriteAppends (Some self.old.bytes) (Some self.new.bytes) result bytes.now }
        ensures later { self.old.calls.faults ≤ self.new.calls.faults }
        ensures cause { IfErr result (λ e. e ≡ WriteFault.Failed → Rose self.old.calls.faults self.new.calls.faults) }
        ensures fails { (result ≡ Err WriteFault.Failed) ↔ IsTrue (fails_next self.old.calls) }
        ensures whole { IfOk result (λ n. n ≡ length bytes.now) }
        ensures calls { self.new.calls ≡ schedule_after self.old.calls }
    {
        if self.failures.next() {
            return Err(WriteFault::Failed);
        }
        match self.bytes.extend(bytes) {
            Ok(()) => Ok(bytes.len()),
            Err(_) => Err(WriteFault::Memory),
        }
    }

    fn faults(&self) -> u64 {
        self.failures.faults()
    }
}
