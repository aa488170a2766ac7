use thiserror::Error;

/// Why nothing was written.
#[derive(Clone, Copy, Debug, PartialEq, Eq, Error)]
pub enum WriteFault {
    #[error("a write failed")]
    Failed,
    #[error("no memory for what is written")]
    Memory,
}

/// What replies are written to.
pub trait Sink {
    ghost use Rattle.std.specs.Prelude.{◌≡◌, ℕ, ◌<◌, ◌≤◌, List, length, Option, IfOk, IfErr};
    ghost use Rattle.std.specs.Io.KnownBytes.{WriteAppends};
    ghost use Rattle.nvm_base.specs.Counts.{Rose};

    /// The bytes written, where the sink reports them.
    ghost written: { Self → Option (List ℕ) };

    /// How many calls of `write` failed. It never falls, and stands still at its last value.
    ghost count: { Self → ℕ };

    /// Writes some of the bytes, from the front, and returns how many.
    fn write(&mut self, bytes: &[u8]) -> Result<usize, WriteFault>
        ensures bound { IfOk result (λ n. n ≤ length bytes.now) }
        ensures some { IfOk result (λ n. 0 < length bytes.now → 0 < n) }
        ensures bytes { WriteAppends (written self.old) (written self.new) result bytes.now }
        ensures later { count self.old ≤ count self.new }
        ensures cause { IfErr result (λ e. e ≡ WriteFault.Failed → Rose (count self.old) (count self.new)) };

    fn faults(&self) -> u64
        ensures { result ≡ count self.now };
}
