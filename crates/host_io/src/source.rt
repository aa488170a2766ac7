use thiserror::Error;

/// A call of `read` failed.
#[derive(Clone, Copy, Debug, PartialEq, Eq, Error)]
#[error("a read failed")]
pub struct ReadFailed;

/// What a script is read from.
pub trait Source {
    ghost use Rattle.std.specs.Prelude.{◌≡◌, ℕ, ◌≤◌, List, length, Option, IfOk, OnErr};
    ghost use Rattle.std.specs.Io.KnownBytes.{ReadConsumes};
    ghost use Rattle.nvm_base.specs.Counts.{Rose};

    /// The bytes left, where the source reports them.
    ghost left: { Self → Option (List ℕ) };

    /// How many calls of `read` failed. It never falls, and stands still at its last value.
    ghost count: { Self → ℕ };

    /// Bytes, put at the front of `buf`. None where there is room for some is the end.
    fn read(&mut self, buf: &mut [u8]) -> Result<usize, ReadFailed>
        ensures bound { IfOk result (λ n. n ≤ length buf.new) }
        ensures bytes { ReadConsumes (left self.old) (left self.new) result buf.new }
        ensures later { count self.old ≤ count self.new }
        ensures cause { OnErr result (Rose (count self.old) (count self.new)) };

    fn faults(&self) -> u64
        ensures { result ≡ count self.now };
}
