//! A gated log of words on lines: words that take their new values together, wherever the power goes.
// The log's first line has the gate and the count, the next lines the entries, two words each: a place and its value.
// An entry counts while the gate is 1. What a commit does, each step durable before the next begins:
//   1. entries and count, behind a gate of 0: a cut leaves the old home words
//   2. gate 1: from here on a replay of the log gives the new home words
//   3. the home words
//   4. gate 0
#![tactic(auto)]

ghost use Rattle.std.specs.Prelude.{◌≡◌, ℕ, true, IsTrue};
ghost use Rattle.std.specs.Result.{is_ok};
ghost use Rattle.word_log.specs.Area.{IsUsable};
ghost use Rattle.word_log.specs.Changes.{MayCommit};
ghost use Rattle.word_log.specs.Commits.{Commits};
ghost use Rattle.word_log.specs.Rest.{IsAtRest};

mod area;
mod entries;
mod fault;
mod home;
mod home_words;
mod lines;
mod lists;
mod mounting;
mod places;
mod protocol;
mod reading;

pub use area::LogArea;
pub use fault::LogFault;
pub use home_words::mount_words;
use line_device::Lines;
use line_words::Interruption;
pub use lists::{replay, small_log_worked_through};
pub use mounting::{inspect, mount};
use protocol::commit_at;
use std::marker::Model;

/// A mounted log. It is settled until a commit is stopped; a log that is not has to be mounted again.
#[derive(Debug, Drop)]
pub struct Log {
    area: LogArea,
    settled: bool,
}

impl Model for Log {
    ghost use Rattle.word_log.specs.State.{LogState};

    ghost Value = { LogState };

    ghost view = { λ l. record { area = l.area; settled = l.settled } };
}

impl Log {
    /// A log at rest.
    pub(crate) fn at_rest(area: LogArea) -> Self
        ensures { result ≡ record { area = area; settled = true } }
    {
        Log {
            area,
            settled: true,
        }
    }

    pub fn settled(&self) -> bool
        ensures { result ≡ self.now.settled }
    {
        self.settled
    }

    /// Makes the listed words the listed values, durably and together.
    pub fn commit<L: Lines>(
        &mut self,
        dev: &mut L,
        changes: &[(u64, u64)],
    ) -> Result<(), Interruption>
        requires settled { IsTrue self.old.settled }
        requires usable { IsUsable self.old.area (L.state dev.old) }
        requires rest { (words : ℕ → ℕ) × IsAtRest self.old.area (L.state dev.old).medium words }
        requires changes { MayCommit self.old.area changes.now }
        ensures commits { Commits self.old.area (L.state dev.old) (L.state dev.new) result changes.now }
        ensures log { self.new ≡ record self.old { settled = is_ok result } }
    {
        self.settled = false;
        commit_at(dev, self.area, changes)?;
        self.settled = true;
        Ok(())
    }
}
