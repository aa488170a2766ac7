// A workload, line by line.
ghost use Rattle.std.specs.Prelude.{◌≡◌, ℕ, List, ◌++◌, IfOk};
ghost use Rattle.workload.specs.Due.{StartsWith};
ghost use Rattle.workload.specs.Lines.{after_round, round_from};

use crate::draws::Draws;
use crate::rounds::{is_cut, print_kind};
use nvm_base::{Bytes, print_number};
use std::alloc::{AllocError, Global};
use std::marker::Model;

// What comes before the next round.
#[derive(Clone, Copy, Debug)]
pub(crate) enum Due {
    First,
    Second,
    Mapping,
    Restart(u64),
    Round,
}

/// The lines of a workload that are left.
#[derive(Debug, Drop)]
pub struct Workload {
    draws: Draws,
    rounds: u64,
    due: Due,
}

impl Model for Workload {
    ghost use Rattle.std.specs.Prelude.{ℕ, List};
    ghost use Rattle.workload.specs.Due.{lines_left};

    ghost Value = { List (List ℕ) };

    ghost view = { λ w. lines_left w.due w.draws.state w.rounds };
}

impl Workload {
    ghost use Rattle.std.specs.Prelude.{◌≡◌, ◌++◌, IfOk, OnErr};
    ghost use Rattle.workload.specs.Due.{Gives};
    ghost use Rattle.workload.specs.Lines.{lines};

    /// The workload of that seed, with a number of rounds.
    pub fn new(seed: u64, count: u64) -> Self
        ensures { result ≡ lines seed count }
    {
        Workload {
            draws: Draws { state: seed },
            rounds: count,
            due: Due::First,
        }
    }

    /// The next line, without a newline, None after the last one.
    pub fn next(&mut self, alloc: Global) -> Result<Option<Bytes>, AllocError>
        ensures ok { IfOk result (λ line. Gives line self.old self.new) }
        ensures err { OnErr result (self.new ≡ self.old) }
    {
        let mut line = Bytes::new(alloc);
        match self.due {
            Due::First => {
                line.extend(b"create f0 16")?;
                self.due = Due::Second;
            }
            Due::Second => {
                line.extend(b"create f1 16")?;
                self.due = Due::Mapping;
            }
            Due::Mapping => {
                line.extend(b"map f0 0 65536 shared")?;
                self.due = Due::Round;
            }
            Due::Restart(seed) => {
                line.extend(b"restart seed ")?;
                print_number(seed, &mut line)?;
                self.due = Due::Mapping;
            }
            Due::Round if self.rounds == 0 => return Ok(None),
            Due::Round => {
                let (draws, due) = begin_round(self.draws, &mut line)?;
                self.draws = draws;
                self.rounds -= 1;
                self.due = due;
            }
        }
        Ok(Some(line))
    }
}

// The first line of the round that begins there, appended, and what has come of it.
fn begin_round(draws: Draws, line: &mut Bytes) -> Result<(Draws, Due), AllocError>
    ensures starts { IfOk result (λ begun. (text : List ℕ) × (line.new.items ≡ line.old.items ++ text)
        × StartsWith text begun.1 (round_from draws.state)) }
    ensures draws { IfOk result (λ begun. begun.0.state ≡ after_round draws.state) }
{
    let mut draws = draws;
    let k = draws.draw();
    let a = draws.draw();
    let b = draws.draw();
    if is_cut(k, b) {
        line.extend(b"cut")?;
        Ok((draws, Due::Restart(b)))
    } else {
        print_kind(k, a, b, line)?;
        Ok((draws, Due::Round))
    }
}
