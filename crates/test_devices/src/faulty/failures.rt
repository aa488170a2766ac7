// Calls that are to fail, by their numbers.
ghost use Rattle.std.specs.Prelude.{◌≡◌, false, IsTrue};

use nvm_base::{Words, raise};
use std::marker::Model;

/// Calls are numbered from 1, and those that the list names fail.
#[derive(Debug, Drop)]
pub(crate) struct Failures {
    numbers: Words,
    calls: u64,
}

impl Model for Failures {
    ghost use Rattle.test_devices.specs.Schedule.{Schedule};

    ghost Value = { Schedule };

    ghost view = { λ f. record { numbers = f.numbers.items; calls = f.calls } };
}

impl Failures {
    ghost use Rattle.test_devices.specs.Schedule.{schedule_of, fails_next, is_to_come, schedule_after, schedule_ended};

    pub fn new(numbers: Words) -> Self
        ensures { result ≡ schedule_of numbers.items }
    {
        Failures { numbers, calls: 0 }
    }

    /// Numbers a call, and returns whether it fails.
    #[tactic(auto, using(crate::proofs::ScheduleLemmas::due, crate::proofs::ScheduleLemmas::fewer, crate::proofs::ScheduleLemmas::same))]
    pub fn next(&mut self) -> bool
        ensures value { result ≡ fails_next self.old }
        ensures after { self.new ≡ schedule_after self.old }
        ensures due { IsTrue result → IsTrue (is_to_come self.old) }
        ensures others { result ≡ false → is_to_come self.new ≡ is_to_come self.old }
        ensures fewer { IsTrue (is_to_come self.new) → IsTrue (is_to_come self.old) }
    {
        let fails = self.is_next();
        raise(&mut self.calls);
        fails
    }

    fn is_next(&self) -> bool
        ensures { result ≡ fails_next self.now }
    {
        self.numbers
            .as_slice()
            .iter()
            .any(|number| *number > self.calls && *number - self.calls == 1)
    }

    pub fn is_to_come(&self) -> bool
        ensures { result ≡ is_to_come self.now }
    {
        self.numbers
            .as_slice()
            .iter()
            .any(|number| *number > self.calls)
    }

    /// No further call fails.
    pub fn end(&mut self)
        ensures { self.new ≡ schedule_ended self.old }
    {
        self.numbers.clear();
    }
}
