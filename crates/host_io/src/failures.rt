// Calls that are to fail, by their numbers.
ghost use Rattle.std.specs.Prelude.{◌≡◌, ◌≤◌};

use nvm_base::{Words, raise};
use std::marker::Model;

/// Calls are counted from 1, and those that the list names fail.
#[derive(Debug, Drop)]
pub(crate) struct Failures {
    numbers: Words,
    calls: u64,
    faults: u64,
}

impl Model for Failures {
    ghost use Rattle.host_io.specs.Schedule.{Schedule};

    ghost Value = { Schedule };

    ghost view = { λ f. record { numbers = f.numbers.items; calls = f.calls; faults = f.faults } };
}

impl Failures {
    ghost use Rattle.host_io.specs.Schedule.{schedule_of, fails_next, schedule_after};

    pub fn new(numbers: Words) -> Self
        ensures { result ≡ schedule_of numbers.items }
    {
        Failures {
            numbers,
            calls: 0,
            faults: 0,
        }
    }

    /// Counts a call, and returns whether it fails.
    pub fn next(&mut self) -> bool
        ensures value { result ≡ fails_next self.old }
        ensures after { self.new ≡ schedule_after self.old }
        ensures later { self.old.faults ≤ self.new.faults }
    {
        raise(&mut self.calls);
        let fails = self.numbers.as_slice().contains(&self.calls);
        if fails {
            raise(&mut self.faults);
        }
        fails
    }

    pub fn faults(&self) -> u64
        ensures { result ≡ self.now.faults }
    {
        self.faults
    }
}
