// Standard input and output. What they give and take is the system's, so they tell no bytes.
ghost use Rattle.std.specs.Prelude.{◌≡◌};

use crate::{ReadFailed, Sink, Source, WriteFault};
use nvm_base::raise;
use std::io::{Input, Print, Read};

/// Standard input.
#[derive(Drop)]
pub struct StdinSource<'a, R> {
    rt: &'a R,
    faults: u64,
}

/// Standard output.
#[derive(Drop)]
pub struct StdoutSink<'a, R> {
    rt: &'a R,
    faults: u64,
}

impl<'a, R: Input> StdinSource<'a, R> {
    pub fn new(rt: &'a R) -> Self
        ensures { result.faults ≡ 0 }
    {
        StdinSource { rt, faults: 0 }
    }
}

impl<'a, R: Print> StdoutSink<'a, R> {
    pub fn new(rt: &'a R) -> Self
        ensures { result.faults ≡ 0 }
    {
        StdoutSink { rt, faults: 0 }
    }
}

impl<R: Input> Source for StdinSource<'_, R> {
    ghost use Rattle.std.specs.Prelude.{None};

    ghost left = { λ _. None };

    ghost count = { λ s. s.faults };

    fn read(&mut self, buf: &mut [u8]) -> Result<usize, ReadFailed> {
        let mut input = self.rt.reader();
        match input.read(buf) {
            Ok(n) => Ok(n),
            Err(_) => {
                raise(&mut self.faults);
                Err(ReadFailed)
            }
        }
    }

    fn faults(&self) -> u64 {
        self.faults
    }
}

impl<R: Print> Sink for StdoutSink<'_, R> {
    ghost use Rattle.std.specs.Prelude.{None};

    ghost written = { λ _. None };

    ghost count = { λ s. s.faults };

    fn write(&mut self, bytes: &[u8]) -> Result<usize, WriteFault> {
        match self.rt.write_some(bytes) {
            Ok(n) if n > 0 || bytes.is_empty() => Ok(n),
            _ => {
                raise(&mut self.faults);
                Err(WriteFault::Failed)
            }
        }
    }

    fn faults(&self) -> u64 {
        self.faults
    }
}
