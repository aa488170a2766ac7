ghost use Rattle.test_devices.specs.Recorder.{recorded};

use super::Recorder;
use line_device::{Counts, DeviceFault, Lines, Peek};
use nvm_base::LineNo;
use std::alloc::AllocError;

impl<D: Peek> Lines for Recorder<D> {
    ghost state = { recorded D.state };

    ghost load_leaves = { λ old new. D.load_leaves old.inner new.inner };

    fn lines(&self) -> u64 {
        self.inner.lines()
    }

    fn power(&self) -> bool {
        self.inner.power()
    }

    fn counts(&self) -> Counts {
        self.inner.counts()
    }

    fn is_bad(&self, line: LineNo) -> bool {
        self.inner.is_bad(line)
    }

    fn is_weak(&self, line: LineNo) -> bool {
        self.inner.is_weak(line)
    }

    fn load(&mut self, line: LineNo) -> Result<&[u8], DeviceFault> {
        self.inner.load(line)
    }

    fn store(&mut self, line: LineNo, at: u64, bytes: &[u8]) -> Result<(), DeviceFault> {
        self.inner.store(line, at, bytes)
    }

    fn persist(&mut self, line: LineNo) -> Result<(), DeviceFault> {
        self.inner.persist(line)
    }

    fn clear(&mut self, line: LineNo) -> Result<(), DeviceFault> {
        self.inner.clear(line)
    }

    fn poison(&mut self, line: LineNo) {
        self.inner.poison(line);
    }

    fn weaken(&mut self, line: LineNo) -> Result<(), AllocError> {
        self.inner.weaken(line)
    }

    ghost sound = { λ r. D.sound r.inner };
}
