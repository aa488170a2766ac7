ghost use Rattle.volume_view.specs.View.{view};
ghost use Rattle.volume_view.specs.ShownSound.{shown_sound};

use crate::View;
use crate::faults::{fault_at, load_as};
use line_device::{Counts, DeviceFault, Lines};
use nvm_base::{LINE, LineNo};
use std::alloc::AllocError;

impl<'a, L: Lines> Lines for View<'a, L> {
    ghost state = { λ v. view v.dev.ghost_name v.set.now (L.state v.dev.now) };

    ghost load_leaves = { λ old new. L.load_leaves old.dev.now new.dev.now };

    #[tactic(auto, using(crate::proofs::ShownLemmas::shown_count_is, crate::proofs::ShownLemmas::shown_count_none))]
    fn lines(&self) -> u64 {
        if self.set.fits(self.dev.lines()) {
            self.set.total() / LINE
        } else {
            0
        }
    }

    fn power(&self) -> bool {
        self.dev.power()
    }

    fn counts(&self) -> Counts {
        self.dev.counts()
    }

    #[tactic(auto, using(crate::proofs::ShownLemmas::bad_shown))]
    fn is_bad(&self, line: LineNo) -> bool {
        self.dev.is_bad(self.behind(line))
    }

    #[tactic(auto, using(crate::proofs::ShownLemmas::weak_shown))]
    fn is_weak(&self, line: LineNo) -> bool {
        self.dev.is_weak(self.behind(line))
    }

    fn load(&mut self, line: LineNo) -> Result<&[u8], DeviceFault> {
        let behind = self.behind(line);
        load_as(self.dev, behind, line)
    }

    #[tactic(auto, using(crate::proofs::ShownLemmas::poison_shown))]
    fn store(&mut self, line: LineNo, at: u64, bytes: &[u8]) -> Result<(), DeviceFault> {
        let behind = self.behind(line);
        match self.dev.store(behind, at, bytes) {
            Ok(()) => Ok(()),
            Err(fault) => Err(fault_at(fault, line)),
        }
    }

    #[tactic(auto, using(crate::proofs::ShownLemmas::persisted_shown, crate::proofs::ShownLemmas::poison_shown))]
    fn persist(&mut self, line: LineNo) -> Result<(), DeviceFault> {
        let behind = self.behind(line);
        match self.dev.persist(behind) {
            Ok(()) => Ok(()),
            Err(fault) => Err(fault_at(fault, line)),
        }
    }

    fn clear(&mut self, line: LineNo) -> Result<(), DeviceFault> {
        let behind = self.behind(line);
        match self.dev.clear(behind) {
            Ok(()) => Ok(()),
            Err(fault) => Err(fault_at(fault, line)),
        }
    }

    fn poison(&mut self, line: LineNo) {
        let behind = self.behind(line);
        self.dev.poison(behind);
    }

    fn weaken(&mut self, line: LineNo) -> Result<(), AllocError> {
        let behind = self.behind(line);
        self.dev.weaken(behind)
    }

    ghost sound = { λ v. shown_sound v.set.now (L.state v.dev.now).medium (L.sound v.dev.now) };
}
