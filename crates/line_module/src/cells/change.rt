// What changes a line whole.
ghost use Rattle.std.specs.Prelude.{◌≡◌, ◌<◌, false, true, is_none, length, slice_set, ◌||◌, IsOk, MatchResult};
ghost use Rattle.line_device.specs.Medium.{renewed};
ghost use Rattle.line_module.specs.Memory.{written_back, without, memory_after_persist, memory_after_clear, memory_after_poison, memory_after_weaken, memory_after_install, is_told_weak};
ghost use Rattle.line_module.specs.Chains.{is_weak_next, is_clean_next, IsEmptyNext, IsEmptyChain};
ghost use Rattle.line_module.specs.Held.{words_of};
ghost use Rattle.line_module.specs.Cells.{cells_medium, memory_in};

use super::Cells;
use crate::chain::Chain;
use crate::state::{Next, State, turned, weakened};
use line_device::LineState;
use nvm_base::LineNo;
use raw_lines::Region;
use std::alloc::AllocError;
use std::mem;

impl Cells {
    /// The line's last values are durable.
    #[inline(never)]
    pub fn write_back(&mut self, line: LineNo)
        requires within { line.0 < (cells_medium self.old).count }
        requires good { (cells_medium self.old).is_bad line.0 ≡ false }
        ensures { memory_in self.new ≡ written_back (memory_in self.old) line.0 }
    {
        let bytes = self.copy(line);
        self.renew(line, Some(bytes), Next::Same);
    }

    pub fn persist(&mut self, line: LineNo)
        requires within { line.0 < (cells_medium self.old).count }
        requires good { (cells_medium self.old).is_bad line.0 ≡ false }
        ensures { memory_in self.new ≡ memory_after_persist (memory_in self.old) line.0 }
    {
        // Nearly all lines that a restart makes durable are so already.
        if self.is_clean(line) {
            return;
        }
        if self.is_weak(line) {
            self.poison(line);
        } else {
            self.write_back(line);
        }
    }

    pub fn clear(&mut self, line: LineNo)
        requires within { line.0 < (cells_medium self.old).count }
        ensures { memory_in self.new ≡ memory_after_clear (memory_in self.old) line.0 }
    {
        self.renew(line, Some([0; 64]), Next::Clean);
    }

    #[inline(never)]
    pub fn poison(&mut self, line: LineNo)
        requires within { line.0 < (cells_medium self.old).count }
        ensures { memory_in self.new ≡ memory_after_poison (memory_in self.old) line.0 }
    {
        self.renew(line, None, Next::Clean);
    }

    pub fn install(&mut self, line: LineNo, told: &LineState) -> Result<(), AllocError>
        requires within { line.0 < (cells_medium self.old).count }
        ensures memory { MatchResult result
            (λ _. memory_in self.new ≡ memory_after_install (memory_in self.old) line.0 told.now)
            (λ _. memory_in self.new ≡ memory_in self.old) }
        ensures succeeds { is_told_weak told.now ≡ false → IsOk result }
    {
        match told {
            LineState::Healthy(bytes) => self.renew(line, Some(*bytes), Next::Clean),
            LineState::Weak(bytes) => {
                let chain = Chain::new(self.alloc)?;
                self.renew(line, Some(*bytes), Next::Weak(chain));
            }
            LineState::Bad => self.renew(line, None, Next::Clean),
        }
        Ok(())
    }

    /// Marks a line that is not bad as weak. It may want memory where the line is not weak yet.
    pub fn weaken(&mut self, line: LineNo) -> Result<(), AllocError>
        requires within { line.0 < (cells_medium self.old).count }
        ensures memory { MatchResult result
            (λ _. memory_in self.new ≡ memory_after_weaken (memory_in self.old) line.0)
            (λ _. memory_in self.new ≡ memory_in self.old) }
        ensures succeeds { ((cells_medium self.old).is_bad line.0 || (cells_medium self.old).is_weak line.0) ≡ true → IsOk result }
    {
        if self.is_bad(line) || self.is_weak(line) {
            return Ok(());
        }
        let chain = Chain::new(self.alloc)?;
        self.mark(line, chain);
        Ok(())
    }

    // Gives a line that is healthy and not weak the mark, and with it a chain without values.
    fn mark(&mut self, line: LineNo, chain: Chain)
        requires within { line.0 < (cells_medium self.old).count }
        requires good { (cells_medium self.old).is_bad line.0 ≡ false }
        requires empty { IsEmptyChain chain }
        ensures { memory_in self.new ≡ memory_after_weaken (memory_in self.old) line.0 }
    {
        let place = line.0 as usize;
        let state = mem::replace(&mut self.states[place], State::Clean);
        self.states[place] = weakened(state, chain, line.0, &mut self.order);
    }

    // The line has these bytes from now on, durably, or is bad where there are none.
    pub(super) fn renew(&mut self, line: LineNo, bytes: Option<[u8; 64]>, next: Next)
        requires within { line.0 < (cells_medium self.old).count }
        requires empty { IsEmptyNext next }
        requires clean { is_none bytes ≡ true → is_clean_next next ≡ true }
        ensures medium { cells_medium self.new ≡ renewed (cells_medium self.old) line.0 (is_none bytes) (is_weak_next next ((cells_medium self.old).is_weak line.0)) (words_of bytes) }
        ensures order { (memory_in self.new).order ≡ without line.0 (memory_in self.old).order }
    {
        let place = line.0 as usize;
        let state = mem::replace(&mut self.states[place], State::Clean);
        self.states[place] = turned(state, next, line.0, &mut self.order);
        hold(&mut self.durable, line, bytes);
        self.cached.bare(line.0);
    }
}

// Gives a line these bytes, or none.
fn hold(lines: &mut Region, line: LineNo, bytes: Option<[u8; 64]>)
    requires { line.0 < length lines.old }
    ensures { lines.new ≡ slice_set lines.old line.0 bytes }
{
    match bytes {
        Some(bytes) => lines.hold(line.0, &bytes),
        None => lines.bare(line.0),
    }
}
