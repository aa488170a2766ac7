// Looking at lines.
ghost use Rattle.std.specs.Prelude.{◌≡◌, ◌+◌, ◌*◌, ◌<◌, ◌≤◌, ℕ, false, [], ◌∷◌, length, slice_get, Some, take};
ghost use Rattle.line_device.specs.History.{newest};
ghost use Rattle.line_device.specs.Medium.{IsLine, Shows};
ghost use Rattle.line_device.specs.Word.{word_at};
ghost use Rattle.line_module.specs.Chains.{is_clean};
ghost use Rattle.line_module.specs.Memory.{in_the_way, is_dirty_line};
ghost use Rattle.line_module.specs.Cells.{cells_medium, memory_in};

use super::Cells;
use crate::order::MOST;
use crate::state::State;
use line_device::LineState;
use nvm_base::LineNo;

impl Cells {
    pub fn lines(&self) -> u64
        ensures { result ≡ (cells_medium self.now).count }
    {
        self.states.len() as u64
    }

    pub fn is_bad(&self, line: LineNo) -> bool
        requires { line.0 < (cells_medium self.now).count }
        ensures { result ≡ (cells_medium self.now).is_bad line.0 }
    {
        self.durable.line(line.0).is_none()
    }

    pub fn is_weak(&self, line: LineNo) -> bool
        requires { line.0 < (cells_medium self.now).count }
        ensures { result ≡ (cells_medium self.now).is_weak line.0 }
    {
        matches!(self.states[line.0 as usize], State::Weak(_))
    }

    /// Whether the line is neither dirty nor weak.
    pub(super) fn is_clean(&self, line: LineNo) -> bool
        requires { line.0 < (cells_medium self.now).count }
        ensures { result ≡ is_clean (slice_get self.now.states.items line.0) }
    {
        matches!(self.states[line.0 as usize], State::Clean)
    }

    pub fn is_dirty(&self, line: LineNo) -> bool
        requires { line.0 < (cells_medium self.now).count }
        ensures { result ≡ is_dirty_line (cells_medium self.now) line.0 }
    {
        self.cached.line(line.0).is_some()
    }

    /// The bytes of a line that is not bad, as last stored.
    pub fn last(&self, line: LineNo) -> &[u8]
        requires within { line.0 < (cells_medium self.now).count }
        requires good { (cells_medium self.now).is_bad line.0 ≡ false }
        ensures { IsLine (cells_medium self.now) line.0 result.now }
    {
        match self.cached.line(line.0) {
            Some(bytes) => bytes,
            None => self.durable(line),
        }
    }

    // The durable bytes of a line that is not bad.
    pub(super) fn durable(&self, line: LineNo) -> &[u8]
        requires within { line.0 < (cells_medium self.now).count }
        requires good { (cells_medium self.now).is_bad line.0 ≡ false }
        ensures size { length result.now ≡ 64 }
        ensures held { slice_get self.now.durable line.0 ≡ Some (Some result.now) }
    {
        match self.durable.line(line.0) {
            Some(bytes) => bytes,
            None => unreachable!(),
        }
    }

    /// A copy of the bytes of a line that is not bad, as last stored.
    pub fn copy(&self, line: LineNo) -> [u8; 64]
        requires within { line.0 < (cells_medium self.now).count }
        requires good { (cells_medium self.now).is_bad line.0 ≡ false }
        ensures { IsLine (cells_medium self.now) line.0 result }
    {
        let mut bytes = [0; 64];
        bytes.copy_from_slice(self.last(line));
        bytes
    }

    /// A copy of the durable bytes of a line that is not bad.
    pub fn copy_durable(&self, line: LineNo) -> [u8; 64]
        requires within { line.0 < (cells_medium self.now).count }
        requires good { (cells_medium self.now).is_bad line.0 ≡ false }
        ensures { (w : ℕ) → w < 8 → take 1 ((cells_medium self.now).history (8 * line.0 + w)) ≡ word_at result w ∷ [] }
    {
        let mut bytes = [0; 64];
        bytes.copy_from_slice(self.durable(line));
        bytes
    }

    pub fn shown(&self, line: LineNo) -> LineState
        requires { line.0 < (cells_medium self.now).count }
        ensures { Shows (cells_medium self.now) line.0 result }
    {
        if self.is_bad(line) {
            return LineState::Bad;
        }
        let bytes = self.copy(line);
        if self.is_weak(line) {
            LineState::Weak(bytes)
        } else {
            LineState::Healthy(bytes)
        }
    }

    /// The line that has to be written back before a number of bytes can be put at an offset of a line that is not bad.
    pub fn in_the_way(&self, line: LineNo, at: u64, len: u64) -> Option<u64>
        requires within { line.0 < (cells_medium self.now).count }
        requires good { (cells_medium self.now).is_bad line.0 ≡ false }
        requires some { 0 < len }
        requires fits { at + len ≤ 64 }
        ensures line { result ≡ in_the_way (memory_in self.now) line.0 at len }
        ensures few { length (memory_in self.now).order ≤ 1024 }
    {
        let all_dirty = self.order.len() == MOST as u64;
        match &self.states[line.0 as usize] {
            State::Weak(_) => None,
            State::Dirty(chain) => {
                if chain.is_full(at, len) {
                    Some(line.0)
                } else {
                    None
                }
            }
            State::Clean => { if all_dirty { self.order.first() } else { None } }
        }
    }
}
