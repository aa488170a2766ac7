// What lines are counted for.
ghost use Rattle.std.specs.Prelude.{◌≡◌, ◌<◌};
ghost use Rattle.marked_lines.specs.Counting.{has_mark};

use line_device::Lines;
use nvm_base::LineNo;

/// A mark of lines.
#[derive(Clone, Copy, Debug, PartialEq, Eq)]
pub enum Mark {
    Bad,
    /// Weak, and not bad.
    Weak,
}

impl Mark {
    // Whether a line has the mark.
    pub(crate) fn is_on<L: Lines>(self, dev: &L, line: u64) -> bool
        requires { line < (L.state dev.now).medium.count }
        ensures { result ≡ has_mark self (L.state dev.now).medium line }
    {
        match self {
            Mark::Bad => dev.is_bad(LineNo(line)),
            Mark::Weak => !dev.is_bad(LineNo(line)) && dev.is_weak(LineNo(line)),
        }
    }
}
