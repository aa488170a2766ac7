ghost use Rattle.std.specs.Prelude.{◌≡◌};
ghost use Rattle.exploration.specs.Steps.{fault_at, line_stop};

use crate::exploration::ScriptFault;
use crate::reason::Reason;
use std::alloc::AllocError;

/// Why a line is not taken.
#[derive(Clone, Copy, Debug, PartialEq, Eq)]
pub(crate) enum LineStop {
    Untaken(Reason),
    Memory,
}

impl LineStop {
    // That of a script whose line of this number it is.
    pub(crate) fn at(self, number: u64) -> ScriptFault
        ensures { result ≡ fault_at number self }
    {
        match self {
            LineStop::Untaken(reason) => ScriptFault::Line(number, reason),
            LineStop::Memory => ScriptFault::Memory,
        }
    }
}

impl From<AllocError> for LineStop {
    ghost use Rattle.std.specs.Prelude.{◌≡◌};
    ghost use Rattle.exploration.specs.declared.stop.LineStop.TheVariants.{Memory};

    ghost from_gives = { λ _ stop. stop ≡ Memory };

    fn from(_: AllocError) -> Self {
        LineStop::Memory
    }
}

/// Why a reply is not asked of a read.
#[derive(Clone, Copy, Debug, PartialEq, Eq)]
pub(crate) enum ReplyStop {
    /// The read never has a reply of that kind.
    Kind,
    Memory,
}

impl ReplyStop {
    // That of a line whose reply of this number it is.
    pub(crate) fn of(self, number: u64) -> LineStop
        ensures { result ≡ line_stop number self }
    {
        match self {
            ReplyStop::Kind => LineStop::Untaken(Reason::Kind(number)),
            ReplyStop::Memory => LineStop::Memory,
        }
    }
}

impl From<AllocError> for ReplyStop {
    ghost use Rattle.std.specs.Prelude.{◌≡◌};
    ghost use Rattle.exploration.specs.declared.stop.ReplyStop.TheVariants.{Memory};

    ghost from_gives = { λ _ stop. stop ≡ Memory };

    fn from(_: AllocError) -> Self {
        ReplyStop::Memory
    }
}
