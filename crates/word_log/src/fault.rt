ghost use Rattle.std.specs.Prelude.{◌≡◌};

use line_words::Interruption;
use nvm_base::LineNo;
use std::alloc::AllocError;

/// Why a log could not be mounted.
#[derive(Clone, Copy, Debug, PartialEq, Eq)]
pub enum LogFault {
    /// Line of log or home that is bad.
    Poisoned(LineNo),
    /// First place of the log that is wrong.
    Bad(u64),
    /// The device failed.
    Failed,
    /// The power went.
    PowerLost,
    /// There is no memory.
    Memory,
}

impl From<Interruption> for LogFault {
    ghost use Rattle.line_words.specs.Told.Told.{Stops};
    ghost use Rattle.word_log.specs.Mount.{says};

    ghost from_gives = { λ stop fault. says fault ≡ Stops stop };

    fn from(stop: Interruption) -> LogFault {
        match stop {
            Interruption::Failed => LogFault::Failed,
            Interruption::PowerLost => LogFault::PowerLost,
        }
    }
}

impl From<AllocError> for LogFault {
    ghost use Rattle.word_log.specs.declared.fault.LogFault.TheVariants.{Memory};

    ghost from_gives = { λ _ log. log ≡ Memory };

    fn from(_fault: AllocError) -> LogFault {
        LogFault::Memory
    }
}
