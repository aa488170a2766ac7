ghost use Rattle.std.specs.Prelude.{◌≡◌};

use line_words::Interruption;
use nvm_base::LineNo;
use std::alloc::AllocError;
use word_log::LogFault;

/// Why a change of files was not made.
#[derive(Clone, Copy, Debug, PartialEq, Eq)]
pub enum JournalFault {
    /// There is no file of that name.
    Missing,
    /// There is one already.
    Exists,
    /// A file has 256 pages at most.
    Limit,
    /// There are 64 files.
    Slots,
    /// Too few units would be left.
    Full,
    /// Lowest line of metadata that is bad.
    Meta(LineNo),
    /// The device failed.
    Device,
    /// The power went.
    PowerLost,
}

/// Why a journal could not be mounted.
#[derive(Clone, Copy, Debug, PartialEq, Eq)]
pub enum MountFault {
    /// Line of log or tables that is bad.
    Poisoned(LineNo),
    /// The word at this place is the first that is wrong.
    Bad(u64),
    /// The device failed.
    Device,
    /// The power went.
    PowerLost,
    /// There is no memory.
    Memory,
}

impl From<Interruption> for JournalFault {
    ghost use Rattle.line_words.specs.Told.Told.{Stops};
    ghost use Rattle.file_journal.specs.Refusals.{journal_says};

    ghost from_gives = { λ stop fault. journal_says fault ≡ Stops stop };

    fn from(stop: Interruption) -> JournalFault {
        match stop {
            Interruption::Failed => JournalFault::Device,
            Interruption::PowerLost => JournalFault::PowerLost,
        }
    }
}

impl From<LogFault> for MountFault {
    ghost use Rattle.word_log.specs.Mount.{says};
    ghost use Rattle.file_journal.specs.Mounting.{journal_mount_says};

    ghost from_gives = { λ log fault. journal_mount_says fault ≡ says log };

    fn from(fault: LogFault) -> MountFault {
        match fault {
            LogFault::Poisoned(line) => MountFault::Poisoned(line),
            LogFault::Bad(place) => MountFault::Bad(place),
            LogFault::Failed => MountFault::Device,
            LogFault::PowerLost => MountFault::PowerLost,
            LogFault::Memory => MountFault::Memory,
        }
    }
}
