ghost use Rattle.std.specs.Prelude.{◌≡◌};

use line_words::Interruption;
use nvm_base::LineNo;
use std::alloc::AllocError;
use word_log::LogFault;

/// Why a call on blocks was not done, or not wholly.
#[derive(Clone, Copy, Debug, PartialEq, Eq)]
pub enum BlockFault {
    /// Block past the last one.
    Range,
    /// No blocks, or no whole ones.
    Length,
    /// More blocks or spans than change together.
    Limit,
    /// Two spans share a block.
    Overlap,
    /// Lowest line of metadata that is bad.
    Meta(LineNo),
    /// Block that was made unreadable.
    Scarred(u64),
    /// In this block that line, 0 to 7, is bad.
    Poison(u64, u64),
    /// The device failed.
    Device,
    /// The power went.
    PowerLost,
}

/// Why blocks could not be mounted.
#[derive(Clone, Copy, Debug, PartialEq, Eq)]
pub enum MountFault {
    /// Line of log or map that is bad.
    Poisoned(LineNo),
    /// The word at this place is the first that is wrong.
    Bad(u64),
    /// The device failed.
    Device,
    /// The power went.
    PowerLost,
    /// There is no memory.
    Memory,
}

impl From<Interruption> for BlockFault {
    ghost use Rattle.line_words.specs.Told.Told.{Stops};
    ghost use Rattle.block_device.specs.Refusals.{block_says};

    ghost from_gives = { λ stop fault. block_says fault ≡ Stops stop };

    fn from(stop: Interruption) -> BlockFault {
        match stop {
            Interruption::Failed => BlockFault::Device,
            Interruption::PowerLost => BlockFault::PowerLost,
        }
    }
}

impl From<Interruption> for MountFault {
    ghost use Rattle.line_words.specs.Told.Told.{Stops};
    ghost use Rattle.block_device.specs.Mounting.{mount_says};

    ghost from_gives = { λ stop fault. mount_says fault ≡ Stops stop };

    fn from(stop: Interruption) -> MountFault {
        match stop {
            Interruption::Failed => MountFault::Device,
            Interruption::PowerLost => MountFault::PowerLost,
        }
    }
}

impl From<LogFault> for MountFault {
    ghost use Rattle.word_log.specs.Mount.{says};
    ghost use Rattle.block_device.specs.Mounting.{mount_says};

    ghost from_gives = { λ log fault. mount_says fault ≡ says log };

    fn from(fault: LogFault) -> MountFault {
        match fault {
            LogFault::Poisoned(line) => MountFault::Poisoned(line),
            LogFault::Bad(place) => MountFault::Bad(place),
            LogFault::Failed => MountFault::Device,
            LogFault::PowerLost => MountFault::PowerLost,
            LogFault::Memory => MountFault::Memory,
        }
    }
}

impl From<AllocError> for MountFault {
    ghost use Rattle.line_words.specs.Told.Told.{Starves};
    ghost use Rattle.block_device.specs.Mounting.{mount_says};

    ghost from_gives = { λ _ fault. mount_says fault ≡ Starves };

    fn from(_fault: AllocError) -> MountFault {
        MountFault::Memory
    }
}
