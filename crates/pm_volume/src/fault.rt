ghost use Rattle.std.specs.Prelude.{◌≡◌};

use line_words::Interruption;
use nvm_base::LineNo;
use std::alloc::AllocError;
use word_log::LogFault;

/// Why a call on the volume was not done, or not wholly.
#[derive(Clone, Copy, Debug, PartialEq, Eq)]
pub enum VolumeFault {
    /// The volume has no such bytes or pages.
    Range,
    /// No bytes, or no pages.
    Length,
    /// A byte of the span has no place in the volume.
    Address,
    /// Lowest line of metadata that is bad.
    Meta(LineNo),
    /// The line at this offset of the volume, in bytes, is bad.
    Poison(u64),
    /// The device failed.
    Device,
    /// The power went.
    PowerLost,
}

/// Why a volume could not be mounted.
#[derive(Clone, Copy, Debug, PartialEq, Eq)]
pub enum MountFault {
    /// Line of log or presence words that is bad.
    Poisoned(LineNo),
    /// The word at this place is the first that is wrong.
    Bad(u64),
    /// The device failed.
    Device,
    /// The power went.
    PowerLost,
    /// There is no memory.
    Memory,
}

impl From<Interruption> for VolumeFault {
    ghost use Rattle.line_words.specs.Told.Told.{Stops};
    ghost use Rattle.pm_volume.specs.Refusals.{volume_says};

    ghost from_gives = { λ stop fault. volume_says fault ≡ Stops stop };

    fn from(stop: Interruption) -> VolumeFault {
        match stop {
            Interruption::Failed => VolumeFault::Device,
            Interruption::PowerLost => VolumeFault::PowerLost,
        }
    }
}

impl From<LogFault> for MountFault {
    ghost use Rattle.word_log.specs.Mount.{says};
    ghost use Rattle.pm_volume.specs.Mounting.{volume_mount_says};

    ghost from_gives = { λ log fault. volume_mount_says fault ≡ says log };

    fn from(fault: LogFault) -> MountFault {
        match fault {
            LogFault::Poisoned(line) => MountFault::Poisoned(line),
            LogFault::Bad(place) => MountFault::Bad(place),
            LogFault::Failed => MountFault::Device,
            LogFault::PowerLost => MountFault::PowerLost,
            LogFault::Memory => MountFault::Memory,
        }
    }
}

impl From<AllocError> for MountFault {
    ghost use Rattle.line_words.specs.Told.Told.{Starves};
    ghost use Rattle.pm_volume.specs.Mounting.{volume_mount_says};

    ghost from_gives = { λ _ fault. volume_mount_says fault ≡ Starves };

    fn from(_fault: AllocError) -> MountFault {
        MountFault::Memory
    }
}
