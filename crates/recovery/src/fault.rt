ghost use Rattle.std.specs.Prelude.{◌≡◌};

use line_words::Interruption;
use nvm_base::LineNo;
use std::alloc::AllocError;
use word_log::LogFault;

/// Why a device could not be mounted.
#[derive(Clone, Copy, Debug, PartialEq, Eq)]
pub enum MountFault {
    /// Lowest line of metadata that is bad.
    Meta(LineNo),
    /// The word at this place is the first that is wrong, or begins the lowest weak line of metadata.
    Layout(u64),
    /// The device failed.
    Device,
    /// The power went.
    PowerLost,
    /// There is no memory.
    Memory,
}

impl From<Interruption> for MountFault {
    ghost use Rattle.line_words.specs.Told.Told.{Stops};
    ghost use Rattle.recovery.specs.Mounting.{device_says};

    ghost from_gives = { λ stop fault. device_says fault ≡ Stops stop };

    fn from(stop: Interruption) -> MountFault {
        match stop {
            Interruption::Failed => MountFault::Device,
            Interruption::PowerLost => MountFault::PowerLost,
        }
    }
}

impl From<block_device::MountFault> for MountFault {
    ghost use Rattle.block_device.specs.Mounting.{mount_says};
    ghost use Rattle.recovery.specs.Mounting.{device_says};

    ghost from_gives = { λ blocks fault. device_says fault ≡ mount_says blocks };

    fn from(fault: block_device::MountFault) -> MountFault {
        match fault {
            block_device::MountFault::Poisoned(line) => MountFault::Meta(line),
            block_device::MountFault::Bad(place) => MountFault::Layout(place),
            block_device::MountFault::Device => MountFault::Device,
            block_device::MountFault::PowerLost => MountFault::PowerLost,
            block_device::MountFault::Memory => MountFault::Memory,
        }
    }
}

impl From<pm_volume::MountFault> for MountFault {
    ghost use Rattle.pm_volume.specs.Mounting.{volume_mount_says};
    ghost use Rattle.recovery.specs.Mounting.{device_says};

    ghost from_gives = { λ volume fault. device_says fault ≡ volume_mount_says volume };

    fn from(fault: pm_volume::MountFault) -> MountFault {
        match fault {
            pm_volume::MountFault::Poisoned(line) => MountFault::Meta(line),
            pm_volume::MountFault::Bad(place) => MountFault::Layout(place),
            pm_volume::MountFault::Device => MountFault::Device,
            pm_volume::MountFault::PowerLost => MountFault::PowerLost,
            pm_volume::MountFault::Memory => MountFault::Memory,
        }
    }
}

impl From<file_journal::MountFault> for MountFault {
    ghost use Rattle.file_journal.specs.Mounting.{journal_mount_says};
    ghost use Rattle.recovery.specs.Mounting.{device_says};

    ghost from_gives = { λ files fault. device_says fault ≡ journal_mount_says files };

    fn from(fault: file_journal::MountFault) -> MountFault {
        match fault {
            file_journal::MountFault::Poisoned(line) => MountFault::Meta(line),
            file_journal::MountFault::Bad(place) => MountFault::Layout(place),
            file_journal::MountFault::Device => MountFault::Device,
            file_journal::MountFault::PowerLost => MountFault::PowerLost,
            file_journal::MountFault::Memory => MountFault::Memory,
        }
    }
}

impl From<LogFault> for MountFault {
    ghost use Rattle.word_log.specs.Mount.{says};
    ghost use Rattle.recovery.specs.Mounting.{device_says};

    ghost from_gives = { λ log fault. device_says fault ≡ says log };

    fn from(fault: LogFault) -> MountFault {
        match fault {
            LogFault::Poisoned(line) => MountFault::Meta(line),
            LogFault::Bad(place) => MountFault::Layout(place),
            LogFault::Failed => MountFault::Device,
            LogFault::PowerLost => MountFault::PowerLost,
            LogFault::Memory => MountFault::Memory,
        }
    }
}

impl From<AllocError> for MountFault {
    ghost use Rattle.line_words.specs.Told.Told.{Starves};
    ghost use Rattle.recovery.specs.Mounting.{device_says};

    ghost from_gives = { λ _ fault. device_says fault ≡ Starves };

    fn from(_fault: AllocError) -> MountFault {
        MountFault::Memory
    }
}
