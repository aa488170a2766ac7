ghost use Rattle.std.specs.Prelude.{◌≡◌};

use pm_volume::VolumeFault;

/// Why a call on a log was not done, or not wholly.
#[derive(Clone, Copy, Debug, PartialEq, Eq)]
pub enum LogFault {
    /// The record has more than 48 bytes.
    TooLong,
    /// No line is left for a record.
    Full,
    /// The log has no record of this number.
    NoRecord,
    /// The line at this offset of the volume has a count or a length that no log has.
    Wrong(u64),
    /// The line at this offset of the volume would be lost by its next sync.
    Weak(u64),
    /// The volume refused a call, or the device stopped it.
    Volume(VolumeFault),
}

impl From<VolumeFault> for LogFault {
    ghost use Rattle.append_log.specs.declared.fault.LogFault.TheVariants.{Volume};

    ghost from_gives = { λ inner fault. fault ≡ Volume inner };

    fn from(inner: VolumeFault) -> LogFault {
        LogFault::Volume(inner)
    }
}
