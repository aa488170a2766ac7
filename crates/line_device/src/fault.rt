use nvm_base::LineNo;

/// Why a call on a line was not done.
#[derive(Clone, Copy, Debug, PartialEq, Eq)]
pub enum DeviceFault {
    /// The line is bad. No data is returned.
    Poisoned(LineNo),
    /// The device failed, and may be used on.
    Failed,
    /// The power went during the call.
    PowerLost,
}

/// Why a device could not be set up.
#[derive(Clone, Copy, Debug, PartialEq, Eq)]
pub enum ResetFault {
    Failed,
    Memory,
}
