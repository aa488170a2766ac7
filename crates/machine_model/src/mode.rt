/// What the host can do now.
#[derive(Clone, Copy, Debug, PartialEq, Eq)]
pub enum Mode {
    On,
    /// The power is off: only a restart is done.
    Off,
    /// A device call has failed: only a recovery or a cut is done.
    Unsettled,
    /// A mount found a line of metadata bad: only a cut is done.
    Stopped,
}
