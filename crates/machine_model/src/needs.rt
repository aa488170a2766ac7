/// In which modes a command is done.
#[derive(Clone, Copy, Debug, PartialEq, Eq)]
pub enum Needs {
    /// In On.
    Usable,
    /// In all of them.
    Anytime,
    /// While the power is on.
    Powered,
    /// While it is off.
    Unpowered,
    /// After a failed call.
    Failed,
}
