// Lines of storage one after the other.
ghost use Rattle.std.specs.Prelude.{◌≡◌, ◌+◌, ◌≤◌, ◌^◌};
ghost use Rattle.std.specs.Option.{unwrap_or};

/// Lines from one on, each at the line of the device after that of the one before it; or all of them nowhere.
#[derive(Clone, Copy, Debug)]
pub struct Stretch {
    pub(crate) start: u64,
    pub(crate) len: u64,
    // where the first one lies
    pub(crate) line: Option<u64>,
    ghost fits: { unwrap_or line 0 + len ≤ 2 ^ 64 },
}

impl Stretch {
    /// Lines from that one on, the first at that line of the device, or nowhere.
    pub fn new(start: u64, len: u64, line: Option<u64>) -> Self
        requires fits { unwrap_or line 0 + len ≤ 2 ^ 64 }
        ensures start { result.start ≡ start }
        ensures len { result.len ≡ len }
        ensures line { result.line ≡ line }
    {
        Stretch { start, len, line }
    }
}
