use nvm_base::Span;

/// Where a log stands.
#[derive(Clone, Copy, Debug, PartialEq, Eq)]
pub struct LogArea {
    /// Lines of the log.
    pub log: Span,
    /// Most entries.
    pub cap: u64,
    /// Places of the words that the log may change.
    pub home: Span,
}
