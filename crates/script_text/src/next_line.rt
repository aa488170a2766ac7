// What a reader of lines answers.

/// What comes next of a script.
#[derive(Clone, Copy, Debug, PartialEq, Eq)]
pub enum NextLine {
    /// A line, which the reader lends.
    Line,
    /// A line of more than `MOST` bytes.
    TooLong,
    End,
}

/// Why no line can be read any more.
#[derive(Clone, Copy, Debug, PartialEq, Eq)]
pub enum InputFault {
    /// The source failed.
    Failed,
    /// Source of which 2^30 bytes were taken without an end: no script.
    TooLarge,
}
