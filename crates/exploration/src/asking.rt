use asked_reads::Question;

/// How a question is to be answered.
#[derive(Clone, Copy, Debug, PartialEq, Eq)]
pub enum Wanted {
    /// It is found after no cut.
    Never,
    /// It is found after some cut.
    May,
}

/// A question, and how it is to be answered.
#[derive(Debug, Drop)]
pub struct Asking {
    pub wanted: Wanted,
    pub question: Question,
}
