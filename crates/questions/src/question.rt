use crate::AskedReply;
use nvm_base::Buffer;
use std::alloc::AllocError;

/// The reply that is asked about for each read in order, None where it may be any.
pub type Replies = Buffer<Option<AskedReply>>;

/// What a line asks.
#[derive(Debug, Drop)]
pub enum QuestionKind {
    /// Nothing.
    Plain,
    /// The cuts that are asked about begin here.
    Begin,
    /// The next command is wanted to be refused.
    Refused,
    /// The reads after the cut come next.
    Look,
    /// A list of outcomes.
    List,
    /// A table of the values that the reads may find.
    Table,
    /// Replies that the reads should have after no cut.
    Never(Replies),
    /// Replies that they should have after some cut.
    May(Replies),
}

/// Why a line's question is not taken.
#[derive(Clone, Copy, Debug, PartialEq, Eq)]
pub enum QuestionFault {
    /// It is not spelled right.
    Spelling,
    /// The reply of that number, from 1 on, is none of a read.
    Reply(u64),
    Memory,
}

impl From<AllocError> for QuestionFault {
    ghost use Rattle.std.specs.Prelude.{◌≡◌};
    ghost use Rattle.questions.specs.declared.question.QuestionFault.TheVariants.{Memory};

    ghost from_gives = { λ _ fault. fault ≡ Memory };

    fn from(_: AllocError) -> Self {
        QuestionFault::Memory
    }
}
