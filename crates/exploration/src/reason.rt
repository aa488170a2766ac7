/// Why a line of a script is not taken.
#[derive(Clone, Copy, Debug, PartialEq, Eq)]
pub enum Reason {
    /// It is longer than a line may be.
    TooLong,
    /// It nearly asks something, or has words too many.
    Spelling,
    /// It is no command.
    Command,
    /// No program has this command.
    NotInAProgram,
    /// No look has this command.
    NotInALook,
    /// A question before the look.
    BeforeTheLook,
    /// A read after what is asked of reads.
    ReadAfterAQuestion,
    /// A second look, a second begin, or a command that is marked twice.
    Again,
    /// No command of the program comes after a mark.
    NoCommand,
    /// The reply of that number, from 1 on, is none of a read.
    Reply(u64),
    /// Number of replies, where the reads are not as many.
    Replies { given: u64, reads: u64 },
    /// The read never has a reply of that kind.
    Kind(u64),
    /// It has bytes of another length than the read.
    Length(u64),
    /// It names a line or a block that the read doesn't touch.
    Place(u64),
    /// The read is refused where the reply is not, or the reply where the read is not.
    Refusal(u64),
    /// All lines are taken, and nothing is asked; or nothing that has to be found.
    NothingAsked,
}
