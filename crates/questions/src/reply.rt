use nvm_base::{Bytes, Name};
use reply_text::Why;
use std::alloc::AllocError;

/// A reply that a read is asked about.
#[derive(Debug, Drop)]
pub enum AskedReply {
    Bytes(Bytes),
    PoisonBlock { block: u64, line: u64 },
    PoisonVolume { offset: u64 },
    PoisonFile { name: Name, offset: u64 },
    Scarred { block: u64 },
    Refused(Why),
}

/// Why a reply is not taken.
#[derive(Clone, Copy, Debug, PartialEq, Eq)]
pub(crate) enum ReplyFault {
    Syntax,
    Memory,
}

impl From<AllocError> for ReplyFault {
    ghost use Rattle.std.specs.Prelude.{◌≡◌};
    ghost use Rattle.questions.specs.declared.reply.ReplyFault.TheVariants.{Memory};

    ghost from_gives = { λ _ fault. fault ≡ Memory };

    fn from(_: AllocError) -> Self {
        ReplyFault::Memory
    }
}
