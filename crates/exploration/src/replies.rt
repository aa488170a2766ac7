// A reply as an answer of a read.
ghost use Rattle.std.specs.Prelude.{◌≡◌, IfOk};
ghost use Rattle.questions.specs.Asked.{answer_asked};
ghost use Rattle.asked_reads.specs.Reads.{block_reply as asked_block_reply, page_reply as asked_page_reply};
ghost use Rattle.exploration.specs.Replies.{block_reply, file_reply, volume_reply};
ghost use Rattle.exploration.specs.Steps.{FindsReply};

use crate::stop::ReplyStop;
use asked_reads::{BlockReply, PageReply};
use nvm_base::{Bytes, Name};
use questions::AskedReply;
use std::alloc::{AllocError, Global};

// That of a read of the volume.
pub(crate) fn volume_reply(alloc: Global, reply: &AskedReply) -> Result<PageReply, ReplyStop>
    ensures { FindsReply asked_page_reply (volume_reply (answer_asked reply.now)) result }
{
    match reply {
        AskedReply::Bytes(bytes) => Ok(PageReply::Shows(copy(alloc, bytes)?)),
        AskedReply::PoisonVolume { offset } => Ok(PageReply::Poison(*offset)),
        AskedReply::Refused(why) => Ok(PageReply::Refuses(*why)),
        AskedReply::PoisonBlock { .. }
        | AskedReply::PoisonFile { .. }
        | AskedReply::Scarred { .. } => Err(ReplyStop::Kind),
    }
}

// That of a read of blocks.
pub(crate) fn block_reply(alloc: Global, reply: &AskedReply) -> Result<BlockReply, ReplyStop>
    ensures { FindsReply asked_block_reply (block_reply (answer_asked reply.now)) result }
{
    match reply {
        AskedReply::Bytes(bytes) => Ok(BlockReply::Shows(copy(alloc, bytes)?)),
        AskedReply::Scarred { block } => Ok(BlockReply::Scar(*block)),
        AskedReply::PoisonBlock { block, line } => Ok(BlockReply::BadLine {
            block: *block,
            line: *line,
        }),
        AskedReply::Refused(why) => Ok(BlockReply::Refuses(*why)),
        AskedReply::PoisonVolume { .. } | AskedReply::PoisonFile { .. } => Err(ReplyStop::Kind),
    }
}

// That of a read of the file of this name.
pub(crate) fn file_reply(
    alloc: Global,
    name: &Name,
    reply: &AskedReply,
) -> Result<PageReply, ReplyStop>
    ensures { FindsReply asked_page_reply (file_reply name.now (answer_asked reply.now)) result }
{
    match reply {
        AskedReply::Bytes(bytes) => Ok(PageReply::Shows(copy(alloc, bytes)?)),
        AskedReply::PoisonFile {
            name: other,
            offset,
        } if *other == *name => Ok(PageReply::Poison(*offset)),
        AskedReply::Refused(why) => Ok(PageReply::Refuses(*why)),
        AskedReply::PoisonFile { .. }
        | AskedReply::PoisonBlock { .. }
        | AskedReply::PoisonVolume { .. }
        | AskedReply::Scarred { .. } => Err(ReplyStop::Kind),
    }
}

fn copy(alloc: Global, bytes: &Bytes) -> Result<Bytes, AllocError>
    ensures { IfOk result (λ copy. copy.items ≡ bytes.now.items) }
{
    let mut copy = Bytes::new(alloc);
    copy.extend(bytes.as_slice())?;
    Ok(copy)
}
