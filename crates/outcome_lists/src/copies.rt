// A read that is asked, once more.
ghost use Rattle.std.specs.Prelude.{◌≡◌, IfOk};
ghost use Rattle.explorer.specs.AskedReads.Reads.{block_read, block_reply, file_read, page_read, page_reply};

use explorer::reads_asked::{BlockRead, BlockReply, FileRead, PageRead, PageReply};
use nvm_base::Bytes;
use std::alloc::{AllocError, Global};

pub fn page_copy(alloc: Global, read: &PageRead) -> Result<PageRead, AllocError>
    ensures { IfOk result (λ copy. page_read copy ≡ page_read read.now) }
{
    let reply = match &read.reply {
        PageReply::Shows(bytes) => PageReply::Shows(bytes_copy(alloc, bytes.as_slice())?),
        PageReply::Poison(at) => PageReply::Poison(*at),
        PageReply::Refuses(why) => PageReply::Refuses(*why),
    };
    Ok(PageRead {
        start: read.start,
        len: read.len,
        reply,
    })
}

pub fn block_copy(alloc: Global, read: &BlockRead) -> Result<BlockRead, AllocError>
    ensures { IfOk result (λ copy. block_read copy ≡ block_read read.now) }
{
    let reply = match &read.reply {
        BlockReply::Shows(bytes) => BlockReply::Shows(bytes_copy(alloc, bytes.as_slice())?),
        BlockReply::Scar(block) => BlockReply::Scar(*block),
        BlockReply::BadLine { block, line } => BlockReply::BadLine {
            block: *block,
            line: *line,
        },
        BlockReply::Refuses(why) => BlockReply::Refuses(*why),
    };
    Ok(BlockRead {
        first: read.first,
        count: read.count,
        reply,
    })
}

pub fn file_copy(alloc: Global, read: &FileRead) -> Result<FileRead, AllocError>
    ensures { IfOk result (λ copy. file_read copy ≡ file_read read.now) }
{
    let pages = page_copy(alloc, &read.pages)?;
    Ok(FileRead {
        name: read.name,
        pages,
    })
}

pub fn bytes_copy(alloc: Global, bytes: &[u8]) -> Result<Bytes, AllocError>
    ensures { IfOk result (λ copy. copy.items ≡ bytes.now) }
{
    let mut copy = Bytes::new(alloc);
    copy.extend(bytes)?;
    Ok(copy)
}
