// Whether a read may have the reply that is asked for, whatever is stored.
ghost use Rattle.std.specs.Prelude.{◌≡◌};
ghost use Rattle.std.specs.List.{list_all};
ghost use Rattle.word_tables.specs.Bounds.{IsValid};
ghost use Rattle.asked_reads.specs.MachineModel.Meaning.{most_refusal};
ghost use Rattle.asked_reads.specs.Outcomes.Blocks.{is_block_reply};
ghost use Rattle.asked_reads.specs.Outcomes.Pages.{is_given, is_reply};
ghost use Rattle.asked_reads.specs.Asking.{is_given_by_some, may_be_file_reply, may_be_replies};
ghost use Rattle.asked_reads.specs.Reads.{block_read, blocks_asked, file_reads_asked, page_read, page_reply, pages_asked};

use crate::lines_fit::touches;
use asked_reads::{BlockRead, BlockReply, FileRead, PageRead, PageReply, Question};
use nvm_base::{BLOCK, LINE, MOST_READ, PAGE};
use reply_text::Why;
use word_tables::Geometry;

/// Most bytes of a volume that are read at once.
const MOST_BYTES: u64 = 65536;

/// Most blocks that are read at once.

/// Whether each read may have its reply on some device of these sizes.
pub fn may_be_replies(question: &Question, geometry: Geometry) -> bool
    requires { IsValid geometry }
    ensures { result ≡ may_be_replies geometry question.now }
{
    are_replies_of_bytes(&question.volume, PAGE * geometry.vpages)
        && are_replies_of_blocks(&question.blocks, geometry.blocks)
        && are_replies_of_files(&question.files)
}

// Whether each is one of storage of so many bytes.
fn are_replies_of_bytes(reads: &[PageRead], size: u64) -> bool
    ensures { result ≡ list_all (is_reply size) (pages_asked reads.now) }
{
    reads.iter().all(|read| is_reply_of_bytes(read, size))
}

// Whether each is one of so many blocks.
fn are_replies_of_blocks(reads: &[BlockRead], blocks: u64) -> bool
    ensures { result ≡ list_all (is_block_reply blocks) (blocks_asked reads.now) }
{
    reads.iter().all(|read| is_reply_of_blocks(read, blocks))
}

// Whether each is one of some file.
fn are_replies_of_files(reads: &[FileRead]) -> bool
    ensures { result ≡ list_all may_be_file_reply (file_reads_asked reads.now) }
{
    reads.iter().all(|read| is_given_by_some(&read.pages))
}

fn is_given_by_some(read: &PageRead) -> bool
    ensures { result ≡ is_given_by_some read.now.start read.now.len (page_reply read.now.reply) }
{
    match &read.reply {
        PageReply::Shows(_) | PageReply::Poison(_) => {
            0 < read.len && read.len <= MOST_BYTES && is_given(read)
        }
        PageReply::Refuses(_) => true,
    }
}

// Whether a read that is not refused may be answered so.
fn is_given(read: &PageRead) -> bool
    ensures { result ≡ is_given read.now.start read.now.len (page_reply read.now.reply) }
{
    match &read.reply {
        PageReply::Shows(bytes) => bytes.len() == read.len,
        PageReply::Poison(at) => touches(read.start, read.len, *at / LINE) && *at % LINE == 0,
        PageReply::Refuses(_) => false,
    }
}

/// Whether a read may have its reply on some storage of a number of bytes.
pub fn is_reply_of_bytes(read: &PageRead, size: u64) -> bool
    ensures { result ≡ is_reply size (page_read read.now) }
{
    match most_refusal(MOST_BYTES, size, read.start, read.len) {
        None => is_given(read),
        Some(why) => match &read.reply {
            PageReply::Refuses(other) => *other == why,
            PageReply::Shows(_) | PageReply::Poison(_) => false,
        },
    }
}

fn is_reply_of_blocks(read: &BlockRead, blocks: u64) -> bool
    ensures { result ≡ is_block_reply blocks (block_read read.now) }
{
    match most_refusal(MOST_READ, blocks, read.first, read.count) {
        None => match &read.reply {
            BlockReply::Shows(bytes) => {
                bytes.len() / BLOCK == read.count && bytes.len() % BLOCK == 0
            },
            BlockReply::Scar(block) | BlockReply::BadLine { block, .. } => {
                read.first <= *block && *block - read.first < read.count
            }
            BlockReply::Refuses(_) => false,
        },
        Some(why) => match &read.reply {
            BlockReply::Refuses(other) => *other == why,
            BlockReply::Shows(_) | BlockReply::Scar(_) | BlockReply::BadLine { .. } => false,
        },
    }
}

/// Why a read of so much of something of this size is refused, where no more than `most` is read at once.
pub fn most_refusal(most: u64, size: u64, start: u64, len: u64) -> Option<Why>
    ensures { result ≡ most_refusal most size start len }
{
    if start > size || len > size - start {
        Some(Why::Range)
    } else if len == 0 {
        Some(Why::Length)
    } else if len > most {
        Some(Why::Limit)
    } else {
        None
    }
}
