// Whether a block may be read as a question asks.
ghost use Rattle.std.specs.Prelude.{◌≡◌, ◌<◌, ◌≤◌, ◌^◌};
ghost use Rattle.asked_reads.specs.Reads.{block_reply, blocks_asked};
ghost use Rattle.asked_reads.specs.Fitting.{sight_allows, sight_fits, sight_has};

use crate::lines_fit::{byte_in, is_among};
use asked_reads::{BlockRead, BlockReply};
use block_sights::{HeldBlock, Unreadable};
use nvm_base::BLOCK;

/// Whether all of these reads may be answered so where this is block b.
pub fn block_fits(reads: &[BlockRead], b: u64, block: &HeldBlock) -> bool
    requires { b < 2 ^ 32 }
    ensures { result ≡ sight_fits (blocks_asked reads.now) b block.now }
{
    reads.iter().all(|read| !is_among(read.first, read.count, b) || allows(read, b, block))
}

// Whether it may be answered so, where block b is among its blocks.
fn allows(read: &BlockRead, b: u64, block: &HeldBlock) -> bool
    requires block { b < 2 ^ 32 }
    requires among { read.now.first ≤ b }
    ensures { result ≡ sight_allows b block.now read.now.first (block_reply read.now.reply) }
{
    match &read.reply {
        BlockReply::Shows(bytes) => has(read.first, bytes.as_slice(), b, block),
        BlockReply::Scar(named) => match block.read() {
            Ok(_) => b != *named,
            Err(Unreadable::Scarred) => b >= *named,
            Err(Unreadable::BadLine(_)) => b > *named,
        },
        BlockReply::BadLine { block: named, line } => match block.read() {
            Ok(_) => b != *named,
            Err(Unreadable::Scarred) => b > *named,
            Err(Unreadable::BadLine(lowest)) => { b > *named || b == *named && lowest == *line }
        },
        BlockReply::Refuses(_) => true,
    }
}

// Whether the block has these of the bytes of a read from block `first` on.
fn has(first: u64, bytes: &[u8], b: u64, block: &HeldBlock) -> bool
    requires block { b < 2 ^ 32 }
    requires among { first ≤ b }
    ensures { result ≡ sight_has first bytes.now b block.now }
{
    match block.read() {
        Ok(seen) => {
            let start = BLOCK * first;
            (BLOCK * b..BLOCK * b + BLOCK).all(|i| byte_in(bytes, i - start)
                == seen[(i % BLOCK) as usize])
        }
        Err(_) => false,
    }
}
