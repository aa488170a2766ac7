// The blocks that a question's reads look at, as they are before the program.
ghost use Rattle.std.specs.Prelude.{◌≡◌, ◌≢◌, ◌+◌, ◌<◌, ◌≤◌, ◌++◌, ℕ, true, List, IfErr, IfOk, OnOk, length};
ghost use Rattle.std.specs.List.{list_all, range_with_len};
ghost use Rattle.nvm_model.specs.Blocks.{nth};
ghost use Rattle.block_sights.specs.Sights.{sight};
ghost use Rattle.block_sights.specs.Sights.Sight.{BadLine, Scar, Whole};
ghost use Rattle.reply_text.specs.Answer.Answer.{Bytes, PoisonBlock, Scarred};
ghost use Rattle.cut_places.specs.MachineModel.Machine.{Machine};
ghost use Rattle.machine_host.specs.Responding.{outcome_answer};
ghost use Rattle.machine_host.specs.Settling.{GoesOn};
ghost use Rattle.machine_host.specs.Stands.{Stands};
ghost use Rattle.cut_places.specs.Outcomes.Blocks.{all_numbers_read, is_block_reply, numbers_read};
ghost use Rattle.cut_places.specs.Outcomes.Finds.{IsReady};
ghost use Rattle.cut_places.specs.AskedReads.Reads.{block_read, block_reply, blocks_asked};
ghost use Rattle.explorer.specs.Coming.{came_of};
ghost use Rattle.explorer.specs.declared.came.Came.TheVariants.{Stopped};
ghost use Rattle.explorer.specs.Stopping.{DeviceStopped, NoneFell, TellsNoBlock};
ghost use Rattle.cut_places.specs.SightsSeen.Units.{AreBlocks, block_numbers};

use crate::fault::ExploreFault;
use block_sights::{HeldBlock, Unreadable};
use cut_places::reads_asked::{BlockRead, BlockReply};
use cut_places::sights_seen::BlockSeen;
use line_device::LineDevice;
use machine_host::{Host, Outcome};
use nvm_base::BLOCK;
use reply_text::Reply;
use script_text::Command;
use std::alloc::{AllocError, Global};

/// All blocks that these reads look at, read by read.
pub fn look_blocks<D: LineDevice>(
    alloc: Global,
    host: &mut Host,
    device: &mut D,
    reads: &[BlockRead],
    work: &mut [u8],
) -> Result<Vec<BlockSeen>, ExploreFault>
    requires known { GoesOn host.old (D.state device.old) }
    requires wide { length work.old ≡ 65536 }
    requires replies { list_all (is_block_reply host.old.geometry.blocks) (blocks_asked reads.now) ≡ true }
    ensures numbers { IfOk result (λ blocks. block_numbers blocks.items ≡ all_numbers_read (blocks_asked reads.now)) }
    ensures sees { (h : Machine) → Stands host.old (D.state device.old) h → IsReady h
        → IfOk result (λ blocks. AreBlocks (λ b. sight (nth h.blocks b)) blocks.items × Stands host.new (D.state device.new) h) }
    ensures geometry { OnOk result (host.new.geometry ≡ host.old.geometry) }
    ensures known { OnOk result (GoesOn host.new (D.state device.new)) }
    ensures counts { OnOk result (NoneFell (D.state device.old).panel (D.state device.new).panel) }
    ensures cause { (h : Machine) → Stands host.old (D.state device.old) h → IsReady h
        → IfErr result (λ fault. fault ≡ ExploreFault.Device → DeviceStopped (D.state device.old).panel (D.state device.new).panel) }
{
    let mut blocks = Vec::new(alloc);
    for read in reads {
        look_read(alloc, host, device, read, work, &mut blocks)?;
    }
    Ok(blocks)
}

// Those of one read.
fn look_read<D: LineDevice>(
    alloc: Global,
    host: &mut Host,
    device: &mut D,
    read: &BlockRead,
    work: &mut [u8],
    blocks: &mut Vec<BlockSeen>,
) -> Result<(), ExploreFault>
    requires known { GoesOn host.old (D.state device.old) }
    requires wide { length work.old ≡ 65536 }
    requires reply { is_block_reply host.old.geometry.blocks (block_read read.now) ≡ true }
    ensures numbers { OnOk result (block_numbers blocks.new.items
        ≡ block_numbers blocks.old.items ++ numbers_read read.now.first read.now.count (block_reply read.now.reply)) }
    ensures sees { (h : Machine) → Stands host.old (D.state device.old) h → IsReady h
        → OnOk result ((AreBlocks (λ b. sight (nth h.blocks b)) blocks.old.items → AreBlocks (λ b. sight (nth h.blocks b)) blocks.new.items)
        × Stands host.new (D.state device.new) h) }
    ensures geometry { OnOk result (host.new.geometry ≡ host.old.geometry) }
    ensures known { OnOk result (GoesOn host.new (D.state device.new)) }
    ensures counts { OnOk result (NoneFell (D.state device.old).panel (D.state device.new).panel) }
    ensures cause { (h : Machine) → Stands host.old (D.state device.old) h → IsReady h
        → IfErr result (λ fault. fault ≡ ExploreFault.Device → DeviceStopped (D.state device.old).panel (D.state device.new).panel) }
{
    let count = looked_at(read);
    for b in read.first..read.first + count {
        let seen = look_block(alloc, host, device, b, work)?;
        blocks.push(seen).map_err(AllocError::from)?;
    }
    Ok(())
}

// How many blocks a read looks at. One that is to be refused looks at none.
fn looked_at(read: &BlockRead) -> u64
    ensures numbers { range_with_len read.now.first result ≡ numbers_read read.now.first read.now.count (block_reply read.now.reply) }
    ensures within { (blocks : ℕ) → is_block_reply blocks (block_read read.now) ≡ true → 0 < result → read.now.first + result ≤ blocks }
{
    match &read.reply {
        BlockReply::Shows(_) | BlockReply::Scar(_) | BlockReply::BadLine { .. } => read.count,
        BlockReply::Refuses(_) => 0,
    }
}

fn look_block<D: LineDevice>(
    alloc: Global,
    host: &mut Host,
    device: &mut D,
    b: u64,
    work: &mut [u8],
) -> Result<BlockSeen, ExploreFault>
    requires known { GoesOn host.old (D.state device.old) }
    requires wide { length work.old ≡ 65536 }
    requires within { b < host.old.geometry.blocks }
    ensures number { IfOk result (λ found. found.number ≡ b) }
    ensures sees { (h : Machine) → Stands host.old (D.state device.old) h → IsReady h
        → IfOk result (λ found. (found.block ≡ sight (nth h.blocks b)) × Stands host.new (D.state device.new) h) }
    ensures geometry { OnOk result (host.new.geometry ≡ host.old.geometry) }
    ensures known { OnOk result (GoesOn host.new (D.state device.new)) }
    ensures counts { OnOk result (NoneFell (D.state device.old).panel (D.state device.new).panel) }
    ensures cause { (h : Machine) → Stands host.old (D.state device.old) h → IsReady h
        → IfErr result (λ fault. fault ≡ ExploreFault.Device → DeviceStopped (D.state device.old).panel (D.state device.new).panel) }
{
    let read = Command::BRead { block: b, count: 1 };
    let outcome = host.answer(device, &read, work)?;
    let block = block_told(alloc, &outcome, work)?;
    Ok(BlockSeen { number: b, block })
}

// The block of which a read was answered so.
fn block_told(alloc: Global, outcome: &Outcome, work: &[u8]) -> Result<HeldBlock, ExploreFault>
    requires wide { length work.now ≡ 65536 }
    ensures whole { (bytes : List ℕ) → outcome_answer work.now outcome.now ≡ Bytes bytes → length bytes ≡ 512
        → IfOk result (λ block. block ≡ Whole bytes) }
    ensures scarred { (b : ℕ) → outcome_answer work.now outcome.now ≡ Scarred b → IfOk result (λ block. block ≡ Scar) }
    ensures bad_line { (b line : ℕ) → outcome_answer work.now outcome.now ≡ PoisonBlock b line
        → IfOk result (λ block. block ≡ BadLine line) }
    ensures came { OnOk result (came_of (outcome_answer work.now outcome.now) ≢ Stopped) }
    ensures none { IfErr result (λ fault. fault ≡ ExploreFault.Device → TellsNoBlock (outcome_answer work.now outcome.now)) }
{
    match outcome {
        Outcome::Read(_) => Ok(HeldBlock::of_bytes(alloc, &work[..BLOCK as usize])?),
        Outcome::Reply(Reply::Scarred(_)) => {
            Ok(HeldBlock::unreadable(alloc, Unreadable::Scarred)?)
        },
        Outcome::Reply(Reply::PoisonBlock(_, line)) => {
            Ok(HeldBlock::unreadable(alloc, Unreadable::BadLine(*line))?)
        },
        Outcome::Reply(_) => Err(ExploreFault::Device),
    }
}
