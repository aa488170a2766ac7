// Reading blocks.
ghost use Rattle.std.specs.Prelude.{◌≡◌, ◌+◌, ◌*◌, ◌/◌, ◌%◌, ◌<◌, ◌≤◌, ◌++◌, ℕ, None, EachIndex, IsTrue, OnErr, OnOk, drop, length, option_map, slice_index, take};
ghost use Rattle.line_device.specs.Medium.{IsHealthy, WritesBack, last_image};
ghost use Rattle.line_device.specs.Panel.{Runs};
ghost use Rattle.line_words.specs.Ending.{ended};
ghost use Rattle.nvm_model.specs.Blocks.{first_obstacle, look_blocks, nth, obstacle_in};
ghost use Rattle.block_device.specs.Reading.{bytes_read};
ghost use Rattle.block_device.specs.Object.{BlocksServe, blocks_of};
ghost use Rattle.block_device.specs.Refusals.{Answers, Checks, Obstructs, OnRefused, block_outcome, read_refusal};
ghost use Rattle.line_words.specs.Told.{is_done};
ghost use Rattle.block_device.specs.Refusals.Refusal.{Unreadable};
ghost use Rattle.block_device.specs.Calls.{AreReady, FillsBuffer};

use crate::checks::check_bytes;
use crate::{BlockFault, Blocks};
use block_map::BlockState;
use line_device::Lines;
use line_words::{Interruption, first_bad, load_line};
use nvm_base::{BLOCK, LINE};

/// Lines of a unit.
const UNIT_LINES: u64 = 8;

impl Blocks {
    /// Reads whole blocks, as many as fill the buffer. Absent blocks read as zeros. What can't be read is found before
    /// the first load.
    pub fn read_into<L: Lines>(
        &mut self,
        dev: &mut L,
        block: u64,
        out: &mut [u8],
    ) -> Result<(), BlockFault>
        requires ready { AreReady self.old (L.state dev.old) }
        ensures refused { Answers (read_refusal self.old (L.state dev.old).medium block (length out.old)) result }
        ensures untouched { OnRefused result ((out.new ≡ out.old) × (dev.new ≡ dev.old)) }
        ensures fills { FillsBuffer (L.state dev.old) (L.state dev.new) out.old out.new result (block_outcome result)
            (look_blocks (blocks_of self.old (L.state dev.old).medium) block (length out.old / 512)) (length out.old / 64) }
        ensures serves { BlocksServe self.new (L.state dev.new).medium }
        ensures object { self.new ≡ record self.old { settled = is_done (block_outcome result) } }
    {
        check_bytes(self.geo.blocks, block, out.len() as u64)?;
        self.check_readable(dev, block, out.len() as u64 / BLOCK)?;
        self.settled = false;
        self.load_blocks(dev, block, out)?;
        self.settled = true;
        Ok(())
    }

    // Whether blocks can be read. It makes no counted call.
    fn check_readable<L: Lines>(&self, dev: &L, block: u64, count: u64) -> Result<(), BlockFault>
        requires serves { BlocksServe self.now (L.state dev.now).medium }
        requires few { self.now.geo.blocks ≤ 4096 }
        requires within { block + count ≤ self.now.geo.blocks }
        ensures { Checks (option_map Unreadable (first_obstacle (blocks_of self.now (L.state dev.now).medium) block count)) result }
    {
        for k in block..block + count {
            if let Some(fault) = self.obstacle(dev, k) {
                return Err(fault);
            }
        }
        Ok(())
    }

    // What keeps a block from being read.
    fn obstacle<L: Lines>(&self, dev: &L, block: u64) -> Option<BlockFault>
        requires serves { BlocksServe self.now (L.state dev.now).medium }
        requires block { block < self.now.geo.blocks }
        ensures { Obstructs (option_map Unreadable (obstacle_in block (nth (blocks_of self.now (L.state dev.now).medium) block))) result }
    {
        match self.map.get(block) {
            BlockState::Absent => None,
            BlockState::Scarred => Some(BlockFault::Scarred(block)),
            BlockState::At(unit) => match first_bad(dev, self.geo.block_line(unit), UNIT_LINES) {
                Some(line) => Some(BlockFault::Poison(block, line)),
                None => None,
            },
        }
    }

    // Reads blocks that can be read.
    fn load_blocks<L: Lines>(
        &self,
        dev: &mut L,
        block: u64,
        out: &mut [u8],
    ) -> Result<(), Interruption>
        requires serves { BlocksServe self.now (L.state dev.old).medium }
        requires on { IsTrue (L.state dev.old).panel.power }
        requires whole { length out.old % 512 ≡ 0 }
        requires few { self.now.geo.blocks ≤ 4096 }
        requires within { block + length out.old / 512 ≤ self.now.geo.blocks }
        requires readable { first_obstacle (blocks_of self.now (L.state dev.old).medium) block (length out.old / 512) ≡ None }
        ensures fills { FillsBuffer (L.state dev.old) (L.state dev.new) out.old out.new result (ended result)
            (look_blocks (blocks_of self.now (L.state dev.old).medium) block (length out.old / 512)) (length out.old / 64) }
    {
        let size = BLOCK as usize;
        for k in 0..out.len() / size {
            self.load_block(dev, block + k as u64, out, size * k)?;
        }
        Ok(())
    }

    // Reads one block to its place in the buffer.
    fn load_block<L: Lines>(
        &self,
        dev: &mut L,
        block: u64,
        out: &mut [u8],
        at: usize,
    ) -> Result<(), Interruption>
        requires serves { BlocksServe self.now (L.state dev.old).medium }
        requires on { IsTrue (L.state dev.old).panel.power }
        requires block { block < self.now.geo.blocks }
        requires within { at + 512 ≤ length out.old }
        requires readable { obstacle_in block (nth (blocks_of self.now (L.state dev.old).medium) block) ≡ None }
        ensures fills { FillsBuffer (L.state dev.old) (L.state dev.new) out.old out.new result (ended result)
            (take at out.old ++ look_blocks (blocks_of self.now (L.state dev.old).medium) block 1 ++ drop (at + 512) out.old) 8 }
    {
        match self.map.get(block) {
            BlockState::At(unit) => {
                load_unit(
                    dev,
                    self.geo.block_line(unit),
                    &mut out[at..at + BLOCK as usize],
                )
            }
            BlockState::Absent | BlockState::Scarred => {
                zero(&mut out[at..at + BLOCK as usize]);
                Ok(())
            }
        }
    }
}

// Reads a unit's eight lines, none of which is bad.
fn load_unit<L: Lines>(dev: &mut L, first: u64, out: &mut [u8]) -> Result<(), Interruption>
    requires healthy { (k : ℕ) → k < 8 → IsHealthy (L.state dev.old).medium (first + k) }
    requires on { IsTrue (L.state dev.old).panel.power }
    requires length { length out.old ≡ 512 }
    ensures fills { FillsBuffer (L.state dev.old) (L.state dev.new) out.old out.new result (ended result)
        (bytes_read (last_image (L.state dev.old).medium) (64 * first) 512) 8 }
{
    for k in 0..UNIT_LINES {
        load_at(dev, first + k, out, (LINE * k) as usize)?;
    }
    Ok(())
}

// Reads a line to its place in the buffer.
fn load_at<L: Lines>(dev: &mut L, line: u64, out: &mut [u8], at: usize) -> Result<(), Interruption>
    requires healthy { IsHealthy (L.state dev.old).medium line }
    requires on { IsTrue (L.state dev.old).panel.power }
    requires within { at + 64 ≤ length out.old }
    ensures ok { OnOk result (out.new ≡ take at out.old
        ++ bytes_read (last_image (L.state dev.old).medium) (64 * line) 64 ++ drop (at + 64) out.old) }
    ensures err { OnErr result (out.new ≡ out.old) }
    ensures lines { WritesBack (L.state dev.old).medium (L.state dev.new).medium }
    ensures runs { Runs 1 0 (ended result) (L.state dev.old).panel (L.state dev.new).panel }
{
    load_line(dev, line, &mut out[at..at + LINE as usize])
}

fn zero(out: &mut [u8])
    ensures { EachIndex out.new (λ k. slice_index out.new k ≡ 0) }
{
    for byte in out.iter_mut() {
        *byte = 0;
    }
}
