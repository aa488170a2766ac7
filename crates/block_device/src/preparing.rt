// Blocks written to fresh units that the map doesn't name yet.
ghost use Rattle.std.specs.Prelude.{◌≡◌, ◌+◌, ◌*◌, ◌/◌, ◌<◌, ◌≤◌, ◌++◌, ℕ, [], ◌∷◌, false, length, slice_set};
ghost use Rattle.arrayvec.specs.ArrayVec.{array_vec_len};
ghost use Rattle.free_pool.specs.Units.{IsFree, free_count};
ghost use Rattle.nvm_model.specs.Numbered.{list_from};
ghost use Rattle.nvm_model.specs.Blocks.{write};
ghost use Rattle.block_device.specs.Changes.{names};
ghost use Rattle.block_device.specs.Prepared.{numbers_of};
ghost use Rattle.block_device.specs.Calls.{MayPrepare, PreparesBlocks};

use crate::Blocks;
use crate::change::Change;
use arrayvec::ArrayVec;
use block_map::BlockState;
use line_device::Lines;
use line_words::{Interruption, renew_lines};
use nvm_base::BLOCK;

/// Blocks that change together.
pub(crate) type Changes = ArrayVec<Change, 64>;

impl Blocks {
    // Writes blocks to fresh units, and adds the changes that put them there.
    pub(crate) fn prepare_blocks<L: Lines>(
        &mut self,
        dev: &mut L,
        changes: &mut Changes,
        block: u64,
        bytes: &[u8],
    ) -> Result<(), Interruption>
        requires may { MayPrepare self.old (L.state dev.old) changes.old.items }
        requires room { array_vec_len changes.old + length bytes.now / 512 ≤ 64 }
        requires within { block + length bytes.now / 512 ≤ self.old.geo.blocks }
        requires fresh { (k : ℕ) → k < length bytes.now / 512 → names changes.old.items (block + k) ≡ false }
        ensures prepares { PreparesBlocks L.state self.old self.new dev.old dev.new result changes.old.items changes.new.items
            (numbers_of changes.old.items ++ list_from (λ b. b) block (length bytes.now / 512))
            (write block bytes.now) (24 * (length bytes.now / 512)) (8 * (length bytes.now / 512)) }
    {
        let size = BLOCK as usize;
        for k in 0..bytes.len() / size {
            let piece = &bytes[size * k..size * k + size];
            self.prepare_block(dev, changes, block + k as u64, piece)?;
        }
        Ok(())
    }

    // Writes one block to a fresh unit, and adds the change that puts it there.
    fn prepare_block<L: Lines>(
        &mut self,
        dev: &mut L,
        changes: &mut Changes,
        block: u64,
        bytes: &[u8],
    ) -> Result<(), Interruption>
        requires may { MayPrepare self.old (L.state dev.old) changes.old.items }
        requires room { array_vec_len changes.old < 64 }
        requires block { block < self.old.geo.blocks }
        requires fresh { names changes.old.items block ≡ false }
        requires length { length bytes.now ≡ 512 }
        ensures prepares { PreparesBlocks L.state self.old self.new dev.old dev.new result changes.old.items changes.new.items
            (numbers_of changes.old.items ++ block ∷ [])
            (write block bytes.now) 24 8 }
    {
        let geo = self.geo;
        let unit = self.take_unit();
        renew_lines(dev, geo.block_line(unit), bytes)?;
        changes.push(Change {
            block,
            state: BlockState::At(unit),
        });
        Ok(())
    }

    // Takes a free unit.
    fn take_unit(&mut self) -> u64
        requires unsettled { self.old.settled ≡ false }
        requires some { 0 < free_count self.old.free }
        ensures unit { result < self.old.geo.blocks + 64 }
        ensures was_free { IsFree self.old.free result }
        ensures after { self.new ≡ record self.old { free = slice_set self.old.free result false } }
    {
        match self.pool.take() {
            Some(unit) => unit,
            None => unreachable!(),
        }
    }
}
