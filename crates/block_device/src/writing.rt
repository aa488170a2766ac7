// Writing blocks.
ghost use Rattle.std.specs.Prelude.{◌+◌, ◌*◌, ◌/◌, ◌<◌, ◌≤◌, length};
ghost use Rattle.word_tables.specs.Bounds.{IsValid};
ghost use Rattle.nvm_model.specs.Blocks.{IsMixed, write};
ghost use Rattle.block_device.specs.Object.{HasGoodMetadata};
ghost use Rattle.block_device.specs.Refusals.{write_refusal};
ghost use Rattle.block_device.specs.Calls.{AreReady, ChangesBlocks, WorksOnBlocks};

use crate::checks::{check_bytes, check_meta};
use crate::{BlockFault, Blocks};
use line_device::Lines;
use line_words::Interruption;
use nvm_base::{BLOCK, Span};

impl Blocks {
    /// Writes whole blocks, one after the other: wherever the power goes, each has its old bytes or its new ones.
    #[tactic(auto, using(crate::proofs::PassedLemmas::meta_passed))]
    pub fn write<L: Lines>(
        &mut self,
        dev: &mut L,
        block: u64,
        bytes: &[u8],
    ) -> Result<(), BlockFault>
        requires ready { AreReady self.old (L.state dev.old) }
        ensures changes { ChangesBlocks L.state self.old self.new dev.old dev.new result
            (write_refusal self.old (L.state dev.old).medium block (length bytes.now))
            (write block bytes.now) IsMixed (35 * (length bytes.now / 512)) (13 * (length bytes.now / 512)) }
    {
        check_bytes(self.geo.blocks, block, bytes.len() as u64)?;
        check_meta(dev, self.geo)?;
        self.write_blocks(dev, block, bytes)?;
        Ok(())
    }

    // Writes blocks that are there.
    fn write_blocks<L: Lines>(
        &mut self,
        dev: &mut L,
        block: u64,
        bytes: &[u8],
    ) -> Result<(), Interruption>
        requires ready { AreReady self.old (L.state dev.old) }
        requires good { HasGoodMetadata self.old.geo (L.state dev.old).medium }
        requires valid { IsValid self.old.geo }
        requires some { 0 < length bytes.now / 512 }
        requires within { block + length bytes.now / 512 ≤ self.old.geo.blocks }
        ensures works { WorksOnBlocks L.state self.old self.new dev.old dev.new result
            (write block bytes.now) IsMixed
            (35 * (length bytes.now / 512)) (13 * (length bytes.now / 512)) }
    {
        let size = BLOCK as usize;
        for k in 0..bytes.len() / size {
            let range = Span {
                start: block + k as u64,
                len: BLOCK,
            };
            self.write_apart(dev, &[range], &bytes[size * k..size * k + size])?;
        }
        Ok(())
    }
}
