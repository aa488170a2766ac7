// Blocks that follow each other, written together: one range of them.
ghost use Rattle.std.specs.Prelude.{◌+◌, ◌*◌, ◌/◌, length};
ghost use Rattle.nvm_model.specs.Blocks.{write};
ghost use Rattle.block_device.specs.Refusals.{atomic_refusal};
ghost use Rattle.block_device.specs.Images.{IsEither};
ghost use Rattle.block_device.specs.Calls.{AreReady, ChangesBlocks};

use crate::{BlockFault, Blocks};
use line_device::Lines;
use nvm_base::Span;

impl Blocks {
    /// Writes whole blocks together: wherever the power goes, all have their old bytes or all their new ones.
    pub fn atomic_write<L: Lines>(
        &mut self,
        dev: &mut L,
        block: u64,
        bytes: &[u8],
    ) -> Result<(), BlockFault>
        requires ready { AreReady self.old (L.state dev.old) }
        ensures changes { ChangesBlocks L.state self.old self.new dev.old dev.new result
            (atomic_refusal self.old (L.state dev.old).medium block (length bytes.now))
            (write block bytes.now) IsEither (29 * (length bytes.now / 512) + 6) (10 * (length bytes.now / 512) + 3) }
    {
        let range = Span {
            start: block,
            len: bytes.len() as u64,
        };
        self.atomic_multiwrite(dev, &[range], bytes)
    }
}
