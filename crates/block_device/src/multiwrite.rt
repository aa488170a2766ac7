// Several ranges of blocks that are written together, all of them or none.
ghost use Rattle.std.specs.Prelude.{◌≡◌, ◌+◌, ◌*◌, ◌/◌, ◌<◌, [], false, length, sum_by};
ghost use Rattle.nvm_base.specs.declared.units.Span.{Span as Stretch};
ghost use Rattle.nvm_model.specs.Blocks.{write_ranges};
ghost use Rattle.block_device.specs.Object.{HasGoodMetadata};
ghost use Rattle.block_device.specs.Refusals.{block_spans, multiwrite_refusal};
ghost use Rattle.block_device.specs.Images.{IsEither};
ghost use Rattle.block_device.specs.Prepared.{AreApart, numbers_in};
ghost use Rattle.block_device.specs.Calls.{AreReady, ChangesBlocks, WorksOnBlocks, MayPrepare, PreparesBlocks};

use crate::checks::{check_meta, check_ranges};
use crate::preparing::Changes;
use crate::{BlockFault, Blocks};
use line_device::Lines;
use line_words::Interruption;
use nvm_base::Span;

impl Blocks {
    /// Writes ranges of whole blocks together: wherever the power goes, all have their old bytes or all their new ones. A
    /// range has its first block and its length in bytes, and the bytes of the ranges follow each other.
    #[tactic(auto, using(crate::proofs::PassedLemmas::meta_passed))]
    pub fn atomic_multiwrite<L: Lines>(
        &mut self,
        dev: &mut L,
        ranges: &[Span],
        bytes: &[u8],
    ) -> Result<(), BlockFault>
        requires ready { AreReady self.old (L.state dev.old) }
        requires some { 0 < length ranges.now }
        requires bytes { length bytes.now ≡ sum_by (λ (r : Stretch). r.len) ranges.now }
        ensures changes { ChangesBlocks L.state self.old self.new dev.old dev.new result
            (multiwrite_refusal self.old (L.state dev.old).medium ranges.now)
            (write_ranges ranges.now bytes.now) IsEither (29 * (length bytes.now / 512) + 6) (10 * (length bytes.now / 512) + 3) }
    {
        check_ranges(self.geo.blocks, ranges)?;
        check_meta(dev, self.geo)?;
        self.write_apart(dev, ranges, bytes)?;
        Ok(())
    }

    // Writes ranges that are apart, all of them or none.
    pub(crate) fn write_apart<L: Lines>(
        &mut self,
        dev: &mut L,
        ranges: &[Span],
        bytes: &[u8],
    ) -> Result<(), Interruption>
        requires ready { AreReady self.old (L.state dev.old) }
        requires good { HasGoodMetadata self.old.geo (L.state dev.old).medium }
        requires some { 0 < length ranges.now }
        requires bytes { length bytes.now ≡ sum_by (λ (r : Stretch). r.len) ranges.now }
        requires apart { AreApart self.old.geo.blocks ranges.now }
        ensures works { WorksOnBlocks L.state self.old self.new dev.old dev.new result
            (write_ranges ranges.now bytes.now) IsEither
            (29 * (length bytes.now / 512) + 6) (10 * (length bytes.now / 512) + 3) }
    {
        self.settled = false;
        let mut changes = Changes::new();
        self.prepare_ranges(dev, &mut changes, ranges, bytes)?;
        self.switch(dev, changes.as_slice())
    }

    // Writes ranges to fresh units, and collects the changes that put them there.
    fn prepare_ranges<L: Lines>(
        &mut self,
        dev: &mut L,
        changes: &mut Changes,
        ranges: &[Span],
        bytes: &[u8],
    ) -> Result<(), Interruption>
        requires may { MayPrepare self.old (L.state dev.old) changes.old.items }
        requires none { changes.old.items ≡ [] }
        requires bytes { length bytes.now ≡ sum_by (λ (r : Stretch). r.len) ranges.now }
        requires apart { AreApart self.old.geo.blocks ranges.now }
        ensures prepares { PreparesBlocks L.state self.old self.new dev.old dev.new result changes.old.items changes.new.items
            (numbers_in (block_spans ranges.now))
            (write_ranges ranges.now bytes.now) (24 * (length bytes.now / 512)) (8 * (length bytes.now / 512)) }
    {
        let mut at = 0;
        for range in ranges {
            let end = at + range.len as usize;
            self.prepare_blocks(dev, changes, range.start, &bytes[at..end])?;
            at = end;
        }
        Ok(())
    }
}
