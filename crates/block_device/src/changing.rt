// Discards and scars: blocks that change without bytes.
ghost use Rattle.std.specs.Prelude.{◌≡◌, ◌+◌, ◌*◌, ◌<◌, ◌≤◌, ◌++◌, All, [], ◌∷◌, false, length, sum_by};
ghost use Rattle.arrayvec.specs.ArrayVec.{array_vec_len};
ghost use Rattle.nvm_base.specs.declared.units.Span.{Span as Stretch};
ghost use Rattle.word_log.specs.Changes.{commit_calls, commit_persists};
ghost use Rattle.nvm_model.specs.Storage.Block.{Absent, Scarred};
ghost use Rattle.nvm_model.specs.Blocks.{IsMixed, change};
ghost use Rattle.block_device.specs.Object.{HasGoodMetadata, is_at};
ghost use Rattle.block_device.specs.Changes.{bare_block, changes_in};
ghost use Rattle.block_device.specs.Refusals.{change_refusal, hint_refusal};
ghost use Rattle.block_device.specs.Images.{IsEither};
ghost use Rattle.block_device.specs.Prepared.{AreTogether};
ghost use Rattle.block_device.specs.Calls.{AreReady, ChangesBlocks, WorksOnBlocks};

use crate::change::Change;
use crate::checks::{check_meta, check_spans, check_together};
use crate::preparing::Changes;
use crate::{BlockFault, Blocks};
use block_map::BlockState;
use line_device::Lines;
use line_words::Interruption;
use nvm_base::Span;

impl Blocks {
    /// Makes blocks absent, all of them or none.
    pub fn discard_now<L: Lines>(&mut self, dev: &mut L, blocks: Span) -> Result<(), BlockFault>
        requires ready { AreReady self.old (L.state dev.old) }
        ensures changes { ChangesBlocks L.state self.old self.new dev.old dev.new result
            (change_refusal self.old (L.state dev.old).medium (blocks ∷ []))
            (change (blocks ∷ []) Absent) IsEither (commit_calls 64) (commit_persists 64) }
    {
        self.change_together(dev, &[blocks], BlockState::Absent)
    }

    /// Makes the blocks of spans unreadable, all of them or none.
    pub fn scar<L: Lines>(&mut self, dev: &mut L, spans: &[Span]) -> Result<(), BlockFault>
        requires ready { AreReady self.old (L.state dev.old) }
        requires some { 0 < length spans.now }
        ensures changes { ChangesBlocks L.state self.old self.new dev.old dev.new result
            (change_refusal self.old (L.state dev.old).medium spans.now)
            (change spans.now Scarred) IsEither (commit_calls 64) (commit_persists 64) }
    {
        self.change_together(dev, spans, BlockState::Scarred)
    }

    /// Makes blocks absent, one after the other: wherever the power goes, each is as it was or absent.
    #[tactic(auto, using(crate::proofs::PassedLemmas::meta_passed))]
    pub fn discard_hint<L: Lines>(&mut self, dev: &mut L, blocks: Span) -> Result<(), BlockFault>
        requires ready { AreReady self.old (L.state dev.old) }
        ensures changes { ChangesBlocks L.state self.old self.new dev.old dev.new result
            (hint_refusal self.old (L.state dev.old).medium blocks)
            (change (blocks ∷ []) Absent) IsMixed (11 * blocks.len) (5 * blocks.len) }
    {
        check_spans(self.geo.blocks, &[blocks])?;
        check_meta(dev, self.geo)?;
        self.discard_each(dev, blocks)?;
        Ok(())
    }

    // Makes blocks that exist absent, one after the other.
    fn discard_each<L: Lines>(&mut self, dev: &mut L, blocks: Span) -> Result<(), Interruption>
        requires ready { AreReady self.old (L.state dev.old) }
        requires good { HasGoodMetadata self.old.geo (L.state dev.old).medium }
        requires within { blocks.start + blocks.len ≤ self.old.geo.blocks }
        ensures works { WorksOnBlocks L.state self.old self.new dev.old dev.new result
            (change (blocks ∷ []) Absent) IsMixed (11 * blocks.len) (5 * blocks.len) }
    {
        for block in blocks.start..blocks.start + blocks.len {
            let one = Span {
                start: block,
                len: 1,
            };
            self.change_apart(dev, &[one], BlockState::Absent)?;
        }
        Ok(())
    }

    // Gives the blocks of spans a state without bytes, all of them or none.
    #[tactic(auto, using(crate::proofs::PassedLemmas::meta_passed))]
    fn change_together<L: Lines>(
        &mut self,
        dev: &mut L,
        spans: &[Span],
        state: BlockState,
    ) -> Result<(), BlockFault>
        requires ready { AreReady self.old (L.state dev.old) }
        requires some { 0 < length spans.now }
        requires bare { is_at state ≡ false }
        ensures changes { ChangesBlocks L.state self.old self.new dev.old dev.new result
            (change_refusal self.old (L.state dev.old).medium spans.now)
            (change spans.now (bare_block state)) IsEither (commit_calls 64) (commit_persists 64) }
    {
        check_together(self.geo.blocks, spans)?;
        check_meta(dev, self.geo)?;
        self.change_apart(dev, spans, state)?;
        Ok(())
    }

    // Gives the blocks of spans that are apart a state without bytes, all of them or none.
    fn change_apart<L: Lines>(
        &mut self,
        dev: &mut L,
        spans: &[Span],
        state: BlockState,
    ) -> Result<(), Interruption>
        requires ready { AreReady self.old (L.state dev.old) }
        requires good { HasGoodMetadata self.old.geo (L.state dev.old).medium }
        requires some { 0 < length spans.now }
        requires together { AreTogether self.old.geo.blocks spans.now }
        requires bare { is_at state ≡ false }
        ensures works { WorksOnBlocks L.state self.old self.new dev.old dev.new result
            (change spans.now (bare_block state)) IsEither
            (commit_calls (sum_by (λ (s : Stretch). s.len) spans.now)) (commit_persists (sum_by (λ (s : Stretch). s.len) spans.now)) }
    {
        let _ = &self.geo;
        let changes = changes_of(spans, state);
        self.switch(dev, changes.as_slice())
    }
}

// The change of each block of the spans.
fn changes_of(spans: &[Span], state: BlockState) -> Changes
    requires few { sum_by (λ (s : Stretch). s.len) spans.now ≤ 64 }
    requires ends { All (λ (s : Stretch). s.start + s.len ≤ 4096) spans.now }
    ensures { result.items ≡ changes_in spans.now state }
{
    let mut changes = Changes::new();
    for span in spans {
        add_changes(&mut changes, *span, state);
    }
    changes
}

fn add_changes(changes: &mut Changes, span: Span, state: BlockState)
    requires room { array_vec_len changes.old + span.len ≤ 64 }
    requires end { span.start + span.len ≤ 4096 }
    ensures items { changes.new.items ≡ changes.old.items ++ changes_in (span ∷ []) state }
    ensures len { array_vec_len changes.new ≡ array_vec_len changes.old + span.len }
{
    for block in span.start..span.start + span.len {
        changes.push(Change { block, state });
    }
}
