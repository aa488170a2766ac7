// Switching blocks from state to state: one commit for all their words, and then the map and the units in memory.
ghost use Rattle.std.specs.Prelude.{◌≡◌, ◌<◌, ◌≤◌, IsTrue, false, length};
ghost use Rattle.word_tables.specs.Bounds.{IsValid};
ghost use Rattle.block_device.specs.Object.{BlocksServe, HasGoodMetadata, IsInStep};
ghost use Rattle.block_device.specs.Changes.{MayChange, AreTaken, AreWithin, changed_map, units_named, word_changes};
ghost use Rattle.block_device.specs.Prepared.{ArePrepared};
ghost use Rattle.block_device.specs.Calls.{SwitchesBlocks};

use crate::Blocks;
use crate::change::Change;
use arrayvec::ArrayVec;
use block_map::{BlockMap, BlockState};
use line_device::Lines;
use line_words::Interruption;
use word_tables::Geometry;

/// Words that change together: places and values.
type WordChanges = ArrayVec<(u64, u64), 64>;

impl Blocks {
    // Gives blocks their states, all of them or none.
    pub(crate) fn switch<L: Lines>(
        &mut self,
        dev: &mut L,
        changes: &[Change],
    ) -> Result<(), Interruption>
        requires serves { BlocksServe self.old (L.state dev.old).medium }
        requires quiet { IsTrue self.old.quiet }
        requires on { IsTrue (L.state dev.old).panel.power }
        requires good { HasGoodMetadata self.old.geo (L.state dev.old).medium }
        requires some { 0 < length changes.now }
        requires few { length changes.now ≤ 64 }
        requires prepared { ArePrepared self.old (L.state dev.old).medium changes.now }
        ensures switches { SwitchesBlocks L.state self.old self.new dev.old dev.new result changes.now }
    {
        self.settled = false;
        let words = word_changes(self.geo, changes);
        self.log.commit(dev, words.as_slice())?;
        self.assign(changes);
        self.settled = true;
        Ok(())
    }

    // Gives blocks their states in memory, and back the units that they leave.
    fn assign(&mut self, changes: &[Change])
        requires may { MayChange self.old.map changes.now }
        requires taken { AreTaken self.old.free changes.now }
        requires in_step { IsInStep self.old.map self.old.free (units_named changes.now) }
        requires unsettled { self.old.settled ≡ false }
        ensures map { self.new.map ≡ changed_map changes.now self.old.map }
        ensures in_step { IsInStep self.new.map self.new.free 0 }
        ensures others { (self.new.geo ≡ self.old.geo) × (self.new.quiet ≡ self.old.quiet) × (self.new.settled ≡ self.old.settled) }
    {
        for change in changes {
            let left = self.map.get(change.block);
            self.map.set(change.block, change.state);
            if let BlockState::At(unit) = left {
                self.pool.give(unit);
            }
        }
    }
}

// The words of changes, with their places.
fn word_changes(geo: Geometry, changes: &[Change]) -> WordChanges
    requires valid { IsValid geo }
    requires few { length changes.now ≤ 64 }
    requires may { AreWithin geo.blocks changes.now }
    ensures { result.items ≡ word_changes geo changes.now }
{
    let mut words = WordChanges::new();
    for change in changes {
        words.push((geo.block_word(change.block), BlockMap::word(change.state)));
    }
    words
}
