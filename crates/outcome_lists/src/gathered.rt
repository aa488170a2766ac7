// What a part of a look ever is.
ghost use Rattle.std.specs.Prelude.{◌≡◌, ◌++◌, [], ◌∷◌, OnOk, None};
ghost use Rattle.word_tables.specs.declared.geometry.Geometry.{Geometry};
ghost use Rattle.explorer.specs.MachineModel.Machine.{Machine};
ghost use Rattle.explorer.specs.CutPlaces.Following.{Follows};
ghost use Rattle.explorer.specs.ValueTables.Looking.{IsOf};
ghost use Rattle.explorer.specs.ValueTables.Rows.{read_refusal};
ghost use Rattle.explorer.specs.ValueTables.Values.{with_one};
ghost use Rattle.explorer.specs.SightsSeen.BlockTelling.{same_sight};
ghost use Rattle.outcome_lists.specs.Choices.{sights_through, values_through};

use block_sights::HeldBlock;
use explorer::places::Sight;
use explorer::reads_asked::Read;
use explorer::sights_seen::same_block;
use explorer::tables::{FileValues, WORDS};
use nvm_base::WORD;
use std::alloc::{AllocError, Global};

/// The values of its word, or what is seen of its block, each once, in the order in which they come.
#[derive(Drop)]
pub struct Gathered {
    pub word: FileValues,
    pub blocks: Vec<HeldBlock>,
}

impl Gathered {
    pub fn none(alloc: Global) -> Self
        ensures values { result.word.word.values.items ≡ [] }
        ensures blocks { result.blocks.items ≡ [] }
    {
        Gathered {
            word: FileValues::none(alloc),
            blocks: Vec::new(alloc),
        }
    }

    /// Adds what it is now. The first line or block that is looked at is its own.
    pub fn add(&mut self, part: &Read, sight: &Sight) -> Result<(), AllocError>
        ensures values { (geo : Geometry) (h : Machine) → Follows sight.now geo h → read_refusal geo part.now ≡ None → IsOf sight.now geo (part.now ∷ [])
            → OnOk result (self.new.word.word.values.items ≡ values_through part.now self.old.word.word.values.items (h ∷ [])) }
        ensures blocks { (geo : Geometry) (h : Machine) → Follows sight.now geo h → read_refusal geo part.now ≡ None → IsOf sight.now geo (part.now ∷ [])
            → OnOk result (self.new.blocks.items ≡ sights_through part.now self.old.blocks.items (h ∷ [])) }
    {
        match part {
            Read::Volume { start, .. } => match sight.lines.first() {
                Some(seen) => self.word.word.add(&seen.line, *start / WORD % WORDS),
                None => Ok(()),
            },
            Read::Blocks { .. } => match sight.blocks.first() {
                Some(seen) => self.add_block(&seen.block),
                None => Ok(()),
            },
            Read::File { name, start, .. } => {
                self.word.add(&sight.files, name, u64::from(*start) / WORD)
            }
        }
    }

    // Unless one that is seen so is there.
    fn add_block(&mut self, block: &HeldBlock) -> Result<(), AllocError>
        ensures word { OnOk result (self.new.word ≡ self.old.word) }
        ensures blocks { OnOk result (self.new.blocks.items ≡ with_one same_sight self.old.blocks.items block.now) }
    {
        if !self.blocks.iter().any(|other| same_block(block, other)) {
            self.blocks.push(block.duplicate()?)?;
        }
        Ok(())
    }
}
