// How far the parts of a look have come among what is looked at.
ghost use Rattle.std.specs.Prelude.{◌≡◌, ◌+◌, ◌<◌, ◌^◌, length};
ghost use Rattle.word_tables.specs.declared.geometry.Geometry.{Geometry};
ghost use Rattle.explorer.specs.CutPlaces.declared.sight.Sight.{Sight};
ghost use Rattle.explorer.specs.ValueTables.Looking.{blocks_touched, lines_touched};
ghost use Rattle.outcome_lists.specs.Courses.{IsAt};
ghost use Rattle.outcome_lists.specs.Parts.{IsPart};

use explorer::reads_asked::Read;

/// How many lines and blocks come before a part.
#[derive(Drop)]
pub struct Passed {
    pub lines: usize,
    pub blocks: usize,
}

impl Passed {
    pub fn none() -> Self
        ensures lines { result.lines ≡ 0 }
        ensures blocks { result.blocks ≡ 0 }
    {
        Passed {
            lines: 0,
            blocks: 0,
        }
    }

    /// One part more: it has one line or one block, or is of a file.
    pub fn pass(&mut self, part: &Read)
        requires part { (geo : Geometry) × IsPart geo part.now }
        requires at { (sight : Sight) × IsAt sight part.now self.old.lines self.old.blocks × (length sight.lines.items < 2 ^ 63) × (length sight.blocks.items < 2 ^ 63) }
        ensures lines { self.new.lines ≡ self.old.lines + length (lines_touched part.now) }
        ensures blocks { self.new.blocks ≡ self.old.blocks + length (blocks_touched part.now) }
    {
        match part {
            Read::Volume { .. } => self.lines += 1,
            Read::Blocks { .. } => self.blocks += 1,
            Read::File { .. } => {}
        }
    }
}
