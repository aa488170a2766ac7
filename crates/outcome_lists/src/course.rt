// A program that was performed, with what is looked at as it was before.
ghost use Rattle.std.specs.Prelude.{◌≡◌, ◌∷◌, [], IfOk};
ghost use Rattle.explorer.specs.MachineModel.Machine.{Machine};
ghost use Rattle.explorer.specs.CutPlaces.Following.{Follows};
ghost use Rattle.explorer.specs.ValueTables.Looking.{IsOf};
ghost use Rattle.outcome_lists.specs.Courses.{IsAt};
ghost use Rattle.outcome_lists.specs.Parts.{IsPart};

use crate::passed::Passed;
use explorer::places::{FilesSeen, Sight};
use explorer::reads_asked::Read;
use explorer::sights_seen::{BlockSeen, LineSeen};
use explorer::tables::copied;
use script_text::Command;
use std::alloc::{AllocError, Global};
use word_tables::Geometry;

#[derive(Clone, Copy)]
pub struct Course<'a> {
    pub program: &'a [Option<Command>],
    /// Which lines of it are done.
    pub done: &'a [bool],
    pub geometry: Geometry,
    /// Of each part of a look its line, block or file, in order.
    pub sight: &'a Sight,
}

impl Course<'_> {
    /// Sight of one part.
    pub fn sight_of_part(
        &self,
        alloc: Global,
        part: &Read,
        passed: &Passed,
    ) -> Result<Sight, AllocError>
        requires part { IsPart self.now.geometry part.now }
        requires at { IsAt self.now.sight.now part.now passed.now.lines passed.now.blocks }
        ensures looks { IfOk result (λ sight. IsOf sight self.now.geometry (part.now ∷ [])) }
        ensures files { IfOk result (λ sight. sight.files ≡ self.now.sight.now.files) }
        ensures follows { (h : Machine) → Follows self.now.sight.now self.now.geometry h → IfOk result (λ sight. Follows sight self.now.geometry h) }
    {
        let Sight {
            lines,
            blocks,
            files,
        } = self.sight;
        let (line, block) = (passed.lines, passed.blocks);
        match part {
            Read::Volume { .. } => sight_of(alloc, &lines[line..line + 1], &[], files),
            Read::Blocks { .. } => sight_of(alloc, &[], &blocks[block..block + 1], files),
            Read::File { .. } => sight_of(alloc, &[], &[], files),
        }
    }
}

/// Sight of these lines and blocks, and of all files.
pub fn sight_of(
    alloc: Global,
    lines: &[LineSeen],
    blocks: &[BlockSeen],
    files: &FilesSeen,
) -> Result<Sight, AllocError>
    ensures lines { IfOk result (λ sight. sight.lines.items ≡ lines.now) }
    ensures blocks { IfOk result (λ sight. sight.blocks.items ≡ blocks.now) }
    ensures files { IfOk result (λ sight. sight.files ≡ files.now) }
{
    Ok(Sight {
        lines: copied(alloc, lines)?,
        blocks: copied(alloc, blocks)?,
        files: files.duplicate()?,
    })
}
