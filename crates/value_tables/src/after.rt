// What is looked at once a command is done.
ghost use Rattle.std.specs.Prelude.{◌≡◌, IfOk, map};
ghost use Rattle.script_text.specs.Action.{action_of};
ghost use Rattle.script_text.specs.Parsing.{InBounds};
ghost use Rattle.word_tables.specs.Bounds.{IsValid};
ghost use Rattle.cut_places.specs.Sights.{files_once_done};
ghost use Rattle.cut_places.specs.SightsSeen.Units.{block_once_done, line_once_done};

use crate::keeping::keep;
use cut_places::Sight;
use cut_places::sights_seen::Unit;
use script_text::Command;
use std::alloc::{AllocError, Global};
use word_tables::Geometry;

/// What the command makes of it, beside what it is.
pub fn once_done(
    alloc: Global,
    sight: &Sight,
    geometry: Geometry,
    command: &Command,
) -> Result<Sight, AllocError>
    requires valid { IsValid geometry }
    requires bounded { InBounds (action_of command.now) }
    ensures lines { IfOk result (λ after. after.lines.items ≡ map (line_once_done geometry (action_of command.now)) sight.now.lines.items) }
    ensures blocks { IfOk result (λ after. after.blocks.items ≡ map (block_once_done geometry (action_of command.now)) sight.now.blocks.items) }
    ensures files { IfOk result (λ after. after.files ≡ files_once_done (action_of command.now) sight.now.files) }
{
    let mut after = Sight {
        lines: copied(alloc, &sight.lines)?,
        blocks: copied(alloc, &sight.blocks)?,
        files: sight.files.duplicate()?,
    };
    after.change(geometry, command)?;
    Ok(after)
}

/// Copies of the units.
pub fn copied<U: Unit>(alloc: Global, units: &[U]) -> Result<Vec<U>, AllocError>
    ensures { IfOk result (λ copies. copies.items ≡ units.now) }
{
    let mut copies = Vec::new(alloc);
    for unit in units {
        let copy = unit.duplicate()?;
        keep(&mut copies, copy)?;
    }
    Ok(copies)
}
