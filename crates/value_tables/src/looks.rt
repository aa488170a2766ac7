// The rows of a look where a cut falls.
ghost use Rattle.std.specs.Prelude.{◌≡◌, [], IfOk, None};
ghost use Rattle.std.specs.Option.{option_copied};
ghost use Rattle.script_text.specs.Action.{action_of};
ghost use Rattle.word_tables.specs.Bounds.{IsValid};
ghost use Rattle.cut_places.specs.FileChanges.{left_by};
ghost use Rattle.cut_places.specs.FileCommands.{files_change};
ghost use Rattle.cut_places.specs.SightsSeen.Ways.{blocks_way, lines_way};
ghost use Rattle.value_tables.specs.Left.{Found};
ghost use Rattle.value_tables.specs.Looking.{IsOf};
ghost use Rattle.value_tables.specs.Rows.{rows_text};
ghost use Rattle.value_tables.specs.Sides.{AreBlocksLeft, AreFilesLeft, AreLeft, texts, where_files_mixed, where_mixed};

use crate::rows::rows_of;
use crate::sides::Sides;
use cut_places::reads_asked::Read;
use cut_places::sights_seen::{BlockSeen, LineSeen, Way};
use cut_places::{FilesSeen, Sight};
use nvm_base::Bytes;
use script_text::Command;
use std::alloc::{AllocError, Global};
use word_tables::Geometry;

/// Rows before a command.
pub fn rows_before(
    alloc: Global,
    geometry: Geometry,
    reads: &[Read],
    sight: &Sight,
) -> Result<Vec<Bytes>, AllocError>
    requires valid { IsValid geometry }
    requires looks { IsOf sight.now geometry reads.now }
    ensures { (may : Found) → AreLeft may.lines sight.now.lines.items [] → AreBlocksLeft may.blocks sight.now.blocks.items []
        → AreFilesLeft may.files sight.now.files None → IfOk result (λ rows. texts rows.items ≡ rows_text may 1 geometry reads.now) }
{
    let sides = Sides {
        lines: &sight.lines,
        new_lines: &[],
        blocks: &sight.blocks,
        new_blocks: &[],
        files: &sight.files,
        new_files: None,
    };
    rows_of(alloc, geometry, reads, &sides)
}

/// Rows inside a command, which makes this of what is looked at.
pub fn rows_inside(
    alloc: Global,
    geometry: Geometry,
    reads: &[Read],
    sight: &Sight,
    after: &Sight,
    command: &Command,
) -> Result<Vec<Bytes>, AllocError>
    requires valid { IsValid geometry }
    requires looks { IsOf sight.now geometry reads.now }
    ensures { (may : Found)
        → AreLeft may.lines sight.now.lines.items (where_mixed (lines_way (action_of command.now)) after.now.lines.items)
        → AreBlocksLeft may.blocks sight.now.blocks.items (where_mixed (blocks_way (action_of command.now)) after.now.blocks.items)
        → AreFilesLeft may.files sight.now.files (where_files_mixed (left_by (files_change sight.now.files.mappings.mappings (action_of command.now))) after.now.files)
        → IfOk result (λ rows. texts rows.items ≡ rows_text may 1 geometry reads.now) }
{
    let sides = Sides {
        lines: &sight.lines,
        new_lines: mixed_lines(command, &after.lines),
        blocks: &sight.blocks,
        new_blocks: mixed_blocks(command, &after.blocks),
        files: &sight.files,
        new_files: mixed_files(command, &sight.files, &after.files),
    };
    rows_of(alloc, geometry, reads, &sides)
}

fn mixed_lines<'a>(command: &Command, new: &'a [LineSeen]) -> &'a [LineSeen]
    ensures { result.now ≡ where_mixed (lines_way (action_of command.now)) new.now }
{
    match Way::of_lines(command) {
        Some(_) => new,
        None => &[],
    }
}

fn mixed_blocks<'a>(command: &Command, new: &'a [BlockSeen]) -> &'a [BlockSeen]
    ensures { result.now ≡ where_mixed (blocks_way (action_of command.now)) new.now }
{
    match Way::of_blocks(command) {
        Some(_) => new,
        None => &[],
    }
}

fn mixed_files<'a>(command: &Command, now: &FilesSeen, new: &'a FilesSeen) -> Option<&'a FilesSeen>
    ensures { option_copied result ≡ where_files_mixed (left_by (files_change now.now.mappings.mappings (action_of command.now))) new.now }
{
    if now.way_inside(command).is_some() {
        Some(new)
    } else {
        None
    }
}
