// What a cut keeps of all that is looked at, where it may leave what a question asks.
ghost use Rattle.std.specs.Prelude.{◌≡◌, ◌++◌, true, IfOk, List, filter, map, option_map};
ghost use Rattle.std.specs.Option.{option_copied};
ghost use Rattle.word_tables.specs.Bounds.{IsValid};
ghost use Rattle.script_text.specs.Action.{action_of};
ghost use Rattle.cut_places.specs.MachineModel.Machine.{Machine};
ghost use Rattle.cut_places.specs.Outcomes.Seen.{Seen, may_show};
ghost use Rattle.cut_places.specs.AskedReads.Asking.{IsLook, blocks_of, files_asked, may_be_replies, volume_asked};
ghost use Rattle.cut_places.specs.AskedReads.Program.{IsBounded};
ghost use Rattle.cut_places.specs.Following.{Follows};
ghost use Rattle.cut_places.specs.SeesFiles.{are_held};
ghost use Rattle.cut_places.specs.SightsSeen.Units.{block_numbers, line_numbers};
ghost use Rattle.witnesses.specs.Blocks.{block_kept, numbers_of_blocks};
ghost use Rattle.witnesses.specs.Files.{files_kept, places_of, places_read};
ghost use Rattle.witnesses.specs.Keeping.{LooksThere};
ghost use Rattle.witnesses.specs.Lines.{line_kept, numbers_of_lines};
ghost use Rattle.witnesses.specs.Places.{IsReached, state_at};
ghost use Rattle.witnesses.specs.Sizes.{has_line, names_of_sizes, names_read, sizes_kept};
ghost use Rattle.witnesses.specs.Telling.{told};

use crate::block_keeping::keep_blocks;
use crate::file_keeping::{FilesKept, keep_files};
use crate::kept::Kept;
use crate::line_keeping::keep_lines;
use cut_places::Sight;
use cut_places::reads_asked::Question;
use script_text::Command;
use std::alloc::{AllocError, Global};
use word_tables::Geometry;

/// How a cut may leave all that is looked at, where it leaves what the question asks: one that falls now, or inside a command. What is
/// kept of a line is the same wherever the line is looked at: it is determined by the question, the line and how the cut leaves lines.
pub fn keep(
    alloc: Global,
    question: &Question,
    looked: &Question,
    sight: &Sight,
    geometry: Geometry,
    inside: Option<&Command>,
) -> Result<Kept, AllocError>
    requires valid { IsValid geometry }
    requires bounded { IsBounded (option_copied inside) }
    requires replies { may_be_replies geometry looked.now ≡ true }
    ensures kept { (h : Machine) (look : List Seen) → Follows sight.now geometry h → IsLook look question.now
        → IsReached h (option_map action_of (option_copied inside.entry))
        → LooksThere geometry (option_map action_of (option_copied inside.entry)) question.now looked.now sight.now
        → may_show look (state_at h (option_map action_of (option_copied inside.entry))) ≡ true
        → IfOk result (λ kept. may_show (look ++ told kept) (state_at h (option_map action_of (option_copied inside.entry))) ≡ true) }
    ensures lines { IfOk result (λ kept. kept.lines.items
        ≡ map (line_kept geometry (option_map action_of (option_copied inside.entry)) (volume_asked question.now) sight.now.lines.items) sight.now.lines.items) }
    ensures blocks { IfOk result (λ kept. kept.blocks.items
        ≡ map (block_kept geometry (option_map action_of (option_copied inside.entry)) (blocks_of question.now) sight.now.blocks.items) sight.now.blocks.items) }
    ensures sizes { IfOk result (λ kept. kept.sizes.items
        ≡ sizes_kept (option_map action_of (option_copied inside.entry)) (files_asked question.now) (files_asked looked.now) sight.now.files) }
    ensures files { IfOk result (λ kept. kept.files.items
        ≡ files_kept (option_map action_of (option_copied inside.entry)) (files_asked question.now) (files_asked looked.now) sight.now.files) }
    ensures all_lines { IfOk result (λ kept. numbers_of_lines kept.lines.items ≡ line_numbers sight.now.lines.items) }
    ensures all_blocks { IfOk result (λ kept. numbers_of_blocks kept.blocks.items ≡ block_numbers sight.now.blocks.items) }
    ensures all_sizes { IfOk result (λ kept. names_of_sizes kept.sizes.items ≡ names_read (files_asked looked.now)) }
    ensures all_files { (h : Machine) → Follows sight.now geometry h → IsReached h (option_map action_of (option_copied inside.entry))
        → are_held sight.now.files.numbers (files_asked looked.now) ≡ true
        → IfOk result (λ kept. places_of kept.files.items ≡ filter (has_line kept.sizes.items) (places_read (files_asked looked.now))) }
{
    let lines = keep_lines(alloc, question, &sight.lines, geometry, inside)?;
    let blocks = keep_blocks(alloc, question, &sight.blocks, geometry, inside)?;
    let FilesKept {
        sizes,
        lines: files,
    } = keep_files(alloc, &question.files, &looked.files, &sight.files, inside)?;
    Ok(Kept {
        lines,
        blocks,
        sizes,
        files,
    })
}
