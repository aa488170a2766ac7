// What a cut keeps of blocks.
ghost use Rattle.std.specs.Prelude.{◌≡◌, IfOk, map, option_map, if◌then◌else◌};
ghost use Rattle.std.specs.Option.{option_copied};
ghost use Rattle.word_tables.specs.Bounds.{IsValid};
ghost use Rattle.script_text.specs.Action.{action_of};
ghost use Rattle.cut_places.specs.AskedReads.Asking.{blocks_of};
ghost use Rattle.cut_places.specs.AskedReads.Program.{IsBounded};
ghost use Rattle.witnesses.specs.Blocks.{block_kept, block_made, kept_block};

use crate::block_kept::BlockKept;
use crate::staying::{make, mixing, stays, way_of_blocks};
use cut_places::reads_asked::Question;
use cut_places::sights_seen::{BlockSeen, same_block};
use script_text::Command;
use std::alloc::{AllocError, Global};
use word_tables::Geometry;

/// Keeps of each block what may be left.
pub fn keep_blocks(
    alloc: Global,
    question: &Question,
    units: &[BlockSeen],
    geometry: Geometry,
    inside: Option<&Command>,
) -> Result<Vec<BlockKept>, AllocError>
    requires valid { IsValid geometry }
    requires bounded { IsBounded (option_copied inside) }
    ensures { IfOk result (λ kept. kept.items
        ≡ map (block_kept geometry (option_map action_of (option_copied inside.entry)) (blocks_of question.now) units.now) units.now) }
{
    let way = way_of_blocks(inside);
    let mixed = mixing(way, inside);
    let mut kept = Vec::new(alloc);
    for seen in units {
        let stays = stays(units, question, way, seen);
        kept.push(keep_block(geometry, mixed, stays, seen)?)?;
    }
    Ok(kept)
}

fn keep_block(
    geometry: Geometry,
    inside: Option<&Command>,
    stays: bool,
    seen: &BlockSeen,
) -> Result<BlockKept, AllocError>
    requires valid { IsValid geometry }
    requires bounded { IsBounded (option_copied inside) }
    ensures { IfOk result (λ kept. let made = block_made geometry (option_map action_of (option_copied inside.entry)) seen.now in
        kept ≡ kept_block seen.now made (if stays then seen.now else made)) }
{
    let made = make(seen, geometry, inside)?;
    let block = if stays { &seen.block } else { &made.block };
    Ok(BlockKept {
        number: seen.number,
        block: block.duplicate()?,
        free: !same_block(&seen.block, &made.block),
    })
}
