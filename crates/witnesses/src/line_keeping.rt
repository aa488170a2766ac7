// What a cut keeps of lines of the volume.
ghost use Rattle.std.specs.Prelude.{◌≡◌, IfOk, map, option_map, if◌then◌else◌};
ghost use Rattle.std.specs.Option.{option_copied};
ghost use Rattle.word_tables.specs.Bounds.{IsValid};
ghost use Rattle.script_text.specs.Action.{action_of};
ghost use Rattle.cut_places.specs.AskedReads.Asking.{volume_asked};
ghost use Rattle.cut_places.specs.AskedReads.Program.{IsBounded};
ghost use Rattle.witnesses.specs.Lines.{kept_line, line_kept, line_made};

use crate::asked::Asked;
use crate::line_kept::LineKept;
use crate::staying::{make, mixing, stays, way_of_lines};
use crate::words::{free_words, line_left};
use cut_places::reads_asked::Question;
use cut_places::sights_seen::LineSeen;
use script_text::Command;
use std::alloc::{AllocError, Global};
use word_tables::Geometry;

/// Keeps of each line what may be left.
pub fn keep_lines(
    alloc: Global,
    question: &Question,
    lines: &[LineSeen],
    geometry: Geometry,
    inside: Option<&Command>,
) -> Result<Vec<LineKept>, AllocError>
    requires valid { IsValid geometry }
    requires bounded { IsBounded (option_copied inside) }
    ensures { IfOk result (λ kept. kept.items
        ≡ map (line_kept geometry (option_map action_of (option_copied inside.entry)) (volume_asked question.now) lines.now) lines.now) }
{
    let way = way_of_lines(inside);
    let mixed = mixing(way, inside);
    let mut kept = Vec::new(alloc);
    for seen in lines {
        let stays = stays(lines, question, way, seen);
        kept.push(keep_line(question, geometry, mixed, stays, seen)?)?;
    }
    Ok(kept)
}

fn keep_line(
    question: &Question,
    geometry: Geometry,
    inside: Option<&Command>,
    stays: bool,
    seen: &LineSeen,
) -> Result<LineKept, AllocError>
    requires valid { IsValid geometry }
    requires bounded { IsBounded (option_copied inside) }
    ensures { IfOk result (λ kept. let made = line_made geometry (option_map action_of (option_copied inside.entry)) seen.now in
        kept ≡ kept_line (volume_asked question.now) seen.now made (if stays then seen.now else made)) }
{
    let made = make(seen, geometry, inside)?;
    let line = if stays { &seen.line } else { &made.line };
    let left = line_left(&Asked::OfVolume(&question.volume), seen.number, line);
    Ok(LineKept {
        number: seen.number,
        left,
        free: free_words(Some(&seen.line), Some(&made.line), &left),
    })
}
