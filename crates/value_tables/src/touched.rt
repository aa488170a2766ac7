// The rows of a read that is not refused.
ghost use Rattle.std.specs.Prelude.{◌≡◌, None, ◌+◌, ◌≤◌, ◌<◌, ◌^◌, ◌++◌, true, OnOk, length, map};
ghost use Rattle.std.specs.List.{list_all, range_with_len};
ghost use Rattle.std.specs.Option.{option_copied};
ghost use Rattle.nvm_base.specs.Units.{units_of};
ghost use Rattle.word_tables.specs.Bounds.{IsValid};
ghost use Rattle.cut_places.specs.SeesFiles.{is_held};
ghost use Rattle.cut_places.specs.SightsSeen.Units.{block_numbers, line_numbers};
ghost use Rattle.value_tables.specs.declared.shown.Shown.TheVariants.{Block, Word};
ghost use Rattle.value_tables.specs.Left.{Found};
ghost use Rattle.value_tables.specs.Looking.{blocks_touched, file_lines_touched, lines_touched};
ghost use Rattle.value_tables.specs.Rows.{read_refusal, row_text, touched};
ghost use Rattle.value_tables.specs.Sides.{AreBlocksLeft, AreFilesLeft, AreLeft, HasRun, texts};

use crate::file_words::add_file_words;
use crate::keeping::keep;
use crate::row::{WORDS, block_row, word_row};
use crate::sides::Sides;
use cut_places::reads_asked::Read;
use nvm_base::{Bytes, LINE, Span, WORD, lines_of};
use std::alloc::{AllocError, Global};
use word_tables::Geometry;

/// How many of the lines and blocks that are looked at have their rows.
#[derive(Drop)]
pub struct Passed {
    pub lines: u64,
    pub blocks: u64,
}

/// Adds them to those of the reads before it.
pub fn add_touched(
    alloc: Global,
    geometry: Geometry,
    k: u64,
    read: Read,
    sides: &Sides,
    passed: &mut Passed,
    rows: &mut Vec<Bytes>,
) -> Result<(), AllocError>
    requires valid { IsValid geometry }
    requires taken { read_refusal geometry read ≡ None }
    requires lines_fit { length sides.now.lines.now < 2 ^ 63 }
    requires blocks_fit { length sides.now.blocks.now < 2 ^ 63 }
    requires lines { HasRun (line_numbers sides.now.lines.now) passed.old.lines (lines_touched read) }
    requires blocks { HasRun (block_numbers sides.now.blocks.now) passed.old.blocks (blocks_touched read) }
    requires files { list_all (is_held sides.now.files.now.numbers) (file_lines_touched read) ≡ true }
    ensures text { (may : Found) → AreLeft may.lines sides.now.lines.now sides.now.new_lines.now
        → AreBlocksLeft may.blocks sides.now.blocks.now sides.now.new_blocks.now
        → AreFilesLeft may.files sides.now.files.now (option_copied sides.now.new_files)
        → OnOk result (texts rows.new.items ≡ texts rows.old.items ++ map (row_text may k) (touched read)) }
    ensures lines { OnOk result (passed.new.lines ≡ passed.old.lines + length (lines_touched read)) }
    ensures blocks { OnOk result (passed.new.blocks ≡ passed.old.blocks + length (blocks_touched read)) }
{
    match read {
        Read::Volume { start, len } => {
            let span = Span { start, len };
            let lines = lines_of(span);
            add_words(alloc, k, span, passed.lines, sides, rows)?;
            passed.lines += lines.len;
        }
        Read::Blocks { first, count } => {
            add_blocks(
                alloc,
                k,
                u64::from(first),
                count,
                passed.blocks,
                sides,
                rows,
            )?;
            passed.blocks += count;
        }
        Read::File { name, start, len } => {
            let start = u64::from(start);
            add_file_words(alloc, k, &name, Span { start, len }, sides, rows)?;
        }
    }
    Ok(())
}

// Those of the words that a span touches, of which the first line is at that place of those looked at.
fn add_words(
    alloc: Global,
    k: u64,
    span: Span,
    at: u64,
    sides: &Sides,
    rows: &mut Vec<Bytes>,
) -> Result<(), AllocError>
    requires some { 1 ≤ span.len }
    requires within { span.start + span.len ≤ 2 ^ 32 }
    requires lines_fit { length sides.now.lines.now < 2 ^ 63 }
    requires run { HasRun (line_numbers sides.now.lines.now) at (range_with_len (units_of 64 span).start (units_of 64 span).len) }
    ensures { (may : Found) → AreLeft may.lines sides.now.lines.now sides.now.new_lines.now
        → OnOk result (texts rows.new.items ≡ texts rows.old.items ++ map (row_text may k) (map Word (range_with_len (units_of 8 span).start (units_of 8 span).len))) }
{
    let first = span.start / LINE;
    for p in span.start / WORD..(span.start + span.len - 1) / WORD + 1 {
        let row = word_row(alloc, k, p, at + (p / WORDS - first), sides)?;
        keep(rows, row)?;
    }
    Ok(())
}

// Those of so many blocks, of which the first is at that place.
fn add_blocks(
    alloc: Global,
    k: u64,
    first: u64,
    count: u64,
    at: u64,
    sides: &Sides,
    rows: &mut Vec<Bytes>,
) -> Result<(), AllocError>
    requires within { first + count ≤ 2 ^ 32 }
    requires blocks_fit { length sides.now.blocks.now < 2 ^ 63 }
    requires run { HasRun (block_numbers sides.now.blocks.now) at (range_with_len first count) }
    ensures { (may : Found) → AreBlocksLeft may.blocks sides.now.blocks.now sides.now.new_blocks.now
        → OnOk result (texts rows.new.items ≡ texts rows.old.items ++ map (row_text may k) (map Block (range_with_len first count))) }
{
    for b in first..first + count {
        let row = block_row(alloc, k, b, at + (b - first), sides)?;
        keep(rows, row)?;
    }
    Ok(())
}
