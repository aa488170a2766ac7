// The rows of a look, as text.
ghost use Rattle.std.specs.Prelude.{◌≡◌, ◌+◌, ◌<◌, ◌^◌, ◌++◌, true, IfOk, OnOk, length, map};
ghost use Rattle.std.specs.List.{list_all};
ghost use Rattle.std.specs.Option.{option_copied};
ghost use Rattle.word_tables.specs.Bounds.{IsValid};
ghost use Rattle.cut_places.specs.SeesFiles.{is_held};
ghost use Rattle.cut_places.specs.SightsSeen.Units.{block_numbers, line_numbers};
ghost use Rattle.value_tables.specs.Left.{Found};
ghost use Rattle.value_tables.specs.Looking.{blocks_looked_at, blocks_touched, file_lines_looked_at, file_lines_touched, lines_looked_at, lines_touched, none_refused};
ghost use Rattle.value_tables.specs.Rows.{read_refusal, row_text, rows_of_read, rows_text};
ghost use Rattle.value_tables.specs.Sides.{AreBlocksLeft, AreFilesLeft, AreLeft, HasRun, texts};

use crate::keeping::keep;
use crate::refusal::read_refusal;
use crate::row::refused_row;
use crate::sides::Sides;
use crate::touched::{Passed, add_touched};
use cut_places::reads_asked::Read;
use nvm_base::Bytes;
use std::alloc::{AllocError, Global};
use word_tables::Geometry;

/// All rows of a look, in order.
pub fn rows_of(
    alloc: Global,
    geometry: Geometry,
    reads: &[Read],
    sides: &Sides,
) -> Result<Vec<Bytes>, AllocError>
    requires valid { IsValid geometry }
    requires lines_fit { length sides.now.lines.now < 2 ^ 63 }
    requires blocks_fit { length sides.now.blocks.now < 2 ^ 63 }
    requires lines { line_numbers sides.now.lines.now ≡ lines_looked_at geometry reads.now }
    requires blocks { block_numbers sides.now.blocks.now ≡ blocks_looked_at geometry reads.now }
    requires files { list_all (is_held sides.now.files.now.numbers) (file_lines_looked_at geometry reads.now) ≡ true }
    ensures { (may : Found) → AreLeft may.lines sides.now.lines.now sides.now.new_lines.now
        → AreBlocksLeft may.blocks sides.now.blocks.now sides.now.new_blocks.now
        → AreFilesLeft may.files sides.now.files.now (option_copied sides.now.new_files)
        → IfOk result (λ rows. texts rows.items ≡ rows_text may 1 geometry reads.now) }
{
    let mut rows = Vec::new(alloc);
    let mut passed = Passed {
        lines: 0,
        blocks: 0,
    };
    for (i, read) in reads.iter().enumerate() {
        add_rows(
            alloc,
            geometry,
            i as u64 + 1,
            *read,
            sides,
            &mut passed,
            &mut rows,
        )?;
    }
    Ok(rows)
}

// Those of one read, which has that number.
fn add_rows(
    alloc: Global,
    geometry: Geometry,
    k: u64,
    read: Read,
    sides: &Sides,
    passed: &mut Passed,
    rows: &mut Vec<Bytes>,
) -> Result<(), AllocError>
    requires valid { IsValid geometry }
    requires lines_fit { length sides.now.lines.now < 2 ^ 63 }
    requires blocks_fit { length sides.now.blocks.now < 2 ^ 63 }
    requires lines { HasRun (line_numbers sides.now.lines.now) passed.old.lines (none_refused (read_refusal geometry read) (lines_touched read)) }
    requires blocks { HasRun (block_numbers sides.now.blocks.now) passed.old.blocks (none_refused (read_refusal geometry read) (blocks_touched read)) }
    requires files { list_all (is_held sides.now.files.now.numbers) (none_refused (read_refusal geometry read) (file_lines_touched read)) ≡ true }
    ensures text { (may : Found) → AreLeft may.lines sides.now.lines.now sides.now.new_lines.now
        → AreBlocksLeft may.blocks sides.now.blocks.now sides.now.new_blocks.now
        → AreFilesLeft may.files sides.now.files.now (option_copied sides.now.new_files)
        → OnOk result (texts rows.new.items ≡ texts rows.old.items ++ map (row_text may k) (rows_of_read geometry read)) }
    ensures lines { OnOk result (passed.new.lines ≡ passed.old.lines + length (none_refused (read_refusal geometry read) (lines_touched read))) }
    ensures blocks { OnOk result (passed.new.blocks ≡ passed.old.blocks + length (none_refused (read_refusal geometry read) (blocks_touched read))) }
{
    match read_refusal(geometry, &read) {
        Some(why) => {
            let row = refused_row(alloc, k, why)?;
            keep(rows, row)
        }
        None => add_touched(alloc, geometry, k, read, sides, passed, rows),
    }
}
