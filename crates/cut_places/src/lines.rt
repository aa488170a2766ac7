// The lines of a file, one after the other.
ghost use Rattle.std.specs.Prelude.{◌≡◌, IfOk, OnOk, map};
ghost use Rattle.cut_places.specs.FileChanges.{lines_of};
ghost use Rattle.cut_places.specs.FilesState.{hole_at, line_of_after, line_within};

use crate::change::LinesChange;
use crate::line::FileLine;
use std::alloc::{AllocError, Global};

/// Lines of these numbers, of a file of holes.
pub(crate) fn holes(alloc: Global, numbers: &[u32]) -> Result<Vec<FileLine>, AllocError>
    ensures { IfOk result (λ lines. lines.items ≡ map hole_at numbers.now) }
{
    let mut lines = Vec::new(alloc);
    for number in numbers {
        lines.push(FileLine::hole(alloc, *number))?;
    }
    Ok(lines)
}

/// Copies of the lines.
pub(crate) fn copies(alloc: Global, lines: &[FileLine]) -> Result<Vec<FileLine>, AllocError>
    ensures { IfOk result (λ copies. copies.items ≡ lines.now) }
{
    let mut copies = Vec::new(alloc);
    for line in lines {
        copies.push(line.duplicate()?)?;
    }
    Ok(copies)
}

/// What they are where the file has its number of pages.
pub(crate) fn cut(lines: &mut Vec<FileLine>, pages: u32)
    ensures { lines.new.items ≡ map (line_within pages) lines.old.items }
{
    for line in lines.iter_mut() {
        line.cut(pages);
    }
}

/// What becomes of them, in a file of a number of pages.
pub(crate) fn change_all(
    lines: &mut Vec<FileLine>,
    alloc: Global,
    pages: u32,
    change: &LinesChange<'_>,
) -> Result<(), AllocError>
    ensures { OnOk result (lines.new.items ≡ map (line_of_after pages (lines_of change.now)) lines.old.items) }
{
    for line in lines.iter_mut() {
        line.change_within(alloc, pages, change)?;
    }
    Ok(())
}
