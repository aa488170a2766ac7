// The lines of a file as a cut leaves them, where each is as it was or as a change makes it.
ghost use Rattle.std.specs.Prelude.{◌≡◌, OnOk, if◌then◌else◌, map};
ghost use Rattle.nvm_model.specs.Listing.{change_file, is_named};
ghost use Rattle.sights.specs.AskedReads.Reads.{file_reads_asked};
ghost use Rattle.cut_places.specs.FileChanges.{lines_of};
ghost use Rattle.cut_places.specs.FileLeaving.{line_left, lines_left};
ghost use Rattle.cut_places.specs.FilesState.{name_seen};

use crate::change::LinesChange;
use crate::file::FileSeen;
use crate::line::FileLine;
use crate::line_fits::line_fits;
use nvm_base::Name;
use sights::reads_asked::FileRead;
use std::alloc::{AllocError, Global};

/// Leaves the lines of the file of that name: each as it is where it fits the reads so.
pub(crate) fn leave_files(
    files: &mut Vec<FileSeen>,
    alloc: Global,
    reads: &[FileRead],
    name: &Name,
    lines: &LinesChange<'_>,
) -> Result<(), AllocError>
    ensures { OnOk result (files.new.items ≡ change_file name_seen name.now (lines_left (file_reads_asked reads.now) name.now (lines_of lines.now)) files.old.items) }
{
    for file in files.iter_mut() {
        leave_if(file, alloc, reads, name, lines)?;
    }
    Ok(())
}

fn leave_if(
    file: &mut FileSeen,
    alloc: Global,
    reads: &[FileRead],
    name: &Name,
    lines: &LinesChange<'_>,
) -> Result<(), AllocError>
    ensures { OnOk result (file.new ≡ (if is_named name_seen name.now file.old then lines_left (file_reads_asked reads.now) name.now (lines_of lines.now) file.old else file.old)) }
{
    if file.name == *name {
        leave_lines(&mut file.lines, alloc, file.pages, reads, name, lines)?;
    }
    Ok(())
}

fn leave_lines(
    lines: &mut Vec<FileLine>,
    alloc: Global,
    pages: u32,
    reads: &[FileRead],
    name: &Name,
    change: &LinesChange<'_>,
) -> Result<(), AllocError>
    ensures { OnOk result (lines.new.items ≡ map (line_left (file_reads_asked reads.now) name.now (lines_of change.now) pages) lines.old.items) }
{
    for line in lines.iter_mut() {
        leave_line(line, alloc, pages, reads, name, change)?;
    }
    Ok(())
}

fn leave_line(
    line: &mut FileLine,
    alloc: Global,
    pages: u32,
    reads: &[FileRead],
    name: &Name,
    change: &LinesChange<'_>,
) -> Result<(), AllocError>
    ensures { OnOk result (line.new ≡ line_left (file_reads_asked reads.now) name.now (lines_of change.now) pages line.old) }
{
    if !line_fits(reads, name, u64::from(line.number), &line.line) {
        line.change_within(alloc, pages, change)?;
    }
    Ok(())
}
