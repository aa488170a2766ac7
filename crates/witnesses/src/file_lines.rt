// What a cut keeps of lines of one file: as it is, as a command makes it, and as the cut leaves it.
ghost use Rattle.std.specs.Prelude.{◌≡◌, ◌++◌, ◌<◌, ◌≤◌, ◌^◌, OnOk, flat_map};
ghost use Rattle.std.specs.List.{range_with_len};
ghost use Rattle.std.specs.Option.{option_copied};
ghost use Rattle.nvm_base.specs.Units.{units_of};
ghost use Rattle.cut_places.specs.AskedReads.Reads.{file_reads_asked};
ghost use Rattle.witnesses.specs.Files.{line_kept_in, line_kept_of, line_there};

use crate::asked::Asked;
use crate::file_kept::FileLineKept;
use crate::words::{free_words, line_left};
use cut_places::FileSeen;
use cut_places::reads_asked::FileRead;
use line_histories::HeldLine;
use nvm_base::{Name, PAGE_LINES, Span, lines_of};
use std::alloc::AllocError;

/// Adds those that the span touches and that exist.
pub fn keep_lines(
    reads: &[FileRead],
    name: &Name,
    span: Span,
    now: Option<&FileSeen>,
    made: Option<&FileSeen>,
    left: Option<&FileSeen>,
    kept: &mut Vec<FileLineKept>,
) -> Result<(), AllocError>
    requires some { 1 ≤ span.len }
    requires few { span.len ≤ 65536 }
    requires within { span.start < 2 ^ 32 }
    ensures { OnOk result (kept.new.items ≡ kept.old.items
        ++ flat_map (λ n. line_kept_in (file_reads_asked reads.now) name.now n (option_copied now.entry) (option_copied made.entry) (line_there n (option_copied left.entry)))
        (range_with_len (units_of 64 span).start (units_of 64 span).len)) }
{
    let lines = lines_of(span);
    for k in 0..lines.len {
        let number = (lines.start + k) as u32;
        keep_if_there(reads, name, number, now, made, there(left, number), kept)?;
    }
    Ok(())
}

fn keep_if_there(
    reads: &[FileRead],
    name: &Name,
    number: u32,
    now: Option<&FileSeen>,
    made: Option<&FileSeen>,
    left: Option<&HeldLine>,
    kept: &mut Vec<FileLineKept>,
) -> Result<(), AllocError>
    ensures { OnOk result (kept.new.items ≡ kept.old.items
        ++ line_kept_in (file_reads_asked reads.now) name.now number (option_copied now.entry) (option_copied made.entry) (option_copied left.entry)) }
{
    if let Some(line) = left {
        kept.push(keep_line(reads, name, number, now, made, line))?;
    }
    Ok(())
}

fn keep_line(
    reads: &[FileRead],
    name: &Name,
    number: u32,
    now: Option<&FileSeen>,
    made: Option<&FileSeen>,
    line: &HeldLine,
) -> FileLineKept
    ensures { result ≡ line_kept_of (file_reads_asked reads.now) name.now number (option_copied now.entry) (option_copied made.entry) line.now }
{
    let left = line_left(&Asked::OfFile(reads, name), u64::from(number), line);
    FileLineKept {
        name: *name,
        number,
        left,
        free: free_words(there(now, number), there(made, number), &left),
    }
}

// The line of that number, if there is one.
fn there(file: Option<&FileSeen>, number: u32) -> Option<&HeldLine>
    ensures { option_copied result ≡ line_there number (option_copied file.entry) }
{
    let file = file?;
    if u64::from(number) / PAGE_LINES >= u64::from(file.pages()) {
        return None;
    }
    file.line(number)
}
