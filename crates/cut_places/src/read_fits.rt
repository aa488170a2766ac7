// Whether one read of a file may be answered as is asked.
ghost use Rattle.std.specs.Prelude.{◌≡◌, ◌<◌, ◌^◌, ◌||◌, IfOk, not};
ghost use Rattle.std.specs.List.{list_all};
ghost use Rattle.nvm_model.specs.Listing.{file_of};
ghost use Rattle.reply_text.specs.declared.reply.Why.TheVariants.{Missing};
ghost use Rattle.sights.specs.Outcomes.Files.{reads_of};
ghost use Rattle.sights.specs.Outcomes.Pages.{is_refused_for};
ghost use Rattle.sights.specs.AskedReads.Fitting.{cell_fits};
ghost use Rattle.cut_places.specs.declared.line.FileLine.{FileLine as LineHeld};
ghost use Rattle.sights.specs.AskedReads.Reads.{file_reads_asked, page_read, page_reply};
ghost use Rattle.cut_places.specs.FileChanges.{lines_of};
ghost use Rattle.cut_places.specs.FileFitting.{either_fits, looks_at, now_fits, read_passes, seen_pass};
ghost use Rattle.cut_places.specs.FilesState.{name_seen};

use crate::change::LinesChange;
use crate::file::FileSeen;
use crate::line::FileLine;
use crate::line_fits::line_fits;
use crate::listing::find;
use nvm_base::{Name, PAGE};
use reply_text::Why;
use sights::reads_asked::{FileRead, PageRead, PageReply};
use sights::{is_reply_of_bytes, touches};
use std::alloc::{AllocError, Global};

/// Its reply is one that a read of the file may have, and so are the lines that it looks at.
pub(crate) fn read_fits(files: &[FileSeen], reads: &[FileRead], read: &FileRead) -> bool
    ensures { result ≡ read_passes (now_fits (file_reads_asked reads.now) read.now.name) (page_read read.now.pages) (file_of name_seen read.now.name files.now) }
{
    match find(files, &read.name) {
        None => is_missing(&read.pages),
        Some(file) => {
            is_reply_of_bytes(&read.pages, PAGE * u64::from(file.pages))
                && lines_fit(&file.lines, reads, read)
        }
    }
}

/// Whether reads fit, where each line of the file of that name may have changed or not.
pub(crate) fn read_fits_either(
    alloc: Global,
    files: &[FileSeen],
    reads: &[FileRead],
    read: &FileRead,
    name: &Name,
    change: &LinesChange<'_>,
) -> Result<bool, AllocError>
    ensures { IfOk result (λ fits. fits ≡ read_passes (either_fits (file_reads_asked reads.now) name.now (lines_of change.now) read.now.name)
        (page_read read.now.pages) (file_of name_seen read.now.name files.now)) }
{
    match find(files, &read.name) {
        None => Ok(is_missing(&read.pages)),
        Some(file) => Ok(
            is_reply_of_bytes(&read.pages, PAGE * u64::from(file.pages))
                && lines_fit_either(alloc, file, reads, read, name, change)?,
        ),
    }
}

fn is_missing(read: &PageRead) -> bool
    ensures { result ≡ is_refused_for Missing (page_reply read.now.reply) }
{
    match &read.reply {
        PageReply::Shows(_) | PageReply::Poison(_) => false,
        PageReply::Refuses(why) => *why == Why::Missing,
    }
}

fn lines_fit(lines: &[FileLine], reads: &[FileRead], read: &FileRead) -> bool
    ensures { result ≡ list_all (λ (line : LineHeld). not (looks_at read.now.pages.start read.now.pages.len (page_reply read.now.pages.reply) line.number)
        || cell_fits (reads_of read.now.name (file_reads_asked reads.now)) line.number line.line) lines.now }
{
    lines.iter().all(|line| line_passes(line, reads, read))
}

fn line_passes(line: &FileLine, reads: &[FileRead], read: &FileRead) -> bool
    ensures { result ≡ (not (looks_at read.now.pages.start read.now.pages.len (page_reply read.now.pages.reply) line.now.number)
        || cell_fits (reads_of read.now.name (file_reads_asked reads.now)) line.now.number line.now.line) }
{
    let n = u64::from(line.number);
    !looks_at(&read.pages, n) || line_fits(reads, &read.name, n, &line.line)
}

fn lines_fit_either(
    alloc: Global,
    file: &FileSeen,
    reads: &[FileRead],
    read: &FileRead,
    name: &Name,
    change: &LinesChange<'_>,
) -> Result<bool, AllocError>
    ensures { IfOk result (λ fits. fits ≡ seen_pass (either_fits (file_reads_asked reads.now) name.now (lines_of change.now) read.now.name file.now.pages)
        (page_read read.now.pages) file.now.lines) }
{
    for line in &file.lines {
        if !line_passes_either(alloc, file.pages, reads, read, line, name, change)? {
            return Ok(false);
        }
    }
    Ok(true)
}

fn line_passes_either(
    alloc: Global,
    pages: u32,
    reads: &[FileRead],
    read: &FileRead,
    line: &FileLine,
    name: &Name,
    change: &LinesChange<'_>,
) -> Result<bool, AllocError>
    ensures { IfOk result (λ passes. passes ≡ (not (looks_at read.now.pages.start read.now.pages.len (page_reply read.now.pages.reply) line.now.number)
        || either_fits (file_reads_asked reads.now) name.now (lines_of change.now) read.now.name pages line.now)) }
{
    let n = u64::from(line.number);
    if !looks_at(&read.pages, n) || line_fits(reads, &read.name, n, &line.line) {
        return Ok(true);
    }
    if *name != read.name {
        return Ok(false);
    }
    let mut after = line.duplicate()?;
    after.change_within(alloc, pages, change)?;
    Ok(line_fits(reads, &read.name, n, &after.line))
}

// Whether the read looks at line n.
fn looks_at(read: &PageRead, n: u64) -> bool
    requires { n < 2 ^ 32 }
    ensures { result ≡ looks_at read.now.start read.now.len (page_reply read.now.reply) n }
{
    match &read.reply {
        PageReply::Shows(_) | PageReply::Poison(_) => touches(read.start, read.len, n),
        PageReply::Refuses(_) => false,
    }
}
