// Which lines of files are bad. None of this makes a counted call.
ghost use Rattle.std.specs.Prelude.{◌≡◌, ◌+◌, ◌*◌, ◌<◌, ◌≤◌, [], ◌∷◌, IfOk, List, OnOk, length};
ghost use Rattle.line_words.specs.Told.{Answers, Checks};
ghost use Rattle.inode_table.specs.Slots.{pages_at};
ghost use Rattle.nvm_model.specs.Events.{offsets_of};
ghost use Rattle.nvm_model.specs.Storage.{File};
ghost use Rattle.nvm_model.specs.Touched.{bad_touched};
ghost use Rattle.page_lines.specs.Sought.{is_bad_at};
ghost use Rattle.file_journal.specs.Tables.{AreTables};
ghost use Rattle.file_pages.specs.Object.{IsFileAt, PagesServe, file_place};
ghost use Rattle.marked_lines.specs.Lines.{bad_from};
ghost use Rattle.marked_lines.specs.Spans.{lines_says, span_refusal};

use crate::LinesFault;
use file_pages::FilePages;
use line_device::Lines;
use nvm_base::{LINE, PAGE, Span, Words, lines_of};
use std::alloc::{AllocError, Global};

/// At which bytes the bad lines of a file begin that the span touches, rising.
pub fn file_lines<L: Lines>(
    alloc: Global,
    dev: &L,
    files: &FilePages,
    inode: u64,
    span: Span,
) -> Result<Words, LinesFault>
    requires serves { PagesServe files.now (L.state dev.now).medium }
    requires inode { inode < 64 }
    ensures refused { (all : List File) (file : File) → IsFileAt files.now.journal (L.state dev.now).medium inode all file
        → Answers lines_says (span_refusal (length file.pages) span) result }
    ensures ok { IfOk result (λ lines. (all : List File) (file : File)
        → IsFileAt files.now.journal (L.state dev.now).medium inode all file
        → lines.items ≡ offsets_of (bad_touched (span ∷ []) file.pages)) }
{
    check_span(files, inode, span)?;
    let lines = bad_lines(alloc, dev, files, inode, lines_of(span))?;
    Ok(lines)
}

// Whether an inode has so many bytes from there on, and there is at least one.
fn check_span(files: &FilePages, inode: u64, span: Span) -> Result<(), LinesFault>
    requires { inode < 64 }
    ensures refused { Checks lines_says (span_refusal (pages_at files.now.journal.tables.files inode) span) result }
    ensures some { OnOk result (1 ≤ span.len) }
    ensures within { OnOk result (span.start + span.len ≤ 4096 * pages_at files.now.journal.tables.files inode) }
    ensures small { pages_at files.now.journal.tables.files inode ≤ 256 }
    ensures tables { AreTables files.now.journal.geo.fpages files.now.journal.tables }
{
    let size = PAGE * files.journal().pages(inode);
    if span.start > size || span.len > size - span.start {
        return Err(LinesFault::Range);
    }
    if span.len == 0 {
        return Err(LinesFault::Length);
    }
    Ok(())
}

/// At which bytes the bad ones begin of a number of lines of a file, from the first on, rising.
pub(crate) fn bad_lines<L: Lines>(
    alloc: Global,
    dev: &L,
    files: &FilePages,
    inode: u64,
    lines: Span,
) -> Result<Words, AllocError>
    requires serves { PagesServe files.now (L.state dev.now).medium }
    requires tables { AreTables files.now.journal.geo.fpages files.now.journal.tables }
    requires inode { inode < 64 }
    requires within { lines.start + lines.len ≤ 64 * pages_at files.now.journal.tables.files inode }
    ensures { IfOk result (λ found. found.items
        ≡ offsets_of (bad_from files.now.journal (L.state dev.now).medium inode lines.start lines.len)) }
{
    let mut found = Words::new(alloc);
    for k in 0..lines.len {
        if is_bad(dev, files, inode, lines.start + k) {
            found.push(LINE * (lines.start + k))?;
        }
    }
    Ok(found)
}

// Whether line n of a file is there and bad.
fn is_bad<L: Lines>(dev: &L, files: &FilePages, inode: u64, n: u64) -> bool
    requires serves { PagesServe files.now (L.state dev.now).medium }
    requires tables { AreTables files.now.journal.geo.fpages files.now.journal.tables }
    requires inode { inode < 64 }
    requires within { n < 64 * pages_at files.now.journal.tables.files inode }
    ensures { result ≡ is_bad_at (L.state dev.now).medium (file_place files.now.journal inode n) }
{
    match files.line_of(inode, LINE * n) {
        Some(line) => dev.is_bad(line),
        None => false,
    }
}
