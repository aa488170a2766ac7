// The numbers of the lines that a question's reads of files look at.
ghost use Rattle.std.specs.Prelude.{◌≡◌, ◌+◌, ◌≤◌, ◌^◌, ◌∷◌, [], ℕ, true, IfOk, OnOk};
ghost use Rattle.std.specs.List.{list_all, range_with_len};
ghost use Rattle.cut_places.specs.Outcomes.Pages.{lines_read};
ghost use Rattle.cut_places.specs.AskedReads.Asking.{may_be_file_reply};
ghost use Rattle.cut_places.specs.AskedReads.Reads.{file_read, file_reads_asked, page_reply};
ghost use Rattle.cut_places.specs.SeesFiles.{are_held, is_held};

use cut_places::reads_asked::{FileRead, PageReply};
use nvm_base::{Span, lines_of};
use std::alloc::{AllocError, Global};
use std::collections::BTreeSet;

/// Numbers of the lines that all reads touch, each once.
pub fn file_numbers(alloc: Global, reads: &[FileRead]) -> Result<Vec<u32>, AllocError>
    requires { list_all may_be_file_reply (file_reads_asked reads.now) ≡ true }
    ensures { IfOk result (λ numbers. are_held numbers.items (file_reads_asked reads.now) ≡ true) }
{
    let mut held = BTreeSet::new(alloc);
    for read in reads {
        add_lines(&mut held, read)?;
    }
    held.into_iter().collect(alloc)
}

// Those of one read.
fn add_lines(held: &mut BTreeSet<u32>, read: &FileRead) -> Result<(), AllocError>
    requires { may_be_file_reply (file_read read.now) ≡ true }
    ensures here { OnOk result (are_held held.new.keys (file_read read.now ∷ []) ≡ true) }
    ensures others { OnOk result ((n : ℕ) → is_held held.old.keys n ≡ true → is_held held.new.keys n ≡ true) }
{
    let lines = looked_at(read);
    for n in lines.start..lines.start + lines.len {
        held.insert(n as u32).map_err(AllocError::from)?;
    }
    Ok(())
}

// The lines that a read looks at: the first, and how many. One that is to be refused looks at none.
fn looked_at(read: &FileRead) -> Span
    requires { may_be_file_reply (file_read read.now) ≡ true }
    ensures lines { range_with_len result.start result.len ≡ lines_read read.now.pages.start read.now.pages.len (page_reply read.now.pages.reply) }
    ensures small { result.start + result.len ≤ 2 ^ 32 }
{
    match &read.pages.reply {
        PageReply::Shows(_) | PageReply::Poison(_) => lines_of(Span {
            start: read.pages.start,
            len: read.pages.len,
        }),
        PageReply::Refuses(_) => Span { start: 0, len: 0 },
    }
}
