// What a cut keeps of the length of files.
ghost use Rattle.std.specs.Prelude.{◌≡◌, ◌||◌, ◌==◌, IfOk, map, not, option_map};
ghost use Rattle.std.specs.Option.{option_copied};
ghost use Rattle.cut_places.specs.AskedReads.Reads.{file_reads_asked};
ghost use Rattle.witnesses.specs.Sizes.{pages_in, pages_of, same_pages, size_kept, size_read};

use crate::size_kept::SizeKept;
use cut_places::reads_asked::FileRead;
use cut_places::{FileSeen, FilesSeen};
use std::alloc::{AllocError, Global};

/// Keeps of the file of each read whether it exists, and how long it is, where the files are now such, are made such, and are left so.
pub fn keep_sizes(
    alloc: Global,
    reads: &[FileRead],
    now: &FilesSeen,
    made: &FilesSeen,
    left: &FilesSeen,
) -> Result<Vec<SizeKept>, AllocError>
    ensures { IfOk result (λ kept. kept.items ≡ map (size_read now.now made.now left.now) (file_reads_asked reads.now)) }
{
    let mut kept = Vec::new(alloc);
    for read in reads {
        kept.push(keep_size(read, now, made, left))?;
    }
    Ok(kept)
}

fn keep_size(read: &FileRead, now: &FilesSeen, made: &FilesSeen, left: &FilesSeen) -> SizeKept
    ensures { result ≡ size_kept now.now made.now left.now read.now.name }
{
    let name = &read.name;
    SizeKept {
        name: *name,
        pages: pages_in(left.find(name)),
        free: !same_pages(pages_in(now.find(name)), pages_in(made.find(name))),
    }
}

fn pages_in(file: Option<&FileSeen>) -> Option<u32>
    ensures { result ≡ pages_in (option_copied file.entry) }
{
    match file {
        None => None,
        Some(file) => Some(file.pages()),
    }
}

fn same_pages(one: Option<u32>, other: Option<u32>) -> bool
    ensures { result ≡ same_pages one other }
{
    match (one, other) {
        (None, None) => true,
        (Some(pages), Some(others)) => pages == others,
        (None, Some(_)) | (Some(_), None) => false,
    }
}
