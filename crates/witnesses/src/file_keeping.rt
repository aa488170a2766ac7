// What a cut keeps of files, where it may leave what a question asks.
ghost use Rattle.std.specs.Prelude.{◌≡◌, ◌++◌, IfOk, OnOk, flat_map, option_map, true};
ghost use Rattle.std.specs.List.{list_all};
ghost use Rattle.std.specs.Option.{option_copied};
ghost use Rattle.script_text.specs.Action.{action_of};
ghost use Rattle.cut_places.specs.AskedReads.Asking.{may_be_file_reply};
ghost use Rattle.cut_places.specs.AskedReads.Program.{IsBounded};
ghost use Rattle.cut_places.specs.AskedReads.Reads.{file_read, file_reads_asked};
ghost use Rattle.witnesses.specs.Files.{files_kept, files_made, read_kept};
ghost use Rattle.witnesses.specs.Sizes.{sizes_kept};

use crate::file_kept::FileLineKept;
use crate::file_lines::keep_lines;
use crate::size_keeping::keep_sizes;
use crate::size_kept::SizeKept;
use cut_places::FilesSeen;
use cut_places::reads_asked::{FileRead, PageReply};
use nvm_base::Span;
use script_text::Command;
use std::alloc::{AllocError, Global};

/// What is kept of files: which are there and how long, and their lines.
#[derive(Drop)]
pub struct FilesKept {
    pub sizes: Vec<SizeKept>,
    pub lines: Vec<FileLineKept>,
}

/// Keeps what may be left, of all that is looked at, read by read; so that the other reads are answered as is asked.
pub fn keep_files(
    alloc: Global,
    reads: &[FileRead],
    looked: &[FileRead],
    now: &FilesSeen,
    inside: Option<&Command>,
) -> Result<FilesKept, AllocError>
    requires bounded { IsBounded (option_copied inside) }
    requires replies { list_all may_be_file_reply (file_reads_asked looked.now) ≡ true }
    ensures sizes { IfOk result (λ kept. kept.sizes.items
        ≡ sizes_kept (option_map action_of (option_copied inside.entry)) (file_reads_asked reads.now) (file_reads_asked looked.now) now.now) }
    ensures lines { IfOk result (λ kept. kept.lines.items
        ≡ files_kept (option_map action_of (option_copied inside.entry)) (file_reads_asked reads.now) (file_reads_asked looked.now) now.now) }
{
    let made = make_files(now, inside)?;
    let left = now.leave(reads, inside)?;
    let sizes = keep_sizes(alloc, looked, now, &made, &left)?;
    let mut lines = Vec::new(alloc);
    keep_reads(reads, looked, now, &made, &left, &mut lines)?;
    Ok(FilesKept { sizes, lines })
}

// The files once the command is done, where a cut inside it may leave such, or the same.
fn make_files(now: &FilesSeen, inside: Option<&Command>) -> Result<FilesSeen, AllocError>
    requires bounded { IsBounded (option_copied inside) }
    ensures { IfOk result (λ made. made ≡ files_made (option_map action_of (option_copied inside.entry)) now.now) }
{
    let mut made = now.duplicate()?;
    if let Some(command) = inside {
        if now.way_inside(command).is_some() {
            made.change(command)?;
        }
    }
    Ok(made)
}

fn keep_reads(
    reads: &[FileRead],
    looked: &[FileRead],
    now: &FilesSeen,
    made: &FilesSeen,
    left: &FilesSeen,
    kept: &mut Vec<FileLineKept>,
) -> Result<(), AllocError>
    requires { list_all may_be_file_reply (file_reads_asked looked.now) ≡ true }
    ensures { OnOk result (kept.new.items ≡ kept.old.items ++ flat_map (read_kept (file_reads_asked reads.now) now.now made.now left.now) (file_reads_asked looked.now)) }
{
    for read in looked {
        keep_read(reads, read, now, made, left, kept)?;
    }
    Ok(())
}

fn keep_read(
    reads: &[FileRead],
    read: &FileRead,
    now: &FilesSeen,
    made: &FilesSeen,
    left: &FilesSeen,
    kept: &mut Vec<FileLineKept>,
) -> Result<(), AllocError>
    requires { may_be_file_reply (file_read read.now) ≡ true }
    ensures { OnOk result (kept.new.items ≡ kept.old.items ++ read_kept (file_reads_asked reads.now) now.now made.now left.now (file_read read.now)) }
{
    match &read.pages.reply {
        PageReply::Shows(_) | PageReply::Poison(_) => {
            let name = &read.name;
            let span = Span {
                start: read.pages.start,
                len: read.pages.len,
            };
            keep_lines(
                reads,
                name,
                span,
                now.find(name),
                made.find(name),
                left.find(name),
                kept,
            )
        }
        PageReply::Refuses(_) => Ok(()),
    }
}
