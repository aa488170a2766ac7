// What is kept, as it is printed behind an answer.
ghost use Rattle.std.specs.Prelude.{◌≡◌, ◌++◌, IfOk, OnOk};
ghost use Rattle.cut_places.specs.AskedReads.Asking.{files_asked, volume_asked};
ghost use Rattle.cut_places.specs.AskedReads.Reads.{file_reads_asked, pages_asked};
ghost use Rattle.witnesses.specs.Texts.{block_text, blocks_text, file_line_text, files_text, kept_text, line_text, lines_text, same_block, same_file_line, same_line, same_size, size_text, sizes_text, unless_told};

use crate::block_kept::BlockKept;
use crate::block_text::print_block;
use crate::file_kept::FileLineKept;
use crate::kept::Kept;
use crate::line_kept::LineKept;
use crate::line_text::{print_file_line, print_line};
use crate::size_kept::SizeKept;
use crate::size_text::print_size;
use cut_places::reads_asked::{FileRead, PageRead, Question};
use nvm_base::Bytes;
use std::alloc::{AllocError, Global};

/// Each word that the reads touch and could be otherwise, each such bad line, block and file, once.
pub fn kept_text(alloc: Global, looked: &Question, kept: &Kept) -> Result<Bytes, AllocError>
    ensures { IfOk result (λ text. text.items ≡ kept_text (volume_asked looked.now) (files_asked looked.now) kept.now) }
{
    let mut out = Bytes::new(alloc);
    print_lines(&looked.volume, &kept.lines, &mut out)?;
    print_blocks(&kept.blocks, &mut out)?;
    print_sizes(&kept.sizes, &mut out)?;
    print_files(&looked.files, &kept.files, &mut out)?;
    Ok(out)
}

fn print_lines(reads: &[PageRead], lines: &[LineKept], out: &mut Bytes) -> Result<(), AllocError>
    ensures { OnOk result (out.new.items ≡ out.old.items ++ lines_text (pages_asked reads.now) lines.now) }
{
    for (i, line) in lines.iter().enumerate() {
        print_new_line(reads, &lines[..i], line, out)?;
    }
    Ok(())
}

// A line that was looked at before is told already.
fn print_new_line(
    reads: &[PageRead],
    before: &[LineKept],
    line: &LineKept,
    out: &mut Bytes,
) -> Result<(), AllocError>
    ensures { OnOk result (out.new.items ≡ out.old.items ++ unless_told same_line (line_text (pages_asked reads.now)) before.now line.now) }
{
    if before.iter().any(|other| other.number == line.number) {
        return Ok(());
    }
    print_line(reads, line, out)
}

fn print_blocks(units: &[BlockKept], out: &mut Bytes) -> Result<(), AllocError>
    ensures { OnOk result (out.new.items ≡ out.old.items ++ blocks_text units.now) }
{
    for (i, unit) in units.iter().enumerate() {
        print_new_block(&units[..i], unit, out)?;
    }
    Ok(())
}

// So is such a block.
fn print_new_block(
    before: &[BlockKept],
    unit: &BlockKept,
    out: &mut Bytes,
) -> Result<(), AllocError>
    ensures { OnOk result (out.new.items ≡ out.old.items ++ unless_told same_block block_text before.now unit.now) }
{
    if before.iter().any(|other| other.number == unit.number) {
        return Ok(());
    }
    print_block(unit, out)
}

fn print_sizes(sizes: &[SizeKept], out: &mut Bytes) -> Result<(), AllocError>
    ensures { OnOk result (out.new.items ≡ out.old.items ++ sizes_text sizes.now) }
{
    for (i, size) in sizes.iter().enumerate() {
        print_new_size(&sizes[..i], size, out)?;
    }
    Ok(())
}

// And such a file.
fn print_new_size(before: &[SizeKept], size: &SizeKept, out: &mut Bytes) -> Result<(), AllocError>
    ensures { OnOk result (out.new.items ≡ out.old.items ++ unless_told same_size size_text before.now size.now) }
{
    if before.iter().any(|other| other.name == size.name) {
        return Ok(());
    }
    print_size(size, out)
}

fn print_files(
    reads: &[FileRead],
    lines: &[FileLineKept],
    out: &mut Bytes,
) -> Result<(), AllocError>
    ensures { OnOk result (out.new.items ≡ out.old.items ++ files_text (file_reads_asked reads.now) lines.now) }
{
    for (i, line) in lines.iter().enumerate() {
        print_new_file_line(reads, &lines[..i], line, out)?;
    }
    Ok(())
}

// And such a line of the same file.
fn print_new_file_line(
    reads: &[FileRead],
    before: &[FileLineKept],
    line: &FileLineKept,
    out: &mut Bytes,
) -> Result<(), AllocError>
    ensures { OnOk result (out.new.items ≡ out.old.items ++ unless_told same_file_line (file_line_text (file_reads_asked reads.now)) before.now line.now) }
{
    if before.iter().any(|other| other.number == line.number && other.name == line.name) {
        return Ok(());
    }
    print_file_line(reads, line, out)
}
