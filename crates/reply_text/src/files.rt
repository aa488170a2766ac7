// The text of files: a list of them, and a line of one.
ghost use Rattle.std.specs.Prelude.{◌+◌, ◌*◌, ◌^◌, ◌<◌, ◌≤◌, ◌++◌, All, decimal, length};
ghost use Rattle.nvm_base.specs.Stock.{Appends};
ghost use Rattle.reply_text.specs.Answer.{answer_text, file_line_text, file_text, files_text};
ghost use Rattle.reply_text.specs.Answer.Answer.{Files};
ghost use Rattle.reply_text.specs.Room.{IsShort};

use crate::printing::print_counted;
use nvm_base::{Bytes, FileEntry, Name};
use std::alloc::AllocError;

pub(crate) fn print_files(files: &[FileEntry], out: &mut Bytes) -> Result<(), AllocError>
    ensures text { Appends (answer_text (Files files.now)) result out.old out.new }
    ensures short { length (files_text files.now) ≤ 54 * length files.now }
{
    know_files(files);
    out.extend(b"files")?;
    for file in files {
        print_file(file, out)?;
    }
    Ok(())
}

// A blank, the name, a colon and how many pages.
fn print_file(file: &FileEntry, out: &mut Bytes) -> Result<(), AllocError>
    ensures { Appends (file_text file.now) result out.old out.new }
{
    out.push(b' ')?;
    out.extend(file.name.bytes())?;
    print_counted(b":", file.pages, out)
}

// What their type says of files.
fn know_files(files: &[FileEntry])
    ensures { All IsShort files.now }
{
    for file in files {
        know_file(file);
    }
}

fn know_file(file: &FileEntry)
    ensures { IsShort file.now }
{
    let _name = file.name.bytes();
    let _pages = file.pages;
}

// Words, the name, and a line's offset and length.
pub(crate) fn print_file_line(
    words: &[u8],
    name: &Name,
    offset: u64,
    out: &mut Bytes,
) -> Result<(), AllocError>
    ensures text { Appends (words.now ++ file_line_text name.now offset) result out.old out.new }
    ensures short { length name.now + length (decimal offset) ≤ 52 }
{
    let text = name.bytes();
    out.extend(words)?;
    out.extend(text)?;
    print_counted(b" ", offset, out)?;
    out.extend(b" 64")
}
