// The reads that ask about the lines of one storage.
ghost use Rattle.std.specs.Prelude.{◌≡◌, ◌++◌, ◌<◌, ◌^◌, OnOk};
ghost use Rattle.cut_places.specs.Outcomes.Files.{reads_of};
ghost use Rattle.cut_places.specs.Outcomes.Pages.{all_agree};
ghost use Rattle.cut_places.specs.AskedReads.Reads.{file_reads_asked, pages_asked};
ghost use Rattle.witnesses.specs.Asked.{file_head, head_of, reads_in};
ghost use Rattle.witnesses.specs.Texts.{is_asked};

use crate::asking::asks_word;
use cut_places::reads_asked::{FileRead, PageRead};
use cut_places::sights_seen::{agree, agrees};
use nvm_base::{Bytes, Name};
use std::alloc::AllocError;

/// The reads of the volume, or those of the file of a name.
#[derive(Drop)]
pub enum Asked<'a> {
    OfVolume(&'a [PageRead]),
    OfFile(&'a [FileRead], &'a Name),
}

impl Asked<'_> {
    /// Whether all of them agree on that value of word p.
    pub fn agree(&self, p: u64, value: u64) -> bool
        requires { p < 2 ^ 36 }
        ensures { result ≡ all_agree (reads_in self.now) p value }
    {
        match self {
            Asked::OfVolume(reads) => agree(reads, p, value),
            Asked::OfFile(reads, name) => agree_in_file(reads, name, p, value),
        }
    }

    /// Whether some read asks about word p.
    pub fn asks(&self, p: u64) -> bool
        requires { p < 2 ^ 36 }
        ensures { result ≡ is_asked (reads_in self.now) p }
    {
        match self {
            Asked::OfVolume(reads) => is_asked(reads, p),
            Asked::OfFile(reads, name) => is_asked_in_file(reads, name, p),
        }
    }

    /// Appends what is printed before an offset.
    pub fn print_head(&self, out: &mut Bytes) -> Result<(), AllocError>
        ensures { OnOk result (out.new.items ≡ out.old.items ++ head_of self.now) }
    {
        match self {
            Asked::OfVolume(_) => out.extend(b" | volume "),
            Asked::OfFile(_, name) => print_file_head(name, out),
        }
    }
}

fn agree_in_file(reads: &[FileRead], name: &Name, p: u64, value: u64) -> bool
    requires { p < 2 ^ 36 }
    ensures { result ≡ all_agree (reads_of name.now (file_reads_asked reads.now)) p value }
{
    reads
        .iter()
        .all(|read| read.name != *name || agrees(&read.pages, p, value))
}

fn is_asked(reads: &[PageRead], p: u64) -> bool
    requires { p < 2 ^ 36 }
    ensures { result ≡ is_asked (pages_asked reads.now) p }
{
    reads.iter().any(|read| asks_word(read, p))
}

fn is_asked_in_file(reads: &[FileRead], name: &Name, p: u64) -> bool
    requires { p < 2 ^ 36 }
    ensures { result ≡ is_asked (reads_of name.now (file_reads_asked reads.now)) p }
{
    reads
        .iter()
        .any(|read| read.name == *name && asks_word(&read.pages, p))
}

/// Appends that of the file of a name.
pub fn print_file_head(name: &Name, out: &mut Bytes) -> Result<(), AllocError>
    ensures { OnOk result (out.new.items ≡ out.old.items ++ file_head name.now) }
{
    out.extend(b" | file ")?;
    out.extend(name.bytes())?;
    out.push(b' ')
}
