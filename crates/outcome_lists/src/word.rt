// A part of a look that is a word, of the volume or of a file.
ghost use Rattle.std.specs.Prelude.{◌≡◌, ◌++◌, OnOk};
ghost use Rattle.explorer.specs.AskedReads.Reads.{page_reply};
ghost use Rattle.outcome_lists.specs.Asking.{seen_asked};
ghost use Rattle.outcome_lists.specs.Choices.{head};
ghost use Rattle.outcome_lists.specs.Words.{part_of_word, seen_of_word, start_of_word};

use crate::choice::Asks;
use explorer::reads_asked::{FileRead, PageRead, PageReply};
use nvm_base::{Bytes, Name, print_number};
use std::alloc::AllocError;

#[derive(Clone, Copy)]
pub enum Word<'a> {
    OfVolume {
        start: u64,
        len: u64,
    },
    OfFile {
        name: &'a Name,
        start: u32,
        len: u64,
    },
}

impl Word<'_> {
    pub fn start(&self) -> u64
        ensures { result ≡ start_of_word self.now }
    {
        match self {
            Word::OfVolume { start, .. } => *start,
            Word::OfFile { start, .. } => u64::from(*start),
        }
    }

    /// Its read, with that reply.
    pub fn asks(&self, reply: PageReply) -> Asks
        ensures { seen_asked result ≡ seen_of_word self.now (page_reply reply) }
    {
        match self {
            Word::OfVolume { start, len } => Asks::Volume(PageRead {
                start: *start,
                len: *len,
                reply,
            }),
            Word::OfFile { name, start, len } => Asks::File(FileRead {
                name: **name,
                pages: PageRead {
                    start: u64::from(*start),
                    len: *len,
                    reply,
                },
            }),
        }
    }

    /// Appends where it is.
    pub fn print_head(&self, out: &mut Bytes) -> Result<(), AllocError>
        ensures { OnOk result (out.new.items ≡ out.old.items ++ head (part_of_word self.now)) }
    {
        match self {
            Word::OfVolume { .. } => out.extend(b" | volume ")?,
            Word::OfFile { name, .. } => {
                out.extend(b" | file ")?;
                out.extend(name.bytes())?;
                out.push(b' ')?;
            }
        }
        print_number(self.start(), out)
    }
}
