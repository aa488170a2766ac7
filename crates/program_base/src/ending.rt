// Why a call ends early.
ghost use Rattle.std.specs.Prelude.{◌≡◌, ◌≤◌, IfErr, IfOk};
ghost use Rattle.nvm_base.specs.Counts.{Rose};
ghost use Rattle.host_io.specs.Writing.{WritesAll};
ghost use Rattle.program_base.specs.Ending.{status, ending_text};

use crate::telling::{numbered, plain_line, tell};
use host_io::{Sink, WriteFault};
use nvm_base::Bytes;
use std::alloc::{AllocError, Global};

/// Why a call ends before its end.
#[derive(Clone, Copy, Debug, PartialEq, Eq)]
pub enum Ending {
    /// The words are in none of the forms.
    Usage,
    /// The bytes are no image, from this offset on.
    Image(u64),
    /// The word at this place is wrong.
    Layout(u64),
    /// Line of metadata that is bad.
    Meta(u64),
    /// The image or the script could not be read.
    Read,
    /// A line or the image could not be written.
    Write,
    Memory,
    /// The script is too long.
    Script,
    /// The device could not be set up or read out.
    Device,
}

impl Ending {
    /// The exit status.
    pub fn status(self) -> u8
        ensures { result ≡ status self }
    {
        match self {
            Ending::Usage => 2,
            Ending::Image(_) | Ending::Layout(_) | Ending::Meta(_) => 3,
            Ending::Read => 4,
            Ending::Write => 5,
            Ending::Memory => 6,
            Ending::Script => 7,
            Ending::Device => 8,
        }
    }

    /// Writes the status's line, where it has one.
    pub fn tell<K: Sink>(self, alloc: Global, replies: &mut K) -> Result<(), WriteFault>
        ensures bytes { WritesAll (ending_text self) result (K.written replies.old) (K.written replies.new) }
        ensures later { K.count replies.old ≤ K.count replies.new }
        ensures cause { IfErr result (λ e. e ≡ WriteFault.Failed → Rose (K.count replies.old) (K.count replies.new)) }
    {
        tell(self.line(alloc), replies)
    }

    /// Line that is written at this ending.
    pub fn line(self, alloc: Global) -> Result<Bytes, AllocError>
        ensures { IfOk result (λ line. line.items ≡ ending_text self) }
    {
        match self {
            Ending::Usage => plain_line(
                alloc,
                b"usage: new IMAGE BLOCKS VPAGES FPAGES, run IN OUT, check IN, bench SEED N, newbyte IMAGE BLOCKS VPAGES FPAGES",
            ),
            Ending::Image(offset) => numbered(alloc, b"error image ", offset),
            Ending::Layout(place) => numbered(alloc, b"error layout ", place),
            Ending::Meta(line) => numbered(alloc, b"error meta ", line),
            Ending::Read => plain_line(alloc, b"error read"),
            Ending::Script => plain_line(alloc, b"error script"),
            Ending::Device => plain_line(alloc, b"error device"),
            Ending::Write | Ending::Memory => Ok(Bytes::new(alloc)),
        }
    }
}
