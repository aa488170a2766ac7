// The reads of a look and the questions behind them.
ghost use Rattle.std.specs.Prelude.{◌≡◌, ◌+◌, ◌<◌, ◌≤◌, ◌^◌, length};
ghost use Rattle.word_tables.specs.Bounds.{IsValid};
ghost use Rattle.script_text.specs.Script.{lines_of};
ghost use Rattle.exploration.specs.Exploration.{Look as LookRead, asks_of_reads, is_asked, look_from, look_start, with_read, with_taken};
ghost use Rattle.exploration.specs.Lines.{look_line};
ghost use Rattle.asked_reads.specs.Looking.{read_action};
ghost use Rattle.exploration.specs.Steps.{IsHeld, ReadsLook, TakesLine};

use crate::asking::Asking;
use crate::exploration::ScriptFault;
use crate::lines::next_line;
use crate::look_lines::{LookLine, read_look_line};
use crate::question::asking_of;
use crate::reason::Reason;
use crate::stop::LineStop;
use asked_reads::Read;
use std::alloc::{AllocError, Global};
use word_tables::Geometry;

#[derive(Debug, Drop)]
pub(crate) struct Look {
    pub(crate) reads: Vec<Read>,
    pub(crate) table: bool,
    pub(crate) list: bool,
    pub(crate) questions: Vec<Asking>,
}

// The questions of a look whose first line has this number.
pub(crate) fn read_look(
    alloc: Global,
    geometry: Geometry,
    text: &[u8],
    first: u64,
) -> Result<Look, ScriptFault>
    requires valid { IsValid geometry }
    requires room { first + length text.now < 2 ^ 64 }
    ensures { ReadsLook (look_from geometry first look_start (lines_of text.now)) result }
{
    let mut look = Look {
        reads: Vec::new(alloc),
        table: false,
        list: false,
        questions: Vec::new(alloc),
    };
    let mut number = first;
    let mut rest = text;
    while let Some((line, others)) = next_line(rest) {
        if let Err(stop) = look.take(alloc, geometry, line) {
            return Err(stop.at(number));
        }
        number += 1;
        rest = others;
    }
    if look.asks_of_reads() {
        Ok(look)
    } else {
        Err(ScriptFault::Line(number, Reason::NothingAsked))
    }
}

impl Look {
    // One line more.
    fn take(&mut self, alloc: Global, geometry: Geometry, line: &[u8]) -> Result<(), LineStop>
        requires { IsValid geometry }
        ensures { (look : LookRead) → IsHeld look self.old
            → TakesLine (with_taken geometry look (look_line line.now)) self.new result }
    {
        match read_look_line(alloc, line)? {
            LookLine::Passes => Ok(()),
            LookLine::Reads(read) => self.add_read(read),
            LookLine::Table => {
                self.table = true;
                Ok(())
            }
            LookLine::List => {
                self.list = true;
                Ok(())
            }
            LookLine::Asks(wanted, replies) => {
                let reads = self.reads.as_slice();
                let asking = asking_of(alloc, geometry, reads, wanted, replies.as_slice())?;
                self.questions.push(asking).map_err(AllocError::from)?;
                Ok(())
            }
        }
    }

    // All reads stand before what is asked of them.
    fn add_read(&mut self, read: Read) -> Result<(), LineStop>
        ensures { (look : LookRead) → IsHeld look self.old → TakesLine (with_read look (read_action read)) self.new result }
    {
        if self.is_asked() {
            return Err(LineStop::Untaken(Reason::ReadAfterAQuestion));
        }
        self.reads.push(read).map_err(AllocError::from)?;
        Ok(())
    }

    // Whether something is asked of some read.
    fn asks_of_reads(&self) -> bool
        ensures { (look : LookRead) → IsHeld look self.now → result ≡ asks_of_reads look }
    {
        !self.reads.as_slice().is_empty() && self.is_asked()
    }

    // Whether something is asked of the reads.
    #[tactic(auto, using(crate::proofs::LookLemmas::held_asked))]
    fn is_asked(&self) -> bool
        ensures { (look : LookRead) → IsHeld look self.now → result ≡ is_asked look }
    {
        self.table || self.list || !self.questions.is_empty()
    }
}
