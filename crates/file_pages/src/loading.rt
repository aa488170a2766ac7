// Bytes of files as last stored.
ghost use Rattle.std.specs.Prelude.{◌≡◌, ◌<◌, IsTrue, List, OnOk, length};
ghost use Rattle.line_device.specs.Medium.{WritesBack};
ghost use Rattle.line_device.specs.Panel.{Runs};
ghost use Rattle.line_words.specs.Ending.{ended};
ghost use Rattle.line_words.specs.Told.{Answers, OnRefused, is_done, outcome_by};
ghost use Rattle.nvm_model.specs.Page.{look};
ghost use Rattle.nvm_model.specs.Storage.{File};
ghost use Rattle.file_journal.specs.Object.{JournalServes};
ghost use Rattle.file_journal.specs.Tables.{AreTables};
ghost use Rattle.file_pages.specs.Checked.{IsReadable};
ghost use Rattle.file_pages.specs.Costs.{lines_there};
ghost use Rattle.file_pages.specs.Object.{IsFileAt, PagesServe, is_settled};
ghost use Rattle.file_pages.specs.Refusals.{page_says, read_refusal};

use crate::checks::check_readable;
use crate::lines::FileLines;
use crate::{FilePages, PageFault};
use file_journal::Journal;
use line_device::Lines;
use line_words::Interruption;
use nvm_base::Span;
use page_lines::load_lines;

impl FilePages {
    /// Loads as many bytes of a file as fill the buffer, zeros where it has a hole. A bad line is found before the first load.
    pub fn load_into<L: Lines>(
        &mut self,
        dev: &mut L,
        inode: u64,
        offset: u64,
        out: &mut [u8],
    ) -> Result<(), PageFault>
        requires serves { PagesServe self.old (L.state dev.old).medium }
        requires settled { IsTrue (is_settled self.old) }
        requires on { IsTrue (L.state dev.old).panel.power }
        requires inode { inode < 64 }
        ensures refused { (files : List File) (file : File) → IsFileAt self.old.journal (L.state dev.old).medium inode files file
            → Answers page_says (read_refusal file.pages offset (length out.old)) result }
        ensures untouched { OnRefused page_says result ((self.new ≡ self.old) × (out.new ≡ out.old) × (dev.new ≡ dev.old)) }
        ensures ok { OnOk result ((files : List File) (file : File) → IsFileAt self.old.journal (L.state dev.old).medium inode files file
            → out.new ≡ look file.pages offset (length out.old)) }
        ensures lines { WritesBack (L.state dev.old).medium (L.state dev.new).medium }
        ensures serves { PagesServe self.new (L.state dev.new).medium }
        ensures object { (self.new.journal ≡ self.old.journal) × (self.new.settled ≡ is_done (outcome_by page_says result)) }
        ensures runs { Runs (lines_there self.old.journal inode offset (length out.old)) 0 (outcome_by page_says result)
            (L.state dev.old).panel (L.state dev.new).panel }
    {
        let span = Span {
            start: offset,
            len: out.len() as u64,
        };
        check_readable(&self.journal, dev, inode, span)?;
        self.settled = false;
        load(&self.journal, dev, inode, offset, out)?;
        self.settled = true;
        Ok(())
    }
}

// Loads bytes that can be read.
fn load<L: Lines>(
    journal: &Journal,
    dev: &mut L,
    inode: u64,
    offset: u64,
    out: &mut [u8],
) -> Result<(), Interruption>
    requires serves { JournalServes journal.now (L.state dev.old).medium }
    requires tables { AreTables journal.now.geo.fpages journal.now.tables }
    requires on { IsTrue (L.state dev.old).panel.power }
    requires inode { inode < 64 }
    requires readable { IsReadable journal.now (L.state dev.old).medium inode (record { start = offset; len = length out.old }) }
    ensures ok { OnOk result ((files : List File) (file : File) → IsFileAt journal.now (L.state dev.old).medium inode files file
        → out.new ≡ look file.pages offset (length out.old)) }
    ensures lines { WritesBack (L.state dev.old).medium (L.state dev.new).medium }
    ensures runs { Runs (lines_there journal.now inode offset (length out.old)) 0 (ended result)
        (L.state dev.old).panel (L.state dev.new).panel }
{
    let lines = FileLines::of(journal, inode);
    load_lines(dev, &lines, offset, out)
}
