// Stores, which a cut may lose until they are made durable.
ghost use Rattle.std.specs.Prelude.{◌≡◌, ◌+◌, ◌*◌, ◌<◌, ◌≤◌, IsTrue, List, OnOk, length};
ghost use Rattle.nvm_base.specs.Units.{units_of};
ghost use Rattle.line_device.specs.Panel.{Runs};
ghost use Rattle.line_words.specs.Ending.{ended};
ghost use Rattle.line_words.specs.Told.{Answers, OnRefused, OnWorked, is_done, outcome_by};
ghost use Rattle.inode_table.specs.Slots.{pages_at};
ghost use Rattle.nvm_model.specs.Files.{OneFileLeft, on_pages};
ghost use Rattle.nvm_model.specs.Interrupted.{LineByLine, MayPut, MayStore};
ghost use Rattle.nvm_model.specs.Listing.{change_file, file_name};
ghost use Rattle.nvm_model.specs.Page.{fill, put};
ghost use Rattle.nvm_model.specs.Storage.{File};
ghost use Rattle.page_lines.specs.Turns.{WritesBackOthers};
ghost use Rattle.word_tables.specs.Bounds.{IsValid};
ghost use Rattle.file_journal.specs.Area.{IsOfFiles};
ghost use Rattle.file_journal.specs.Object.{JournalServes};
ghost use Rattle.file_journal.specs.Standing.{EachReadsFiles, FilesStand};
ghost use Rattle.file_journal.specs.Tables.{AreTables, known_units};
ghost use Rattle.file_pages.specs.Checked.{IsCovered};
ghost use Rattle.file_pages.specs.Costs.{fill_persists, store_calls};
ghost use Rattle.file_pages.specs.Object.{IsFileAt, KeepsMarks, PagesServe, is_settled};
ghost use Rattle.file_pages.specs.Refusals.{page_says, store_refusal};

use crate::checks::check_store;
use crate::filling::fill;
use crate::lines::FileLines;
use crate::{FilePages, PageFault};
use file_journal::Journal;
use line_device::Lines;
use line_words::Interruption;
use nvm_base::Span;
use page_lines::put_lines;

impl FilePages {
    /// Stores bytes in a file. Holes that they touch are made pages of zeros first, all together and durably. A bad line that
    /// they cover is healthy again; one that they cover in part refuses them.
    pub fn store<L: Lines>(
        &mut self,
        dev: &mut L,
        inode: u64,
        offset: u64,
        bytes: &[u8],
    ) -> Result<(), PageFault>
        requires serves { PagesServe self.old (L.state dev.old).medium }
        requires settled { IsTrue (is_settled self.old) }
        requires on { IsTrue (L.state dev.old).panel.power }
        requires inode { inode < 64 }
        requires few { length bytes.now ≤ 65536 }
        requires held { known_units self.old.journal.tables.pages self.old.journal.free ≡ self.old.journal.geo.fpages }
        ensures refused { (files : List File) (file : File) → IsFileAt self.old.journal (L.state dev.old).medium inode files file
            → Answers page_says (store_refusal self.old.journal (L.state dev.old).medium file.pages offset (length bytes.now)) result }
        ensures untouched { OnRefused page_says result ((self.new ≡ self.old) × (dev.new ≡ dev.old)) }
        ensures ok { OnOk result ((files : List File) (file : File) → IsFileAt self.old.journal (L.state dev.old).medium inode files file
            → FilesStand self.old.journal.geo (L.state dev.new).medium self.new.journal.tables
            (change_file file_name file.name (on_pages (λ pages. put offset bytes.now (fill offset (length bytes.now) pages))) files)) }
        ensures images { OnWorked page_says result ((files : List File) (file : File)
            → IsFileAt self.old.journal (L.state dev.old).medium inode files file
            → EachReadsFiles self.old.journal.geo (L.state dev.new).medium (OneFileLeft file.name (MayStore offset bytes.now) files)) }
        ensures outside { WritesBackOthers (IsOfFiles self.old.journal.geo) (L.state dev.old).medium (L.state dev.new).medium }
        ensures metadata { KeepsMarks self.old.journal.geo (L.state dev.old).medium (L.state dev.new).medium }
        ensures serves { IsTrue (is_settled self.new) → PagesServe self.new (L.state dev.new).medium }
        ensures tables { OnOk result (AreTables self.new.journal.geo.fpages self.new.journal.tables) }
        ensures files { OnOk result (self.new.journal.tables.files ≡ self.old.journal.tables.files) }
        ensures object { (self.new.journal.geo ≡ self.old.journal.geo) × (is_settled self.new ≡ is_done (outcome_by page_says result)) }
        ensures held { IsTrue (is_settled self.new)
            → known_units self.new.journal.tables.pages self.new.journal.free ≡ self.new.journal.geo.fpages }
        ensures runs { Runs (store_calls self.old.journal inode offset (length bytes.now))
            (fill_persists self.old.journal inode offset (length bytes.now))
            (outcome_by page_says result) (L.state dev.old).panel (L.state dev.new).panel }
    {
        let span = Span {
            start: offset,
            len: bytes.len() as u64,
        };
        check_store(&self.journal, dev, inode, span)?;
        self.settled = false;
        fill(&mut self.journal, dev, inode, span)?;
        put(&self.journal, dev, inode, offset, bytes)?;
        self.settled = true;
        Ok(())
    }
}

// Stores bytes over the lines of pages that are there.
fn put<L: Lines>(
    journal: &Journal,
    dev: &mut L,
    inode: u64,
    offset: u64,
    bytes: &[u8],
) -> Result<(), Interruption>
    requires serves { JournalServes journal.now (L.state dev.old).medium }
    requires valid { IsValid journal.now.geo }
    requires tables { AreTables journal.now.geo.fpages journal.now.tables }
    requires on { IsTrue (L.state dev.old).panel.power }
    requires inode { inode < 64 }
    requires some { 1 ≤ length bytes.now }
    requires within { offset + length bytes.now ≤ 4096 * pages_at journal.now.tables.files inode }
    requires covered { IsCovered journal.now (L.state dev.old).medium inode (record { start = offset; len = length bytes.now }) }
    ensures ok { OnOk result ((files : List File) (file : File) → IsFileAt journal.now (L.state dev.old).medium inode files file
        → FilesStand journal.now.geo (L.state dev.new).medium journal.now.tables
        (change_file file_name file.name (on_pages (λ pages. put offset bytes.now pages)) files)) }
    ensures images { (files : List File) (file : File) → IsFileAt journal.now (L.state dev.old).medium inode files file
        → EachReadsFiles journal.now.geo (L.state dev.new).medium
        (OneFileLeft file.name (LineByLine (MayPut offset bytes.now)) files) }
    ensures outside { WritesBackOthers (IsOfFiles journal.now.geo) (L.state dev.old).medium (L.state dev.new).medium }
    ensures metadata { KeepsMarks journal.now.geo (L.state dev.old).medium (L.state dev.new).medium }
    ensures serves { JournalServes journal.now (L.state dev.new).medium }
    ensures runs { Runs (2 * (units_of 64 (record { start = offset; len = length bytes.now })).len) 0 (ended result)
        (L.state dev.old).panel (L.state dev.new).panel }
{
    let lines = FileLines::of(journal, inode);
    put_lines(dev, &lines, offset, bytes)
}
