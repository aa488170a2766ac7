// What was stored, made durable.
ghost use Rattle.std.specs.Prelude.{◌≡◌, ◌+◌, ◌*◌, ◌<◌, ◌≤◌, IsTrue, List, OnOk};
ghost use Rattle.line_device.specs.Panel.{Runs};
ghost use Rattle.line_words.specs.Ending.{ended};
ghost use Rattle.line_words.specs.Told.{Answers, OnRefused, OnWorked, is_done, outcome_by};
ghost use Rattle.nvm_model.specs.Files.{OneFileLeft, on_pages};
ghost use Rattle.nvm_model.specs.Interrupted.{MaySync};
ghost use Rattle.nvm_model.specs.Listing.{change_file, file_name};
ghost use Rattle.nvm_model.specs.Page.{persist};
ghost use Rattle.nvm_model.specs.Storage.{File};
ghost use Rattle.page_lines.specs.Placed.{IsPlaced};
ghost use Rattle.page_lines.specs.Turns.{WritesBackOthers};
ghost use Rattle.word_tables.specs.Bounds.{IsValid};
ghost use Rattle.inode_table.specs.Slots.{pages_at};
ghost use Rattle.file_journal.specs.Area.{IsOfFiles};
ghost use Rattle.file_journal.specs.Object.{JournalServes};
ghost use Rattle.file_journal.specs.Standing.{EachReadsFiles, FilesStand};
ghost use Rattle.file_journal.specs.Tables.{AreTables};
ghost use Rattle.file_pages.specs.Costs.{lines_there};
ghost use Rattle.file_pages.specs.Object.{IsFileAt, KeepsMarks, PagesServe, file_place, is_settled};
ghost use Rattle.file_pages.specs.Refusals.{page_says, read_refusal};

use crate::checks::check_readable;
use crate::lines::FileLines;
use crate::{FilePages, PageFault};
use file_journal::Journal;
use line_device::Lines;
use line_words::Interruption;
use nvm_base::Span;
use page_lines::persist_lines;

impl FilePages {
    /// Makes each line of a file durable that the span touches, but for those of holes. A bad one refuses all of it; a weak one
    /// becomes bad.
    pub fn persist<L: Lines>(
        &mut self,
        dev: &mut L,
        inode: u64,
        span: Span,
    ) -> Result<(), PageFault>
        requires serves { PagesServe self.old (L.state dev.old).medium }
        requires settled { IsTrue (is_settled self.old) }
        requires on { IsTrue (L.state dev.old).panel.power }
        requires inode { inode < 64 }
        ensures refused { (files : List File) (file : File) → IsFileAt self.old.journal (L.state dev.old).medium inode files file
            → Answers page_says (read_refusal file.pages span.start span.len) result }
        ensures untouched { OnRefused page_says result ((self.new ≡ self.old) × (dev.new ≡ dev.old)) }
        ensures ok { OnOk result ((files : List File) (file : File) → IsFileAt self.old.journal (L.state dev.old).medium inode files file
            → FilesStand self.old.journal.geo (L.state dev.new).medium self.old.journal.tables
            (change_file file_name file.name (on_pages (λ pages. persist span.start span.len pages)) files)) }
        ensures images { OnWorked page_says result ((files : List File) (file : File)
            → IsFileAt self.old.journal (L.state dev.old).medium inode files file
            → EachReadsFiles self.old.journal.geo (L.state dev.new).medium (OneFileLeft file.name (MaySync span.start span.len) files)) }
        ensures beside { WritesBackOthers (IsPlaced (file_place self.old.journal inode) span.start span.len) (L.state dev.old).medium (L.state dev.new).medium }
        ensures outside { WritesBackOthers (IsOfFiles self.old.journal.geo) (L.state dev.old).medium (L.state dev.new).medium }
        ensures metadata { KeepsMarks self.old.journal.geo (L.state dev.old).medium (L.state dev.new).medium }
        ensures serves { PagesServe self.new (L.state dev.new).medium }
        ensures object { (self.new.journal ≡ self.old.journal) × (self.new.settled ≡ is_done (outcome_by page_says result)) }
        ensures runs { let lines = lines_there self.old.journal inode span.start span.len in
            Runs lines lines (outcome_by page_says result) (L.state dev.old).panel (L.state dev.new).panel }
    {
        check_readable(&self.journal, dev, inode, span)?;
        self.persist_rest(dev, inode, span)?;
        Ok(())
    }

    /// Makes each line of a file durable that the span touches and that is not bad, but for those of holes. A weak one becomes
    /// bad.
    pub fn persist_rest<L: Lines>(
        &mut self,
        dev: &mut L,
        inode: u64,
        span: Span,
    ) -> Result<(), Interruption>
        requires serves { PagesServe self.old (L.state dev.old).medium }
        requires settled { IsTrue (is_settled self.old) }
        requires on { IsTrue (L.state dev.old).panel.power }
        requires inode { inode < 64 }
        requires some { 1 ≤ span.len }
        requires within { span.start + span.len ≤ 4096 * pages_at self.old.journal.tables.files inode }
        ensures ok { OnOk result ((files : List File) (file : File) → IsFileAt self.old.journal (L.state dev.old).medium inode files file
            → FilesStand self.old.journal.geo (L.state dev.new).medium self.old.journal.tables
            (change_file file_name file.name (on_pages (λ pages. persist span.start span.len pages)) files)) }
        ensures images { (files : List File) (file : File) → IsFileAt self.old.journal (L.state dev.old).medium inode files file
            → EachReadsFiles self.old.journal.geo (L.state dev.new).medium (OneFileLeft file.name (MaySync span.start span.len) files) }
        ensures beside { WritesBackOthers (IsPlaced (file_place self.old.journal inode) span.start span.len) (L.state dev.old).medium (L.state dev.new).medium }
        ensures outside { WritesBackOthers (IsOfFiles self.old.journal.geo) (L.state dev.old).medium (L.state dev.new).medium }
        ensures metadata { KeepsMarks self.old.journal.geo (L.state dev.old).medium (L.state dev.new).medium }
        ensures serves { PagesServe self.new (L.state dev.new).medium }
        ensures object { (self.new.journal ≡ self.old.journal) × (self.new.settled ≡ is_done (ended result)) }
        ensures runs { let lines = lines_there self.old.journal inode span.start span.len in
            Runs lines lines (ended result) (L.state dev.old).panel (L.state dev.new).panel }
    {
        let _sizes = (self.journal.geometry(), self.journal.pages(inode));
        self.settled = false;
        persist(&self.journal, dev, inode, span)?;
        self.settled = true;
        Ok(())
    }
}

// Makes the lines of a span durable that are not bad.
fn persist<L: Lines>(
    journal: &Journal,
    dev: &mut L,
    inode: u64,
    span: Span,
) -> Result<(), Interruption>
    requires serves { JournalServes journal.now (L.state dev.old).medium }
    requires valid { IsValid journal.now.geo }
    requires tables { AreTables journal.now.geo.fpages journal.now.tables }
    requires on { IsTrue (L.state dev.old).panel.power }
    requires inode { inode < 64 }
    requires some { 1 ≤ span.len }
    requires within { span.start + span.len ≤ 4096 * pages_at journal.now.tables.files inode }
    ensures ok { OnOk result ((files : List File) (file : File) → IsFileAt journal.now (L.state dev.old).medium inode files file
        → FilesStand journal.now.geo (L.state dev.new).medium journal.now.tables
        (change_file file_name file.name (on_pages (λ pages. persist span.start span.len pages)) files)) }
    ensures images { (files : List File) (file : File) → IsFileAt journal.now (L.state dev.old).medium inode files file
        → EachReadsFiles journal.now.geo (L.state dev.new).medium (OneFileLeft file.name (MaySync span.start span.len) files) }
    ensures beside { WritesBackOthers (IsPlaced (file_place journal.now inode) span.start span.len) (L.state dev.old).medium (L.state dev.new).medium }
    ensures outside { WritesBackOthers (IsOfFiles journal.now.geo) (L.state dev.old).medium (L.state dev.new).medium }
    ensures metadata { KeepsMarks journal.now.geo (L.state dev.old).medium (L.state dev.new).medium }
    ensures serves { JournalServes journal.now (L.state dev.new).medium }
    ensures runs { let lines = lines_there journal.now inode span.start span.len in
        Runs lines lines (ended result) (L.state dev.old).panel (L.state dev.new).panel }
{
    let lines = FileLines::of(journal, inode);
    persist_lines(dev, &lines, span)
}
