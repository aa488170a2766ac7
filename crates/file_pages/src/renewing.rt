// Pages that are written before any file has them.
ghost use Rattle.std.specs.Prelude.{◌≡◌, ◌+◌, ◌*◌, ◌<◌, ◌≤◌, ℕ, IfOk, IsTrue, List, None, OnErr, OnOk, drop, length, take};
ghost use Rattle.free_pool.specs.Units.{free_count};
ghost use Rattle.line_device.specs.Panel.{Runs};
ghost use Rattle.line_words.specs.Ending.{ended};
ghost use Rattle.line_words.specs.Told.{Answers, is_done, outcome_by};
ghost use Rattle.nvm_model.specs.Cell.{CellStands};
ghost use Rattle.nvm_model.specs.Storage.{File};
ghost use Rattle.page_lines.specs.Turns.{WritesBackOthers};
ghost use Rattle.word_tables.specs.Layout.{file_line};
ghost use Rattle.file_journal.specs.Area.{IsOfFiles};
ghost use Rattle.file_journal.specs.Object.{JournalServes};
ghost use Rattle.file_journal.specs.Standing.{EachReadsFiles, FilesStand};
ghost use Rattle.file_journal.specs.Tables.{IsVacant};
ghost use Rattle.file_pages.specs.Fresh.{IsOfUnit, Takes, durable_cell};
ghost use Rattle.file_pages.specs.Object.{KeepsMarks, PagesServe, is_settled};
ghost use Rattle.file_pages.specs.Refusals.{page_says};

use crate::durable::renew_lines;
use crate::fresh::{give_back, take};
use crate::{FilePages, PageFault};
use file_journal::Journal;
use line_device::Lines;
use line_words::Interruption;

impl FilePages {
    /// Takes a unit and gives it these bytes: its lines are healthy, not weak and durable. No page has it yet. Where the call
    /// is stopped the unit is given back.
    pub fn fresh_page<L: Lines>(&mut self, dev: &mut L, bytes: &[u8]) -> Result<u64, PageFault>
        requires serves { PagesServe self.old (L.state dev.old).medium }
        requires settled { IsTrue (is_settled self.old) }
        requires on { IsTrue (L.state dev.old).panel.power }
        requires length { length bytes.now ≡ 4096 }
        requires free { 1 ≤ free_count self.old.journal.free }
        ensures refused { Answers page_says None result }
        ensures unit { IfOk result (Takes self.old.journal self.new.journal) }
        ensures stopped { OnErr result (self.new.journal ≡ self.old.journal) }
        ensures lines { IfOk result (λ unit. (k : ℕ) → k < 64
            → CellStands (L.state dev.new).medium (file_line self.old.journal.geo unit + k) (durable_cell (take 64 (drop (64 * k) bytes.now)))) }
        ensures beside { IfOk result (λ unit. WritesBackOthers (IsOfUnit (file_line self.old.journal.geo unit)) (L.state dev.old).medium (L.state dev.new).medium) }
        ensures files { (files : List File) → FilesStand self.old.journal.geo (L.state dev.old).medium self.old.journal.tables files
            → FilesStand self.old.journal.geo (L.state dev.new).medium self.old.journal.tables files }
        ensures images { (files : List File) → FilesStand self.old.journal.geo (L.state dev.old).medium self.old.journal.tables files
            → EachReadsFiles self.old.journal.geo (L.state dev.new).medium (λ left. left ≡ files) }
        ensures outside { WritesBackOthers (IsOfFiles self.old.journal.geo) (L.state dev.old).medium (L.state dev.new).medium }
        ensures metadata { KeepsMarks self.old.journal.geo (L.state dev.old).medium (L.state dev.new).medium }
        ensures serves { PagesServe self.new (L.state dev.new).medium }
        ensures object { (self.new.journal.geo ≡ self.old.journal.geo) × (self.new.journal.tables ≡ self.old.journal.tables)
            × (is_settled self.new ≡ is_done (outcome_by page_says result)) }
        ensures runs { Runs 192 64 (outcome_by page_says result) (L.state dev.old).panel (L.state dev.new).panel }
    {
        let unit = take(&mut self.journal);
        self.settled = false;
        match renew_unit(&self.journal, dev, unit, bytes) {
            Ok(()) => {
                self.settled = true;
                Ok(unit)
            }
            Err(stop) => {
                give_back(&mut self.journal, unit);
                Err(PageFault::from(stop))
            }
        }
    }
}

// Gives the lines of a unit that no page has these bytes.
fn renew_unit<L: Lines>(
    journal: &Journal,
    dev: &mut L,
    unit: u64,
    bytes: &[u8],
) -> Result<(), Interruption>
    requires serves { JournalServes journal.now (L.state dev.old).medium }
    requires on { IsTrue (L.state dev.old).panel.power }
    requires length { length bytes.now ≡ 4096 }
    requires below { unit < journal.now.geo.fpages }
    requires vacant { IsVacant journal.now.tables.pages unit }
    ensures lines { OnOk result ((k : ℕ) → k < 64
        → CellStands (L.state dev.new).medium (file_line journal.now.geo unit + k) (durable_cell (take 64 (drop (64 * k) bytes.now)))) }
    ensures beside { WritesBackOthers (IsOfUnit (file_line journal.now.geo unit)) (L.state dev.old).medium (L.state dev.new).medium }
    ensures files { (files : List File) → FilesStand journal.now.geo (L.state dev.old).medium journal.now.tables files
        → FilesStand journal.now.geo (L.state dev.new).medium journal.now.tables files }
    ensures images { (files : List File) → FilesStand journal.now.geo (L.state dev.old).medium journal.now.tables files
        → EachReadsFiles journal.now.geo (L.state dev.new).medium (λ left. left ≡ files) }
    ensures outside { WritesBackOthers (IsOfFiles journal.now.geo) (L.state dev.old).medium (L.state dev.new).medium }
    ensures metadata { KeepsMarks journal.now.geo (L.state dev.old).medium (L.state dev.new).medium }
    ensures serves { JournalServes journal.now (L.state dev.new).medium }
    ensures runs { Runs 192 64 (ended result) (L.state dev.old).panel (L.state dev.new).panel }
{
    let _used = journal.used();
    renew_lines(dev, journal.geometry().file_line(unit), bytes)
}
