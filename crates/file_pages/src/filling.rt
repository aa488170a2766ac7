// Holes that a store touches, made pages of zeros together.
ghost use Rattle.std.specs.Prelude.{◌≡◌, ◌⊎◌, ◌+◌, ◌*◌, ◌<◌, ◌≤◌, IsTrue, List, OnOk, length};
ghost use Rattle.nvm_base.specs.Units.{units_of};
ghost use Rattle.inode_table.specs.Slots.{pages_at};
ghost use Rattle.page_table.specs.Pages.{used_pages};
ghost use Rattle.nvm_model.specs.Lines.{AreGood};
ghost use Rattle.word_log.specs.Changes.{commit_calls, commit_persists};
ghost use Rattle.word_tables.specs.Layout.{meta_lines};
ghost use Rattle.file_pages.specs.Fresh.{AreFresh};
ghost use Rattle.line_device.specs.Panel.{Runs};
ghost use Rattle.line_words.specs.Ending.{ended};
ghost use Rattle.nvm_model.specs.Files.{OneFileLeft, on_pages};
ghost use Rattle.nvm_model.specs.Listing.{change_file, file_name};
ghost use Rattle.nvm_model.specs.Page.{Page, fill};
ghost use Rattle.nvm_model.specs.Storage.{File};
ghost use Rattle.page_lines.specs.Turns.{WritesBackOthers};
ghost use Rattle.word_tables.specs.Bounds.{IsValid};
ghost use Rattle.file_journal.specs.Area.{IsOfFiles};
ghost use Rattle.file_journal.specs.Object.{JournalServes};
ghost use Rattle.file_journal.specs.Standing.{EachReadsFiles, FilesStand};
ghost use Rattle.file_journal.specs.Tables.{AreTables, known_units};
ghost use Rattle.file_pages.specs.Checked.{IsCovered, IsStorable};
ghost use Rattle.file_pages.specs.Costs.{fill_calls, fill_persists};
ghost use Rattle.file_pages.specs.Object.{IsFileAt, KeepsMarks};

use crate::fresh::{clear_units, name_units, take_units};
use file_journal::Journal;
use line_device::Lines;
use line_words::Interruption;
use nvm_base::{PAGE, Span, pages_of};

/// Makes the holes that a span touches pages of zeros: all of them appear together, once their zeros are durable.
pub(crate) fn fill<L: Lines>(
    journal: &mut Journal,
    dev: &mut L,
    inode: u64,
    span: Span,
) -> Result<(), Interruption>
    requires serves { JournalServes journal.old (L.state dev.old).medium }
    requires settled { IsTrue journal.old.settled }
    requires valid { IsValid journal.old.geo }
    requires tables { AreTables journal.old.geo.fpages journal.old.tables }
    requires on { IsTrue (L.state dev.old).panel.power }
    requires inode { inode < 64 }
    requires few { span.len ≤ 65536 }
    requires storable { IsStorable journal.old (L.state dev.old).medium inode span }
    requires held { known_units journal.old.tables.pages journal.old.free ≡ journal.old.geo.fpages }
    ensures ok { OnOk result ((files : List File) (file : File) → IsFileAt journal.old (L.state dev.old).medium inode files file
        → FilesStand journal.old.geo (L.state dev.new).medium journal.new.tables
        (change_file file_name file.name (on_pages (λ pages. fill span.start span.len pages)) files)) }
    ensures images { (files : List File) (file : File) → IsFileAt journal.old (L.state dev.old).medium inode files file
        → EachReadsFiles journal.old.geo (L.state dev.new).medium
        (OneFileLeft file.name (λ old left. (left ≡ old) ⊎ (left ≡ fill span.start span.len old)) files) }
    ensures outside { WritesBackOthers (IsOfFiles journal.old.geo) (L.state dev.old).medium (L.state dev.new).medium }
    ensures metadata { KeepsMarks journal.old.geo (L.state dev.old).medium (L.state dev.new).medium }
    ensures covered { OnOk result (IsCovered journal.new (L.state dev.new).medium inode span) }
    ensures serves { OnOk result (JournalServes journal.new (L.state dev.new).medium) }
    ensures tables { OnOk result (AreTables journal.new.geo.fpages journal.new.tables) }
    ensures files { OnOk result (journal.new.tables.files ≡ journal.old.tables.files) }
    ensures object { (journal.new.geo ≡ journal.old.geo) × (OnOk result (IsTrue journal.new.settled)) }
    ensures held { OnOk result (known_units journal.new.tables.pages journal.new.free ≡ journal.new.geo.fpages) }
    ensures runs { Runs (fill_calls journal.old inode span.start span.len) (fill_persists journal.old inode span.start span.len)
        (ended result) (L.state dev.old).panel (L.state dev.new).panel }
{
    let pages = pages_of(span);
    let fresh = take_units(journal, inode, pages);
    if fresh.is_empty() {
        return Ok(());
    }
    fill_with(journal, dev, inode, span, pages, fresh.as_slice())
}

// The same with units that were taken for the holes.
fn fill_with<L: Lines>(
    journal: &mut Journal,
    dev: &mut L,
    inode: u64,
    span: Span,
    pages: Span,
    fresh: &[(u64, Option<u64>)],
) -> Result<(), Interruption>
    requires serves { JournalServes journal.old (L.state dev.old).medium }
    requires settled { IsTrue journal.old.settled }
    requires valid { IsValid journal.old.geo }
    requires tables { AreTables journal.old.geo.fpages journal.old.tables }
    requires on { IsTrue (L.state dev.old).panel.power }
    requires inode { inode < 64 }
    requires some { 1 ≤ span.len }
    requires pages { pages ≡ units_of PAGE span }
    requires few { pages.len ≤ 17 }
    requires within { pages.start + pages.len ≤ pages_at journal.old.tables.files inode }
    requires room { used_pages journal.old.tables.pages + length fresh.now + 16 ≤ journal.old.geo.fpages }
    requires good { AreGood (L.state dev.old).medium (meta_lines journal.old.geo) }
    requires covered { IsCovered journal.old (L.state dev.old).medium inode span }
    requires fresh { AreFresh journal.old inode pages.start pages.len fresh.now journal.old.free }
    ensures ok { OnOk result ((files : List File) (file : File) → IsFileAt journal.old (L.state dev.old).medium inode files file
        → FilesStand journal.old.geo (L.state dev.new).medium journal.new.tables
        (change_file file_name file.name (on_pages (λ pages. fill span.start span.len pages)) files)) }
    ensures images { (files : List File) (file : File) → IsFileAt journal.old (L.state dev.old).medium inode files file
        → EachReadsFiles journal.old.geo (L.state dev.new).medium
        (OneFileLeft file.name (λ old left. (left ≡ old) ⊎ (left ≡ fill span.start span.len old)) files) }
    ensures outside { WritesBackOthers (IsOfFiles journal.old.geo) (L.state dev.old).medium (L.state dev.new).medium }
    ensures metadata { KeepsMarks journal.old.geo (L.state dev.old).medium (L.state dev.new).medium }
    ensures covered { OnOk result (IsCovered journal.new (L.state dev.new).medium inode span) }
    ensures serves { OnOk result (JournalServes journal.new (L.state dev.new).medium) }
    ensures tables { OnOk result (AreTables journal.new.geo.fpages journal.new.tables) }
    ensures files { OnOk result (journal.new.tables.files ≡ journal.old.tables.files) }
    ensures object { (journal.new.geo ≡ journal.old.geo) × (OnOk result (IsTrue journal.new.settled)) }
    ensures known { OnOk result (known_units journal.new.tables.pages journal.new.free
        ≡ known_units journal.old.tables.pages journal.old.free + length fresh.now) }
    ensures runs { Runs (64 * length fresh.now + commit_calls (5 + length fresh.now)) (commit_persists (5 + length fresh.now))
        (ended result) (L.state dev.old).panel (L.state dev.new).panel }
{
    clear_units(journal.geometry(), dev, fresh)?;
    name_units(journal, dev, inode, fresh)
}
