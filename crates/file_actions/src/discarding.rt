// Pages that become holes.
ghost use Rattle.std.specs.Prelude.{◌≡◌, ◌⊎◌, ◌+◌, ◌≤◌, ◌<◌, IsTrue, List, OnOk};
ghost use Rattle.std.specs.Result.{is_ok};
ghost use Rattle.line_device.specs.Panel.Outcome.{went};
ghost use Rattle.line_device.specs.Panel.{Runs};
ghost use Rattle.line_words.specs.Ending.{ended};
ghost use Rattle.line_words.specs.Words.{WritesBackOutside};
ghost use Rattle.line_words.specs.Told.{Answers, Checks, OnRefused, OnWorked, is_done, outcome_by};
ghost use Rattle.word_log.specs.Area.{IsOf};
ghost use Rattle.word_log.specs.Changes.{commit_calls, commit_persists};
ghost use Rattle.word_tables.specs.Bounds.{IsValid};
ghost use Rattle.word_tables.specs.Layout.{meta_lines};
ghost use Rattle.inode_table.specs.Slots.{pages_at};
ghost use Rattle.nvm_model.specs.Files.{OneFileLeft, on_pages};
ghost use Rattle.nvm_model.specs.Lines.{AreGood};
ghost use Rattle.nvm_model.specs.Listing.{change_file, file_name};
ghost use Rattle.nvm_model.specs.Page.{discard};
ghost use Rattle.nvm_model.specs.Storage.{File};
ghost use Rattle.page_lines.specs.Turns.{WritesBackOthers};
ghost use Rattle.file_journal.specs.Area.{IsOfFiles, file_area};
ghost use Rattle.file_journal.specs.Changes.{holes, switched};
ghost use Rattle.file_journal.specs.Object.{JournalServes, KeepsUnits};
ghost use Rattle.file_journal.specs.Standing.{EachReadsFiles, FilesStand};
ghost use Rattle.file_journal.specs.Tables.{AreTables, known_units};
ghost use Rattle.file_pages.specs.Object.{IsFileAt, KeepsMarks, PagesServe, is_settled};
ghost use Rattle.file_actions.specs.Refusals.{action_says, discard_refusal, pages_refusal};

use crate::ActionFault;
use crate::checks::check_meta;
use crate::switching::switch;
use arrayvec::ArrayVec;
use file_journal::Journal;
use file_pages::{FilePages, ends_past};
use line_device::Lines;
use line_words::Interruption;
use nvm_base::Span;

// A page of a file, and no unit, for as many as a file may have.
type Switches = ArrayVec<(u64, Option<u64>), 256>;

/// Makes pages of a file holes: wherever the power goes, all of them or none.
pub fn discard<L: Lines>(
    dev: &mut L,
    files: &mut FilePages,
    inode: u64,
    pages: Span,
) -> Result<(), ActionFault>
    requires serves { PagesServe files.old (L.state dev.old).medium }
    requires settled { IsTrue (is_settled files.old) }
    requires on { IsTrue (L.state dev.old).panel.power }
    requires inode { inode < 64 }
    ensures refused { (listed : List File) (file : File) → IsFileAt files.old.journal (L.state dev.old).medium inode listed file
        → Answers action_says (discard_refusal files.old.journal (L.state dev.old).medium file.pages pages) result }
    ensures untouched { OnRefused action_says result ((files.new ≡ files.old) × (dev.new ≡ dev.old)) }
    ensures ok { OnOk result ((listed : List File) (file : File) → IsFileAt files.old.journal (L.state dev.old).medium inode listed file
        → FilesStand files.old.journal.geo (L.state dev.new).medium files.new.journal.tables
        (change_file file_name file.name (on_pages (discard pages.start pages.len)) listed)) }
    ensures images { OnWorked action_says result ((listed : List File) (file : File)
        → IsFileAt files.old.journal (L.state dev.old).medium inode listed file
        → EachReadsFiles files.old.journal.geo (L.state dev.new).medium
        (OneFileLeft file.name (λ old left. (left ≡ old) ⊎ (left ≡ discard pages.start pages.len old)) listed)) }
    ensures beside { WritesBackOutside (IsOf (file_area files.old.journal.geo)) (L.state dev.old).medium (L.state dev.new).medium }
    ensures outside { WritesBackOthers (IsOfFiles files.old.journal.geo) (L.state dev.old).medium (L.state dev.new).medium }
    ensures metadata { KeepsMarks files.old.journal.geo (L.state dev.old).medium (L.state dev.new).medium }
    ensures serves { IsTrue (is_settled files.new) → PagesServe files.new (L.state dev.new).medium }
    ensures switched { OnOk result (files.new.journal.tables ≡ switched inode (holes pages.start pages.len) files.old.journal.tables) }
    ensures tables { OnOk result (AreTables files.new.journal.geo.fpages files.new.journal.tables) }
    ensures files { OnOk result (files.new.journal.tables.files ≡ files.old.journal.tables.files) }
    ensures object { (files.new.journal.geo ≡ files.old.journal.geo) × (is_settled files.new ≡ is_done (outcome_by action_says result)) }
    ensures held { IsTrue (is_settled files.new)
        → known_units files.new.journal.tables.pages files.new.journal.free ≡ known_units files.old.journal.tables.pages files.old.journal.free }
    ensures units { OnOk result (KeepsUnits 0 files.old.journal files.new.journal) }
    ensures runs { Runs (commit_calls (5 + pages.len)) (commit_persists (5 + pages.len)) (outcome_by action_says result) (L.state dev.old).panel (L.state dev.new).panel }
{
    check_discard(files.journal(), dev, inode, pages)?;
    make_holes(dev, files, inode, pages)?;
    Ok(())
}

// Makes pages of a file holes by one commit.
fn make_holes<L: Lines>(
    dev: &mut L,
    files: &mut FilePages,
    inode: u64,
    pages: Span,
) -> Result<(), Interruption>
    requires serves { PagesServe files.old (L.state dev.old).medium }
    requires settled { IsTrue (is_settled files.old) }
    requires on { IsTrue (L.state dev.old).panel.power }
    requires inode { inode < 64 }
    requires within { pages.start + pages.len ≤ pages_at files.old.journal.tables.files inode }
    requires good { AreGood (L.state dev.old).medium (meta_lines files.old.journal.geo) }
    requires valid { IsValid files.old.journal.geo }
    requires tables { AreTables files.old.journal.geo.fpages files.old.journal.tables }
    ensures ok { OnOk result ((listed : List File) (file : File) → IsFileAt files.old.journal (L.state dev.old).medium inode listed file
        → FilesStand files.old.journal.geo (L.state dev.new).medium files.new.journal.tables
        (change_file file_name file.name (on_pages (discard pages.start pages.len)) listed)) }
    ensures images { (listed : List File) (file : File) → IsFileAt files.old.journal (L.state dev.old).medium inode listed file
        → EachReadsFiles files.old.journal.geo (L.state dev.new).medium
        (OneFileLeft file.name (λ old left. (left ≡ old) ⊎ (left ≡ discard pages.start pages.len old)) listed) }
    ensures beside { WritesBackOutside (IsOf (file_area files.old.journal.geo)) (L.state dev.old).medium (L.state dev.new).medium }
    ensures outside { WritesBackOthers (IsOfFiles files.old.journal.geo) (L.state dev.old).medium (L.state dev.new).medium }
    ensures metadata { KeepsMarks files.old.journal.geo (L.state dev.old).medium (L.state dev.new).medium }
    ensures serves { OnOk result (PagesServe files.new (L.state dev.new).medium) }
    ensures switched { OnOk result (files.new.journal.tables ≡ switched inode (holes pages.start pages.len) files.old.journal.tables) }
    ensures tables { OnOk result (AreTables files.new.journal.geo.fpages files.new.journal.tables) }
    ensures files { OnOk result (files.new.journal.tables.files ≡ files.old.journal.tables.files) }
    ensures object { (files.new.journal.geo ≡ files.old.journal.geo) × (is_settled files.new ≡ is_ok result) }
    ensures units { OnOk result (KeepsUnits 0 files.old.journal files.new.journal) }
    ensures runs { Runs (commit_calls (5 + pages.len)) (commit_persists (5 + pages.len)) (ended result) (L.state dev.old).panel (L.state dev.new).panel }
{
    let _size = files.journal().pages(inode);
    let switches = holes(pages);
    switch(dev, files, inode, switches.as_slice())
}

// A switch to no unit for each of these pages.
fn holes(pages: Span) -> Switches
    requires { pages.start + pages.len ≤ 256 }
    ensures { result.items ≡ holes pages.start pages.len }
{
    let mut switches = Switches::new();
    for page in pages.start..pages.start + pages.len {
        switches.push((page, None));
    }
    switches
}

// Whether pages of a file can be made holes.
fn check_discard<L: Lines>(
    journal: &Journal,
    dev: &L,
    inode: u64,
    pages: Span,
) -> Result<(), ActionFault>
    requires serves { JournalServes journal.now (L.state dev.now).medium }
    requires inode { inode < 64 }
    ensures refused { (listed : List File) (file : File) → IsFileAt journal.now (L.state dev.now).medium inode listed file
        → Checks action_says (discard_refusal journal.now (L.state dev.now).medium file.pages pages) result }
    ensures went { outcome_by action_says result ≡ went }
    ensures within { OnOk result (pages.start + pages.len ≤ pages_at journal.now.tables.files inode) }
    ensures good { OnOk result (AreGood (L.state dev.now).medium (meta_lines journal.now.geo)) }
    ensures tables { AreTables journal.now.geo.fpages journal.now.tables }
    ensures valid { IsValid journal.now.geo }
{
    let geo = journal.geometry();
    check_pages(journal.pages(inode), pages)?;
    check_meta(dev, geo)
}

// Whether a file of so many pages has all of these, and there is at least one.
fn check_pages(size: u64, pages: Span) -> Result<(), ActionFault>
    ensures refused { Checks action_says (pages_refusal size pages) result }
    ensures within { OnOk result (pages.start + pages.len ≤ size) }
{
    if ends_past(size, pages) {
        return Err(ActionFault::Range);
    }
    if pages.len == 0 {
        return Err(ActionFault::Length);
    }
    Ok(())
}
