// Writes that a cut leaves whole or not at all.
ghost use Rattle.std.specs.Prelude.{◌≡◌, ◌∷◌, ◌⊎◌, ◌<◌, [], IsTrue, List, OnOk, length, sum_by};
ghost use Rattle.std.specs.Result.{is_ok};
ghost use Rattle.line_device.specs.Panel.{Runs};
ghost use Rattle.line_words.specs.Ending.{ended};
ghost use Rattle.line_words.specs.Told.{Answers, OnRefused, OnWorked, is_done, outcome_by};
ghost use Rattle.word_tables.specs.Bounds.{IsValid};
ghost use Rattle.inode_table.specs.Slots.{pages_at};
ghost use Rattle.nvm_base.specs.declared.units.Span.{Span as Stretch};
ghost use Rattle.nvm_model.specs.Files.{OneFileLeft, on_pages};
ghost use Rattle.nvm_model.specs.Listing.{change_file, file_name};
ghost use Rattle.nvm_model.specs.Storage.{File};
ghost use Rattle.page_lines.specs.Turns.{WritesBackOthers};
ghost use Rattle.file_journal.specs.Area.{IsOfFiles};
ghost use Rattle.file_journal.specs.Standing.{EachReadsFiles, FilesStand};
ghost use Rattle.file_journal.specs.Tables.{AreTables, known_units};
ghost use Rattle.file_pages.specs.Object.{IsFileAt, KeepsMarks, PagesServe, is_settled};
ghost use Rattle.file_actions.specs.Checked.{AreWritable};
ghost use Rattle.file_actions.specs.Costs.{write_calls, write_persists};
ghost use Rattle.file_actions.specs.Refusals.{action_says, write_refusal};
ghost use Rattle.file_actions.specs.Rewriting.{pages_touched, rewritten};

use crate::ActionFault;
use crate::checks::check_write;
use crate::preparing::{Switches, write_pages};
use crate::switching::switch;
use file_pages::FilePages;
use line_device::Lines;
use line_words::Interruption;
use nvm_base::Span;

/// Writes ranges of bytes of a file together: wherever the power goes, all have their old bytes or all their new ones. All lines of
/// the pages that they touch are healthy and durable then. A range has its offset and its length, and the bytes of the ranges
/// follow each other.
pub fn atomic_multiwrite<L: Lines>(
    dev: &mut L,
    files: &mut FilePages,
    inode: u64,
    ranges: &[Span],
    bytes: &[u8],
) -> Result<(), ActionFault>
    requires serves { PagesServe files.old (L.state dev.old).medium }
    requires settled { IsTrue (is_settled files.old) }
    requires on { IsTrue (L.state dev.old).panel.power }
    requires inode { inode < 64 }
    requires held { known_units files.old.journal.tables.pages files.old.journal.free ≡ files.old.journal.geo.fpages }
    requires some { 0 < length ranges.now }
    requires bytes { length bytes.now ≡ sum_by (λ (r : Stretch). r.len) ranges.now }
    ensures refused { (listed : List File) (file : File) → IsFileAt files.old.journal (L.state dev.old).medium inode listed file
        → Answers action_says (write_refusal files.old.journal (L.state dev.old).medium file.pages ranges.now) result }
    ensures untouched { OnRefused action_says result ((files.new ≡ files.old) × (dev.new ≡ dev.old)) }
    ensures ok { OnOk result ((listed : List File) (file : File) → IsFileAt files.old.journal (L.state dev.old).medium inode listed file
        → FilesStand files.old.journal.geo (L.state dev.new).medium files.new.journal.tables
        (change_file file_name file.name (on_pages (rewritten ranges.now bytes.now)) listed)) }
    ensures images { OnWorked action_says result ((listed : List File) (file : File)
        → IsFileAt files.old.journal (L.state dev.old).medium inode listed file
        → EachReadsFiles files.old.journal.geo (L.state dev.new).medium
        (OneFileLeft file.name (λ old left. (left ≡ old) ⊎ (left ≡ rewritten ranges.now bytes.now old)) listed)) }
    ensures outside { WritesBackOthers (IsOfFiles files.old.journal.geo) (L.state dev.old).medium (L.state dev.new).medium }
    ensures metadata { KeepsMarks files.old.journal.geo (L.state dev.old).medium (L.state dev.new).medium }
    ensures serves { IsTrue (is_settled files.new) → PagesServe files.new (L.state dev.new).medium }
    ensures tables { OnOk result (AreTables files.new.journal.geo.fpages files.new.journal.tables) }
    ensures files { OnOk result (files.new.journal.tables.files ≡ files.old.journal.tables.files) }
    ensures object { (files.new.journal.geo ≡ files.old.journal.geo) × (is_settled files.new ≡ is_done (outcome_by action_says result)) }
    ensures held { IsTrue (is_settled files.new)
        → known_units files.new.journal.tables.pages files.new.journal.free ≡ files.new.journal.geo.fpages }
    ensures runs { Runs (write_calls (pages_touched ranges.now (pages_at files.old.journal.tables.files inode))) (write_persists (pages_touched ranges.now (pages_at files.old.journal.tables.files inode))) (outcome_by action_says result) (L.state dev.old).panel (L.state dev.new).panel }
{
    check_write(dev, files, inode, ranges)?;
    write_together(dev, files, inode, ranges, bytes)?;
    Ok(())
}

/// Writes bytes of a file: wherever the power goes, they are written wholly or not at all.
pub fn atomic_write<L: Lines>(
    dev: &mut L,
    files: &mut FilePages,
    inode: u64,
    offset: u64,
    bytes: &[u8],
) -> Result<(), ActionFault>
    requires serves { PagesServe files.old (L.state dev.old).medium }
    requires settled { IsTrue (is_settled files.old) }
    requires on { IsTrue (L.state dev.old).panel.power }
    requires inode { inode < 64 }
    requires held { known_units files.old.journal.tables.pages files.old.journal.free ≡ files.old.journal.geo.fpages }
    ensures refused { (listed : List File) (file : File) → IsFileAt files.old.journal (L.state dev.old).medium inode listed file
        → Answers action_says (write_refusal files.old.journal (L.state dev.old).medium file.pages (record { start = offset; len = length bytes.now } ∷ [])) result }
    ensures untouched { OnRefused action_says result ((files.new ≡ files.old) × (dev.new ≡ dev.old)) }
    ensures ok { OnOk result ((listed : List File) (file : File) → IsFileAt files.old.journal (L.state dev.old).medium inode listed file
        → FilesStand files.old.journal.geo (L.state dev.new).medium files.new.journal.tables
        (change_file file_name file.name (on_pages (rewritten (record { start = offset; len = length bytes.now } ∷ []) bytes.now)) listed)) }
    ensures images { OnWorked action_says result ((listed : List File) (file : File)
        → IsFileAt files.old.journal (L.state dev.old).medium inode listed file
        → EachReadsFiles files.old.journal.geo (L.state dev.new).medium
        (OneFileLeft file.name (λ old left. (left ≡ old) ⊎ (left ≡ rewritten (record { start = offset; len = length bytes.now } ∷ []) bytes.now old)) listed)) }
    ensures outside { WritesBackOthers (IsOfFiles files.old.journal.geo) (L.state dev.old).medium (L.state dev.new).medium }
    ensures metadata { KeepsMarks files.old.journal.geo (L.state dev.old).medium (L.state dev.new).medium }
    ensures serves { IsTrue (is_settled files.new) → PagesServe files.new (L.state dev.new).medium }
    ensures tables { OnOk result (AreTables files.new.journal.geo.fpages files.new.journal.tables) }
    ensures files { OnOk result (files.new.journal.tables.files ≡ files.old.journal.tables.files) }
    ensures object { (files.new.journal.geo ≡ files.old.journal.geo) × (is_settled files.new ≡ is_done (outcome_by action_says result)) }
    ensures held { IsTrue (is_settled files.new)
        → known_units files.new.journal.tables.pages files.new.journal.free ≡ files.new.journal.geo.fpages }
    ensures runs { Runs (write_calls (pages_touched (record { start = offset; len = length bytes.now } ∷ []) (pages_at files.old.journal.tables.files inode))) (write_persists (pages_touched (record { start = offset; len = length bytes.now } ∷ []) (pages_at files.old.journal.tables.files inode))) (outcome_by action_says result) (L.state dev.old).panel (L.state dev.new).panel }
{
    let range = Span {
        start: offset,
        len: bytes.len() as u64,
    };
    atomic_multiwrite(dev, files, inode, &[range], bytes)
}

// The same where nothing refuses it.
fn write_together<L: Lines>(
    dev: &mut L,
    files: &mut FilePages,
    inode: u64,
    ranges: &[Span],
    bytes: &[u8],
) -> Result<(), Interruption>
    requires serves { PagesServe files.old (L.state dev.old).medium }
    requires settled { IsTrue (is_settled files.old) }
    requires on { IsTrue (L.state dev.old).panel.power }
    requires inode { inode < 64 }
    requires held { known_units files.old.journal.tables.pages files.old.journal.free ≡ files.old.journal.geo.fpages }
    requires bytes { length bytes.now ≡ sum_by (λ (r : Stretch). r.len) ranges.now }
    requires writable { AreWritable files.old.journal (L.state dev.old).medium inode ranges.now }
    requires tables { AreTables files.old.journal.geo.fpages files.old.journal.tables }
    requires valid { IsValid files.old.journal.geo }
    ensures ok { OnOk result ((listed : List File) (file : File) → IsFileAt files.old.journal (L.state dev.old).medium inode listed file
        → FilesStand files.old.journal.geo (L.state dev.new).medium files.new.journal.tables
        (change_file file_name file.name (on_pages (rewritten ranges.now bytes.now)) listed)) }
    ensures images { (listed : List File) (file : File) → IsFileAt files.old.journal (L.state dev.old).medium inode listed file
        → EachReadsFiles files.old.journal.geo (L.state dev.new).medium
        (OneFileLeft file.name (λ old left. (left ≡ old) ⊎ (left ≡ rewritten ranges.now bytes.now old)) listed) }
    ensures outside { WritesBackOthers (IsOfFiles files.old.journal.geo) (L.state dev.old).medium (L.state dev.new).medium }
    ensures metadata { KeepsMarks files.old.journal.geo (L.state dev.old).medium (L.state dev.new).medium }
    ensures serves { OnOk result (PagesServe files.new (L.state dev.new).medium) }
    ensures tables { OnOk result (AreTables files.new.journal.geo.fpages files.new.journal.tables) }
    ensures files { OnOk result (files.new.journal.tables.files ≡ files.old.journal.tables.files) }
    ensures object { (files.new.journal.geo ≡ files.old.journal.geo) × (is_settled files.new ≡ is_ok result) }
    ensures held { OnOk result (known_units files.new.journal.tables.pages files.new.journal.free ≡ files.new.journal.geo.fpages) }
    ensures runs { Runs (write_calls (pages_touched ranges.now (pages_at files.old.journal.tables.files inode)))
        (write_persists (pages_touched ranges.now (pages_at files.old.journal.tables.files inode)))
        (ended result) (L.state dev.old).panel (L.state dev.new).panel }
{
    let mut switches = Switches::new();
    write_pages(dev, files, inode, ranges, bytes, &mut switches)?;
    switch(dev, files, inode, switches.as_slice())
}
