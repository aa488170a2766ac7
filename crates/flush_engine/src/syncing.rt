// One span made durable.
ghost use Rattle.std.specs.Prelude.{◌≡◌, ◌<◌, ◌∷◌, [], All, IsTrue, List, OnOk};
ghost use Rattle.line_device.specs.Panel.{Runs};
ghost use Rattle.line_words.specs.Told.{Answers, OnRefused, OnWorked, is_done, outcome_by};
ghost use Rattle.inode_table.specs.Slots.{pages_at};
ghost use Rattle.nvm_model.specs.Files.{OneFileLeft, on_pages};
ghost use Rattle.nvm_model.specs.Interrupted.{MaySyncAll};
ghost use Rattle.nvm_model.specs.Listing.{change_file, file_name};
ghost use Rattle.nvm_model.specs.Storage.{File};
ghost use Rattle.nvm_model.specs.Touched.{persist_spans};
ghost use Rattle.page_lines.specs.Turns.{WritesBackOthers};
ghost use Rattle.file_journal.specs.Area.{IsOfFiles};
ghost use Rattle.file_journal.specs.Standing.{EachReadsFiles, FilesStand};
ghost use Rattle.file_pages.specs.Object.{IsFileAt, KeepsMarks, PagesServe, is_settled};
ghost use Rattle.flush_engine.specs.Refusals.{flush_refusal, flush_says, flushed};
ghost use Rattle.flush_engine.specs.Spans.{IsSpanned, IsWithin, lines_in};

use crate::{FlushFault, flush};
use file_pages::FilePages;
use line_device::Lines;
use nvm_base::Span;

/// Makes each line of a file durable that the span touches, but for those of holes. A bad one refuses all of it; a weak one
/// becomes bad.
pub fn sync<L: Lines>(
    dev: &mut L,
    files: &mut FilePages,
    inode: u64,
    span: Span,
) -> Result<(), FlushFault>
    requires serves { PagesServe files.old (L.state dev.old).medium }
    requires settled { IsTrue (is_settled files.old) }
    requires on { IsTrue (L.state dev.old).panel.power }
    requires inode { inode < 64 }
    ensures refused { (listed : List File) (file : File) → IsFileAt files.old.journal (L.state dev.old).medium inode listed file
        → Answers flush_says (flush_refusal file.pages (span ∷ [])) result }
    ensures untouched { OnRefused flush_says result ((files.new ≡ files.old) × (dev.new ≡ dev.old)) }
    ensures ok { OnOk result ((listed : List File) (file : File) → IsFileAt files.old.journal (L.state dev.old).medium inode listed file
        → FilesStand files.old.journal.geo (L.state dev.new).medium files.old.journal.tables
        (change_file file_name file.name (on_pages (persist_spans (span ∷ []))) listed)) }
    ensures verify { flushed result ≡ result }
    ensures images { OnWorked flush_says result ((listed : List File) (file : File)
        → IsFileAt files.old.journal (L.state dev.old).medium inode listed file
        → EachReadsFiles files.old.journal.geo (L.state dev.new).medium (OneFileLeft file.name (MaySyncAll (span ∷ [])) listed)) }
    ensures beside { WritesBackOthers (IsSpanned files.old.journal inode (span ∷ [])) (L.state dev.old).medium (L.state dev.new).medium }
    ensures outside { WritesBackOthers (IsOfFiles files.old.journal.geo) (L.state dev.old).medium (L.state dev.new).medium }
    ensures metadata { KeepsMarks files.old.journal.geo (L.state dev.old).medium (L.state dev.new).medium }
    ensures serves { PagesServe files.new (L.state dev.new).medium }
    ensures object { (files.new.journal ≡ files.old.journal) × (files.new.settled ≡ is_done (outcome_by flush_says result)) }
    ensures within { OnOk result (All (IsWithin (pages_at files.old.journal.tables.files inode)) (span ∷ [])) }
    ensures runs { let lines = lines_in files.old.journal inode (span ∷ []) in
        Runs lines lines (outcome_by flush_says result) (L.state dev.old).panel (L.state dev.new).panel }
{
    flush(dev, files, inode, &[span])
}
