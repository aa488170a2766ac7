// A file made durable.
ghost use Rattle.std.specs.Prelude.{◌≡◌, ◌*◌, ◌<◌, IsTrue, List, OnOk};
ghost use Rattle.line_device.specs.Panel.{Runs};
ghost use Rattle.line_words.specs.Told.{Answers, OnRefused, OnWorked, is_done, outcome_by};
ghost use Rattle.inode_table.specs.Slots.{pages_at};
ghost use Rattle.nvm_model.specs.Files.{OneFileLeft, on_pages};
ghost use Rattle.nvm_model.specs.Interrupted.{MaySyncAll};
ghost use Rattle.nvm_model.specs.Listing.{change_file, file_name};
ghost use Rattle.nvm_model.specs.Storage.{File};
ghost use Rattle.nvm_model.specs.Touched.{persist_spans};
ghost use Rattle.page_lines.specs.Turns.{WritesBackOthers};
ghost use Rattle.file_journal.specs.Area.{IsOfFiles};
ghost use Rattle.file_journal.specs.Standing.{EachReadsFiles, FilesStand};
ghost use Rattle.file_pages.specs.Costs.{lines_there};
ghost use Rattle.file_pages.specs.Object.{IsFileAt, IsFileLine, KeepsMarks, PagesServe, is_settled};
ghost use Rattle.file_actions.specs.Refusals.{action_says, all_bytes, sync_refusal};

use crate::ActionFault;
use file_pages::FilePages;
use line_device::Lines;
use nvm_base::{PAGE, Span};

/// Makes each line of a file durable, but for those of holes. A bad one refuses all of it; a weak one becomes bad.
pub fn sync<L: Lines>(dev: &mut L, files: &mut FilePages, inode: u64) -> Result<(), ActionFault>
    requires serves { PagesServe files.old (L.state dev.old).medium }
    requires settled { IsTrue (is_settled files.old) }
    requires on { IsTrue (L.state dev.old).panel.power }
    requires inode { inode < 64 }
    ensures refused { (listed : List File) (file : File) → IsFileAt files.old.journal (L.state dev.old).medium inode listed file
        → Answers action_says (sync_refusal file.pages) result }
    ensures untouched { OnRefused action_says result ((files.new ≡ files.old) × (dev.new ≡ dev.old)) }
    ensures ok { OnOk result ((listed : List File) (file : File) → IsFileAt files.old.journal (L.state dev.old).medium inode listed file
        → FilesStand files.old.journal.geo (L.state dev.new).medium files.old.journal.tables
        (change_file file_name file.name (on_pages (persist_spans all_bytes)) listed)) }
    ensures images { OnWorked action_says result ((listed : List File) (file : File)
        → IsFileAt files.old.journal (L.state dev.old).medium inode listed file
        → EachReadsFiles files.old.journal.geo (L.state dev.new).medium (OneFileLeft file.name (MaySyncAll all_bytes) listed)) }
    ensures beside { WritesBackOthers (IsFileLine files.old.journal inode) (L.state dev.old).medium (L.state dev.new).medium }
    ensures outside { WritesBackOthers (IsOfFiles files.old.journal.geo) (L.state dev.old).medium (L.state dev.new).medium }
    ensures metadata { KeepsMarks files.old.journal.geo (L.state dev.old).medium (L.state dev.new).medium }
    ensures serves { PagesServe files.new (L.state dev.new).medium }
    ensures object { (files.new.journal ≡ files.old.journal) × (files.new.settled ≡ is_done (outcome_by action_says result)) }
    ensures runs { let lines = lines_there files.old.journal inode 0 (4096 * pages_at files.old.journal.tables.files inode) in
        Runs lines lines (outcome_by action_says result) (L.state dev.old).panel (L.state dev.new).panel }
{
    let pages = files.journal().pages(inode);
    if pages == 0 {
        return Ok(());
    }
    let span = Span {
        start: 0,
        len: PAGE * pages,
    };
    files.persist(dev, inode, span)?;
    Ok(())
}
