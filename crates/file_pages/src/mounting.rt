ghost use Rattle.std.specs.Prelude.{◌≡◌, IfOk, IsTrue, true};
ghost use Rattle.line_device.specs.Medium.{last_image};
ghost use Rattle.line_device.specs.Panel.{Runs};
ghost use Rattle.line_words.specs.Told.{outcome_by};
ghost use Rattle.nvm_model.specs.Lines.{AreStrong};
ghost use Rattle.word_log.specs.Leaving.{LeavesLog};
ghost use Rattle.word_tables.specs.Bounds.{IsValid};
ghost use Rattle.word_tables.specs.Layout.{meta_lines, total_lines};
ghost use Rattle.file_journal.specs.Area.{file_area};
ghost use Rattle.file_journal.specs.Mounting.{FindsJournal, journal_mount_says};
ghost use Rattle.file_journal.specs.Reading.{tables_read};
ghost use Rattle.file_journal.specs.Tables.{known_units};
ghost use Rattle.file_pages.specs.Object.{PagesServe, is_settled};

use crate::FilePages;
use file_journal::{Journal, MountFault};
use line_device::Lines;
use std::alloc::Global;
use word_tables::Geometry;

impl FilePages {
    /// Mounts the files of a device: replays the log of their journal where it is open, and reads their tables.
    pub fn mount<L: Lines>(alloc: Global, dev: &mut L, geo: Geometry) -> Result<Self, MountFault>
        requires valid { IsValid geo }
        requires lines { (L.state dev.old).medium.count ≡ total_lines geo }
        requires strong { AreStrong (L.state dev.old).medium (meta_lines geo) }
        requires on { IsTrue (L.state dev.old).panel.power }
        ensures ok { IfOk result (λ files. (files.journal.geo ≡ geo)
            × (files.journal.tables ≡ tables_read geo (last_image (L.state dev.old).medium))) }
        ensures held { IfOk result (λ files. known_units files.journal.tables.pages files.journal.free ≡ geo.fpages) }
        ensures finds { FindsJournal geo (L.state dev.old).medium result }
        ensures leaves { LeavesLog (file_area geo) (L.state dev.old).medium (L.state dev.new).medium }
        ensures serves { IfOk result (λ files. PagesServe files (L.state dev.new).medium) }
        ensures settled { IfOk result (λ files. IsTrue (is_settled files)) }
        ensures runs { Runs 5387 2456 (outcome_by journal_mount_says result) (L.state dev.old).panel (L.state dev.new).panel }
    {
        let journal = Journal::mount(alloc, dev, geo)?;
        Ok(FilePages::from(journal))
    }

    /// The files of a journal that was mounted.
    pub fn from(journal: Journal) -> FilePages
        ensures { result ≡ record { journal = journal; settled = true } }
    {
        FilePages {
            journal,
            settled: true,
        }
    }
}
