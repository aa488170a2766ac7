// One commit of the journal for several pages.
ghost use Rattle.std.specs.Prelude.{◌≡◌, ◌+◌, ◌<◌, IsTrue, None, OnOk, length};
ghost use Rattle.std.specs.Result.{is_ok};
ghost use Rattle.line_device.specs.Panel.{Runs};
ghost use Rattle.line_words.specs.Ending.{ended};
ghost use Rattle.line_words.specs.Told.{refusal_of};
ghost use Rattle.line_words.specs.Told.Told.{Stops};
ghost use Rattle.line_words.specs.Words.{WritesBackOutside};
ghost use Rattle.inode_table.specs.Slots.{pages_at};
ghost use Rattle.word_log.specs.Area.{IsOf};
ghost use Rattle.word_log.specs.Changes.{commit_calls, commit_persists};
ghost use Rattle.file_journal.specs.Area.{file_area};
ghost use Rattle.file_journal.specs.Changes.{named_units, switched};
ghost use Rattle.file_journal.specs.Images.{EachReadsTables, IsEither};
ghost use Rattle.file_journal.specs.Object.{KeepsUnits};
ghost use Rattle.file_journal.specs.Refusals.{journal_says, switch_refusal};
ghost use Rattle.file_journal.specs.Switches.{AreHeld, AreSwitches, ArePagesOf};
ghost use Rattle.file_pages.specs.Object.{PagesServe, is_settled};

use file_journal::JournalFault;
use file_pages::FilePages;
use line_device::Lines;
use line_words::Interruption;

/// Switches pages to units or to none, all of them by one commit. It is known that nothing refuses that.
pub(crate) fn switch<L: Lines>(
    dev: &mut L,
    files: &mut FilePages,
    inode: u64,
    switches: &[(u64, Option<u64>)],
) -> Result<(), Interruption>
    requires serves { PagesServe files.old (L.state dev.old).medium }
    requires settled { IsTrue (is_settled files.old) }
    requires on { IsTrue (L.state dev.old).panel.power }
    requires inode { inode < 64 }
    requires switches { AreSwitches files.old.journal.geo.fpages switches.now }
    requires within { ArePagesOf (pages_at files.old.journal.tables.files inode) switches.now }
    requires held { AreHeld files.old.journal.tables.pages files.old.journal.free switches.now }
    requires unrefused { switch_refusal files.old.journal (L.state dev.old).medium inode switches.now ≡ None }
    ensures ok { OnOk result (files.new.journal.tables ≡ switched inode switches.now files.old.journal.tables) }
    ensures images { EachReadsTables files.old.journal.geo (L.state dev.new).medium
        (IsEither files.old.journal.tables (switched inode switches.now files.old.journal.tables)) }
    ensures outside { WritesBackOutside (IsOf (file_area files.old.journal.geo)) (L.state dev.old).medium (L.state dev.new).medium }
    ensures serves { OnOk result (PagesServe files.new (L.state dev.new).medium) }
    ensures object { (files.new.journal.geo ≡ files.old.journal.geo) × (is_settled files.new ≡ is_ok result) }
    ensures units { OnOk result (KeepsUnits (named_units switches.now) files.old.journal files.new.journal) }
    ensures runs { Runs (commit_calls (5 + length switches.now)) (commit_persists (5 + length switches.now)) (ended result)
        (L.state dev.old).panel (L.state dev.new).panel }
{
    match files.journal_mut().switch_pages(dev, inode, switches) {
        Ok(()) => Ok(()),
        Err(fault) => Err(stop_of(fault)),
    }
}

// What interrupted a change that nothing refused.
fn stop_of(fault: JournalFault) -> Interruption
    requires { refusal_of (journal_says fault) ≡ None }
    ensures { journal_says fault ≡ Stops result }
{
    match fault {
        JournalFault::Device => Interruption::Failed,
        JournalFault::PowerLost => Interruption::PowerLost,
        _ => unreachable!(),
    }
}
