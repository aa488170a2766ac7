// Units for pages to come, and pages that are switched to them.
ghost use Rattle.std.specs.Prelude.{◌≡◌, ◌+◌, ◌↔◌, ◌<◌, ◌≤◌, IfSome, IsNone, MatchOption, OnOk, Option, false, length, slice_set, true};
ghost use Rattle.free_pool.specs.Units.{IsFree, IsTaken, free_count};
ghost use Rattle.inode_table.specs.Slots.{pages_at};
ghost use Rattle.line_device.specs.Medium.{Medium};
ghost use Rattle.line_words.specs.Told.{Checks};
ghost use Rattle.page_table.specs.Pages.{used_pages};
ghost use Rattle.file_journal.specs.Calls.{CanSwitch, ChangesFiles, IsReady};
ghost use Rattle.file_journal.specs.Changes.{filled_holes, named_units, switched};
ghost use Rattle.file_journal.specs.Object.{JournalServes};
ghost use Rattle.file_journal.specs.Refusals.{full_refusal, journal_says, switch_refusal};
ghost use Rattle.file_journal.specs.Switches.{AreSwitches, ArePagesOf};
ghost use Rattle.file_journal.specs.Tables.{AreTables, IsVacant};

use crate::checks::check_meta;
use crate::{Journal, JournalFault};
use line_device::Lines;
use page_table::SPARE_UNITS;

impl Journal {
    /// Takes a unit that is no page's and that none holds.
    pub fn take_unit(&mut self) -> Option<u64>
        ensures none { IsNone result ↔ (free_count self.old.free ≡ 0) }
        ensures free { IfSome result (IsFree self.old.free) }
        ensures below { IfSome result (λ unit. unit < self.old.geo.fpages) }
        ensures vacant { IfSome result (IsVacant self.old.tables.pages) }
        ensures after { MatchOption result (self.new ≡ self.old) (λ unit. self.new ≡ record self.old { free = slice_set self.old.free unit false }) }
        ensures serves { (m : Medium) → JournalServes self.old m → JournalServes self.new m }
    {
        self.pool.take()
    }

    /// Gives back a unit that was taken and that no page got.
    pub fn give_unit(&mut self, unit: u64)
        requires taken { IsTaken self.old.free unit }
        requires vacant { IsVacant self.old.tables.pages unit }
        ensures after { self.new ≡ record self.old { free = slice_set self.old.free unit true } }
        ensures serves { (m : Medium) → JournalServes self.old m → JournalServes self.new m }
    {
        self.pool.give(unit);
    }

    /// Gives pages of a file the units that were taken for them, or makes them holes, all together; the units that they leave are
    /// given back.
    pub fn switch_pages<L: Lines>(
        &mut self,
        dev: &mut L,
        inode: u64,
        pages: &[(u64, Option<u64>)],
    ) -> Result<(), JournalFault>
        requires ready { IsReady self.old (L.state dev.old) }
        requires can { CanSwitch self.old.geo.fpages self.old.tables.pages self.old.free inode pages.now }
        requires within { ArePagesOf (pages_at self.old.tables.files inode) pages.now }
        ensures changes { ChangesFiles L.state self.old self.new dev.old dev.new result
            (switch_refusal self.old (L.state dev.old).medium inode pages.now) (switched inode pages.now self.old.tables)
            (named_units pages.now) (5 + length pages.now) }
    {
        self.check_room(inode, pages)?;
        check_meta(dev, self.geo)?;
        let slot = self.slot(inode);
        self.change(dev, inode, &slot, pages)?;
        Ok(())
    }

    // Whether enough units are left for the holes that are filled.
    fn check_room(&self, inode: u64, pages: &[(u64, Option<u64>)]) -> Result<(), JournalFault>
        requires inode { inode < 64 }
        requires switches { AreSwitches self.now.geo.fpages pages.now }
        ensures refused { Checks journal_says (full_refusal self.now inode pages.now) result }
        ensures room { OnOk result (used_pages self.now.tables.pages + filled_holes self.now.tables inode pages.now + 16
            ≤ self.now.geo.fpages) }
        ensures tables { AreTables self.now.geo.fpages self.now.tables }
    {
        let filled = self.filled_holes(inode, pages);
        if self.table.used() + filled > self.geo.fpages - SPARE_UNITS {
            return Err(JournalFault::Full);
        }
        Ok(())
    }

    // How many of the pages are holes and get units.
    fn filled_holes(&self, inode: u64, pages: &[(u64, Option<u64>)]) -> u64
        requires inode { inode < 64 }
        requires switches { AreSwitches self.now.geo.fpages pages.now }
        ensures holes { result ≡ filled_holes self.now.tables inode pages.now }
        ensures few { result ≤ 256 }
    {
        let mut filled = 0;
        for (page, unit) in pages {
            if unit.is_some() && self.unit(inode, *page).is_none() {
                filled += 1;
            }
        }
        filled
    }
}
