// One commit for all the words of a change, and then the same in memory.
ghost use Rattle.std.specs.Prelude.{◌+◌, length};
ghost use Rattle.nvm_model.specs.Lines.{AreGood};
ghost use Rattle.word_tables.specs.Layout.{meta_lines};
ghost use Rattle.file_journal.specs.Calls.{CanSwitch, IsReady, MaySet, Works};
ghost use Rattle.file_journal.specs.Changes.{changed_tables, named_units};
ghost use Rattle.file_journal.specs.Tables.{AreTables};

use crate::Journal;
use crate::assigning::{assign, switch_units};
use crate::words::change_words;
use line_device::Lines;
use line_words::Interruption;
use nvm_base::FileEntry;

impl Journal {
    // Makes an inode that slot and switches its pages, all together or nothing of it.
    pub(crate) fn change<L: Lines>(
        &mut self,
        dev: &mut L,
        inode: u64,
        slot: &Option<FileEntry>,
        switches: &[(u64, Option<u64>)],
    ) -> Result<(), Interruption>
        requires ready { IsReady self.old (L.state dev.old) }
        requires good { AreGood (L.state dev.old).medium (meta_lines self.old.geo) }
        requires set { MaySet self.old.tables.files inode slot.now }
        requires can { CanSwitch self.old.geo.fpages self.old.tables.pages self.old.free inode switches.now }
        requires after { AreTables self.old.geo.fpages (changed_tables inode slot.now switches.now self.old.tables) }
        ensures works { Works L.state self.old self.new dev.old dev.new result (changed_tables inode slot.now switches.now self.old.tables)
            (named_units switches.now) (5 + length switches.now) }
    {
        self.settled = false;
        let words = change_words(self.geo, inode, slot, switches);
        self.log.commit(dev, words.as_slice())?;
        assign(&mut self.inodes, inode, slot);
        switch_units(&mut self.table, &mut self.pool, inode, switches);
        self.settled = true;
        Ok(())
    }
}
