// Files made, deleted, renamed and resized.
ghost use Rattle.std.specs.Prelude.{◌≡◌, ◌+◌, ◌-◌, ◌<◌, IfSome, true};
ghost use Rattle.inode_table.specs.Slots.{pages_at, pages_of};
ghost use Rattle.nvm_base.specs.Names.{is_name};
ghost use Rattle.nvm_model.specs.Lines.{AreGood};
ghost use Rattle.word_tables.specs.Layout.{meta_lines};
ghost use Rattle.file_journal.specs.Calls.{ChangesFiles, IsReady, MaySet, Works};
ghost use Rattle.file_journal.specs.Changes.{created, deleted, renamed, replaced, resized};
ghost use Rattle.file_journal.specs.Refusals.{create_refusal, delete_refusal, rename_refusal, resize_refusal};

use crate::words::holes;
use crate::{Journal, JournalFault};
use line_device::Lines;
use line_words::Interruption;
use nvm_base::{FileEntry, Name};

impl Journal {
    /// Makes a file of that name and a number of pages, which are holes.
    pub fn create<L: Lines>(
        &mut self,
        dev: &mut L,
        name: &Name,
        pages: u64,
    ) -> Result<(), JournalFault>
        requires ready { IsReady self.old (L.state dev.old) }
        ensures changes { ChangesFiles L.state self.old self.new dev.old dev.new result
            (create_refusal self.old (L.state dev.old).medium name.now pages) (created name.now pages self.old.tables) 0 5 }
    {
        let inode = self.check_create(dev, name, pages)?;
        let _is_name = name.bytes();
        let file = FileEntry { name: *name, pages };
        self.replace(dev, inode, &Some(file))?;
        Ok(())
    }

    /// Deletes the file of that name, and gives its units back.
    pub fn delete<L: Lines>(&mut self, dev: &mut L, name: &Name) -> Result<(), JournalFault>
        requires ready { IsReady self.old (L.state dev.old) }
        ensures changes { ChangesFiles L.state self.old self.new dev.old dev.new result
            (delete_refusal self.old (L.state dev.old).medium name.now) (deleted name.now self.old.tables) 0 261 }
    {
        let inode = self.check_delete(dev, name)?;
        self.replace(dev, inode, &None)?;
        Ok(())
    }

    /// Gives a file another name.
    pub fn rename<L: Lines>(
        &mut self,
        dev: &mut L,
        name: &Name,
        to: &Name,
    ) -> Result<(), JournalFault>
        requires ready { IsReady self.old (L.state dev.old) }
        ensures changes { ChangesFiles L.state self.old self.new dev.old dev.new result
            (rename_refusal self.old (L.state dev.old).medium name.now to.now) (renamed name.now to.now self.old.tables) 0 5 }
    {
        let inode = self.check_rename(dev, name, to)?;
        let _is_name = to.bytes();
        let file = FileEntry {
            name: *to,
            pages: self.pages(inode),
        };
        self.replace(dev, inode, &Some(file))?;
        Ok(())
    }

    /// Gives a file a number of pages: new ones are holes, and the units of those that are cut are given back.
    pub fn resize<L: Lines>(
        &mut self,
        dev: &mut L,
        name: &Name,
        pages: u64,
    ) -> Result<(), JournalFault>
        requires ready { IsReady self.old (L.state dev.old) }
        ensures changes { ChangesFiles L.state self.old self.new dev.old dev.new result
            (resize_refusal self.old (L.state dev.old).medium name.now pages) (resized name.now pages self.old.tables) 0 261 }
    {
        let inode = self.check_resize(dev, name, pages)?;
        let _is_name = name.bytes();
        let file = FileEntry { name: *name, pages };
        self.replace(dev, inode, &Some(file))?;
        Ok(())
    }

    // Makes an inode that slot, and its pages past the slot's count holes.
    fn replace<L: Lines>(
        &mut self,
        dev: &mut L,
        inode: u64,
        slot: &Option<FileEntry>,
    ) -> Result<(), Interruption>
        requires ready { IsReady self.old (L.state dev.old) }
        requires good { AreGood (L.state dev.old).medium (meta_lines self.old.geo) }
        requires inode { inode < 64 }
        requires set { MaySet self.old.tables.files inode slot.now }
        requires named { IfSome slot.now (λ file. is_name file.name ≡ true) }
        ensures works { Works L.state self.old self.new dev.old dev.new result (replaced inode slot.now self.old.tables) 0
            (5 + (pages_at self.old.tables.files inode - pages_of slot.now)) }
    {
        let before = self.inodes.pages(inode);
        let after = pages_of(slot);
        let cut = holes(after, before.saturating_sub(after));
        self.change(dev, inode, slot, cut.as_slice())
    }
}

// How many pages a slot has.
fn pages_of(slot: &Option<FileEntry>) -> u64
    ensures { result ≡ pages_of slot.now }
{
    match slot {
        Some(file) => file.pages,
        None => 0,
    }
}
