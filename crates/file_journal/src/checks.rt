// When calls are refused. None of this makes a counted call.
ghost use Rattle.std.specs.Prelude.{◌≡◌, ◌≤◌, ◌<◌, IfOk, None, OnOk, Some, ℕ};
ghost use Rattle.line_words.specs.Told.{Checks};
ghost use Rattle.nvm_model.specs.Lines.{AreGood};
ghost use Rattle.word_tables.specs.Bounds.{IsValid};
ghost use Rattle.word_tables.specs.Layout.{meta_lines, total_lines};
ghost use Rattle.inode_table.specs.Slots.{IsNamed, IsTable, MayTake, free_inode, inode_of};
ghost use Rattle.file_journal.specs.Calls.{FindsInode};
ghost use Rattle.file_journal.specs.Object.{JournalServes};
ghost use Rattle.file_journal.specs.Refusals.{create_refusal, delete_refusal, exists_refusal, journal_says, limit_refusal, metadata_refusal, missing_refusal, rename_refusal, resize_refusal, slots_refusal};

use crate::{Journal, JournalFault};
use line_device::Lines;
use line_words::first_bad;
use nvm_base::{LineNo, Name};
use page_table::INODE_PAGES;
use word_tables::Geometry;

impl Journal {
    // The inode of a file to be made.
    pub(crate) fn check_create<L: Lines>(
        &self,
        dev: &L,
        name: &Name,
        pages: u64,
    ) -> Result<u64, JournalFault>
        requires serves { JournalServes self.now (L.state dev.now).medium }
        ensures finds { FindsInode self.now (L.state dev.now).medium result
            (create_refusal self.now (L.state dev.now).medium name.now pages) (free_inode self.now.tables.files) }
        ensures may { IfOk result (λ inode. MayTake self.now.tables.files inode name.now) }
        ensures few { OnOk result (pages ≤ 256) }
    {
        self.check_unnamed(name)?;
        check_limit(pages)?;
        let inode = self.free_slot()?;
        check_meta(dev, self.geo)?;
        Ok(inode)
    }

    // The inode of a file to be deleted.
    pub(crate) fn check_delete<L: Lines>(&self, dev: &L, name: &Name) -> Result<u64, JournalFault>
        requires serves { JournalServes self.now (L.state dev.now).medium }
        ensures finds { FindsInode self.now (L.state dev.now).medium result
            (delete_refusal self.now (L.state dev.now).medium name.now) (inode_of name.now self.now.tables.files) }
        ensures table { IsTable self.now.tables.files }
    {
        let inode = self.named(name)?;
        check_meta(dev, self.geo)?;
        Ok(inode)
    }

    // The inode of a file to be renamed.
    pub(crate) fn check_rename<L: Lines>(
        &self,
        dev: &L,
        name: &Name,
        to: &Name,
    ) -> Result<u64, JournalFault>
        requires serves { JournalServes self.now (L.state dev.now).medium }
        ensures finds { FindsInode self.now (L.state dev.now).medium result
            (rename_refusal self.now (L.state dev.now).medium name.now to.now) (inode_of name.now self.now.tables.files) }
        ensures may { IfOk result (λ inode. MayTake self.now.tables.files inode to.now) }
        ensures table { IsTable self.now.tables.files }
    {
        let inode = self.named(name)?;
        self.check_unnamed(to)?;
        check_meta(dev, self.geo)?;
        Ok(inode)
    }

    // The inode of a file that is to have so many pages.
    pub(crate) fn check_resize<L: Lines>(
        &self,
        dev: &L,
        name: &Name,
        pages: u64,
    ) -> Result<u64, JournalFault>
        requires serves { JournalServes self.now (L.state dev.now).medium }
        ensures finds { FindsInode self.now (L.state dev.now).medium result
            (resize_refusal self.now (L.state dev.now).medium name.now pages) (inode_of name.now self.now.tables.files) }
        ensures may { IfOk result (λ inode. MayTake self.now.tables.files inode name.now) }
        ensures few { OnOk result (pages ≤ 256) }
        ensures table { IsTable self.now.tables.files }
    {
        let inode = self.named(name)?;
        check_limit(pages)?;
        check_meta(dev, self.geo)?;
        Ok(inode)
    }

    // The inode of that name, which there has to be.
    fn named(&self, name: &Name) -> Result<u64, JournalFault>
        ensures refused { Checks journal_says (missing_refusal self.now name.now) result }
        ensures inode { IfOk result (λ inode. inode_of name.now self.now.tables.files ≡ Some inode) }
        ensures named { IfOk result (λ inode. IsNamed self.now.tables.files inode name.now) }
        ensures within { IfOk result (λ inode. inode < 64) }
        ensures table { IsTable self.now.tables.files }
    {
        match self.inodes.find(name) {
            Some(inode) => Ok(inode),
            None => Err(JournalFault::Missing),
        }
    }

    // Whether there is no file of that name.
    fn check_unnamed(&self, name: &Name) -> Result<(), JournalFault>
        ensures refused { Checks journal_says (exists_refusal self.now name.now) result }
        ensures unnamed { OnOk result ((inode : ℕ) → IsNamed self.now.tables.files inode name.now → ⊥) }
    {
        match self.inodes.find(name) {
            Some(_) => Err(JournalFault::Exists),
            None => Ok(()),
        }
    }

    // A free inode, of which there has to be one.
    fn free_slot(&self) -> Result<u64, JournalFault>
        ensures refused { Checks journal_says (slots_refusal self.now) result }
        ensures inode { IfOk result (λ inode. free_inode self.now.tables.files ≡ Some inode) }
        ensures within { IfOk result (λ inode. inode < 64) }
    {
        match self.inodes.free_slot() {
            Some(inode) => Ok(inode),
            None => Err(JournalFault::Slots),
        }
    }
}

// Whether a file may have so many pages.
fn check_limit(pages: u64) -> Result<(), JournalFault>
    ensures refused { Checks journal_says (limit_refusal pages) result }
    ensures few { OnOk result (pages ≤ 256) }
{
    if pages > INODE_PAGES {
        return Err(JournalFault::Limit);
    }
    Ok(())
}

/// Whether no line of metadata is bad.
pub(crate) fn check_meta<L: Lines>(dev: &L, geo: Geometry) -> Result<(), JournalFault>
    requires valid { IsValid geo }
    requires lines { (L.state dev.now).medium.count ≡ total_lines geo }
    ensures refused { Checks journal_says (metadata_refusal geo (L.state dev.now).medium) result }
    ensures good { OnOk result (AreGood (L.state dev.now).medium (meta_lines geo)) }
{
    match first_bad(dev, 0, geo.meta_lines()) {
        Some(line) => Err(JournalFault::Meta(LineNo(line))),
        None => Ok(()),
    }
}
