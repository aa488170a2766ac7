// What is known of files without the device.
ghost use Rattle.std.specs.Prelude.{◌≡◌, ◌↔◌, ◌<◌, ℕ, IfSome, IsNone, None, Some, slice_index_or};
ghost use Rattle.inode_table.specs.Slots.{IsNamed, inode_of, pages_at};
ghost use Rattle.page_table.specs.Pages.{used_pages};
ghost use Rattle.page_table.specs.Runs.{IsRun, run_of};
ghost use Rattle.word_tables.specs.Bounds.{IsValid};
ghost use Rattle.word_tables.specs.Layout.{file_line};
ghost use Rattle.file_journal.specs.Tables.{AreTables, unit_at};

use crate::Journal;
use nvm_base::{FileEntry, LineNo, Name};
use page_table::Run;
use word_tables::Geometry;

impl Journal {
    /// Whether nothing stopped the last call. A journal that is not settled has to be mounted again.
    pub fn settled(&self) -> bool
        ensures { result ≡ self.now.settled }
    {
        self.settled
    }

    pub fn geometry(&self) -> Geometry
        ensures geometry { result ≡ self.now.geo }
        ensures valid { IsValid self.now.geo }
    {
        self.geo
    }

    /// The inode of the file of that name.
    pub fn find(&self, name: &Name) -> Option<u64>
        ensures value { result ≡ inode_of name.now self.now.tables.files }
        ensures named { IfSome result (λ inode. IsNamed self.now.tables.files inode name.now) }
        ensures within { IfSome result (λ inode. inode < 64) }
        ensures none { IsNone result ↔ ((inode : ℕ) → IsNamed self.now.tables.files inode name.now → ⊥) }
    {
        self.inodes.find(name)
    }

    /// How many pages an inode has; 0 where it is free.
    pub fn pages(&self, inode: u64) -> u64
        requires { inode < 64 }
        ensures pages { result ≡ pages_at self.now.tables.files inode }
        ensures tables { AreTables self.now.geo.fpages self.now.tables }
    {
        self.inodes.pages(inode)
    }

    /// The unit of a page: None where it is a hole, past the page count, or a free inode's.
    pub fn unit(&self, inode: u64, page: u64) -> Option<u64>
        requires inode { inode < 64 }
        requires page { page < 256 }
        ensures unit { result ≡ unit_at self.now.tables inode page }
        ensures tables { AreTables self.now.geo.fpages self.now.tables }
    {
        self.table.get(inode, page)
    }

    /// The run of a page: the pages around it that lie on units one after the other. None as above.
    pub fn run(&self, inode: u64, page: u64) -> Option<Run>
        requires inode { inode < 64 }
        requires page { page < 256 }
        ensures run { result ≡ run_of self.now.tables.pages inode page }
        ensures pages { IfSome result (IsRun self.now.tables.pages inode page) }
        ensures none { IsNone result ↔ (unit_at self.now.tables inode page ≡ None) }
        ensures tables { AreTables self.now.geo.fpages self.now.tables }
    {
        self.table.run(inode, page)
    }

    /// The first of the 64 lines of a page: None where it is a hole, past the page count, or a free inode's.
    pub fn line_of(&self, inode: u64, page: u64) -> Option<LineNo>
        requires inode { inode < 64 }
        requires page { page < 256 }
        ensures line { IfSome result (λ line. (unit : ℕ) × (unit_at self.now.tables inode page ≡ Some unit)
            × (line.0 ≡ file_line self.now.geo unit)) }
        ensures none { IsNone result ↔ (unit_at self.now.tables inode page ≡ None) }
        ensures tables { AreTables self.now.geo.fpages self.now.tables }
    {
        match self.unit(inode, page) {
            Some(unit) => Some(LineNo(self.geo.file_line(unit))),
            None => None,
        }
    }

    /// How many pages are no holes.
    pub fn used(&self) -> u64
        ensures used { result ≡ used_pages self.now.tables.pages }
        ensures tables { AreTables self.now.geo.fpages self.now.tables }
    {
        self.table.used()
    }

    // The file that an inode is.
    pub(crate) fn slot(&self, inode: u64) -> Option<FileEntry>
        requires { inode < 64 }
        ensures { result ≡ slice_index_or self.now.tables.files inode None }
    {
        match self.inodes.name(inode) {
            Some(name) => Some(FileEntry {
                name,
                pages: self.inodes.pages(inode),
            }),
            None => None,
        }
    }
}
