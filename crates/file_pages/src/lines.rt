// Where the lines of a file's pages lie.
ghost use Rattle.std.specs.Prelude.{◌≡◌, ◌/◌, ◌<◌, ℕ, length, true};
ghost use Rattle.page_lines.specs.Stretches.{IsStretchOf, has_line};
ghost use Rattle.inode_table.specs.Slots.{pages_at};
ghost use Rattle.file_pages.specs.Object.{file_place, unit_place, units_of};

use file_journal::Journal;
use nvm_base::PAGE_LINES;
use page_lines::{Places, Stretch};
use std::marker::Model;

/// The lines of the pages of an inode.
#[derive(Drop)]
pub(crate) struct FileLines<'a> {
    journal: &'a Journal,
    inode: u64,
}

impl<'a> Model for FileLines<'a> {
    ghost use Rattle.std.specs.Prelude.{◌<◌};
    ghost use Rattle.file_pages.specs.Object.{PlacesState, units_of};

    ghost Value = { PlacesState };

    ghost view = { λ l. record { geo = l.journal.now.geo; units = units_of l.journal.now.tables l.inode } };

    ghost invariant = { λ l. l.inode < 64 };
}

impl<'a> FileLines<'a> {
    pub(crate) fn of(journal: &'a Journal, inode: u64) -> Self
        requires { inode < 64 }
        ensures { result ≡ record { geo = journal.now.geo; units = units_of journal.now.tables inode } }
    {
        FileLines { journal, inode }
    }
}

impl<'a> Places for FileLines<'a> {
    ghost place = { λ lines. unit_place lines.geo lines.units };

    fn line(&self, n: u64) -> Option<u64> {
        let page = n / PAGE_LINES;
        if page >= self.journal.pages(self.inode) {
            return None;
        }
        let geo = self.journal.geometry();
        match self.journal.unit(self.inode, page) {
            Some(unit) => Some(geo.file_line(unit) + n % PAGE_LINES),
            None => None,
        }
    }

    // Runs are asked for where the lines are not those of one page.
    fn stretch(&self, n: u64, end: u64) -> Stretch {
        let page = n / PAGE_LINES;
        if page >= self.journal.pages(self.inode) {
            return Stretch::new(n, 1, None);
        }
        if end <= PAGE_LINES * page + PAGE_LINES {
            lines_of_page(self.journal, self.inode, page)
        } else {
            lines_of_run(self.journal, self.inode, page)
        }
    }
}

// The lines of a page.
fn lines_of_page(journal: &Journal, inode: u64, page: u64) -> Stretch
    requires inode { inode < 64 }
    requires page { page < 256 }
    requires within { page < pages_at journal.now.tables.files inode }
    ensures within { (n : ℕ) → n / 64 ≡ page → has_line result n ≡ true }
    ensures lines { IsStretchOf (file_place journal.now inode) result }
{
    let geo = journal.geometry();
    match journal.unit(inode, page) {
        Some(unit) => {
            let line = geo.file_line(unit);
            Stretch::new(PAGE_LINES * page, PAGE_LINES, Some(line))
        }
        None => Stretch::new(PAGE_LINES * page, PAGE_LINES, None),
    }
}

// The lines of the run that a page is in, and those of a hole.
fn lines_of_run(journal: &Journal, inode: u64, page: u64) -> Stretch
    requires inode { inode < 64 }
    requires page { page < 256 }
    requires within { page < pages_at journal.now.tables.files inode }
    ensures within { (n : ℕ) → n / 64 ≡ page → has_line result n ≡ true }
    ensures lines { IsStretchOf (file_place journal.now inode) result }
{
    let geo = journal.geometry();
    match journal.run(inode, page) {
        Some(run) => {
            let line = geo.file_line(run.unit);
            Stretch::new(PAGE_LINES * run.page, PAGE_LINES * run.len, Some(line))
        }
        None => Stretch::new(PAGE_LINES * page, PAGE_LINES, None),
    }
}
