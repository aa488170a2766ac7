// How many lines of files are bad, or weak. None of this makes a counted call.
ghost use Rattle.std.specs.Prelude.{◌≡◌, ◌+◌, ◌*◌, ◌<◌, ◌≤◌, List, take};
ghost use Rattle.file_journal.specs.Object.{JournalServes};
ghost use Rattle.file_journal.specs.Standing.{FilesStand};
ghost use Rattle.file_journal.specs.Tables.{AreTables, unit_at};
ghost use Rattle.nvm_model.specs.Events.{count_in_files, weak_file_lines};
ghost use Rattle.nvm_model.specs.Files.{bad_file_lines};
ghost use Rattle.nvm_model.specs.Storage.{File};
ghost use Rattle.page_table.specs.Pages.{used_by, used_pages};
ghost use Rattle.marked_lines.specs.Counting.{cell_has, marked_in_inode, marked_on_unit};

use crate::{Mark, count_among};
use file_journal::Journal;
use line_device::Lines;
use nvm_base::{INODES, LINE, PAGE};

/// How many lines of the files' pages that exist are bad: a hole has none.
pub fn bad_in_files<L: Lines>(dev: &L, journal: &Journal) -> u64
    requires serves { JournalServes journal.now (L.state dev.now).medium }
    ensures count { (files : List File) → FilesStand journal.now.geo (L.state dev.now).medium journal.now.tables files
        → result ≡ bad_file_lines files }
    ensures few { result ≤ 65_536 }
{
    count_marked(dev, journal, Mark::Bad)
}

/// How many of them are weak, and so may become bad as they are made durable.
pub fn weak_in_files<L: Lines>(dev: &L, journal: &Journal) -> u64
    requires serves { JournalServes journal.now (L.state dev.now).medium }
    ensures count { (files : List File) → FilesStand journal.now.geo (L.state dev.now).medium journal.now.tables files
        → result ≡ weak_file_lines files }
    ensures few { result ≤ 65_536 }
{
    count_marked(dev, journal, Mark::Weak)
}

// How many of them have a mark.
fn count_marked<L: Lines>(dev: &L, journal: &Journal, mark: Mark) -> u64
    requires serves { JournalServes journal.now (L.state dev.now).medium }
    ensures count { (files : List File) → FilesStand journal.now.geo (L.state dev.now).medium journal.now.tables files
        → result ≡ count_in_files (cell_has mark) files }
    ensures few { result ≤ 65_536 }
{
    let mut marked = 0;
    for inode in 0..INODES {
        marked += count_in_inode(dev, journal, mark, inode);
    }
    marked
}

// How many lines of an inode's pages have it.
fn count_in_inode<L: Lines>(dev: &L, journal: &Journal, mark: Mark, inode: u64) -> u64
    requires serves { JournalServes journal.now (L.state dev.now).medium }
    requires inode { inode < 64 }
    ensures count { result ≡ marked_in_inode mark journal.now.geo (L.state dev.now).medium journal.now.tables inode }
    ensures few { result + 64 * used_pages (take (256 * inode) journal.now.tables.pages)
        ≤ 64 * used_pages (take (256 * (inode + 1)) journal.now.tables.pages) }
    ensures tables { AreTables journal.now.geo.fpages journal.now.tables }
{
    let mut marked = 0;
    for page in 0..journal.pages(inode) {
        marked += count_on_unit(dev, journal, mark, inode, page);
    }
    marked
}

// How many lines of the unit of a page have it.
fn count_on_unit<L: Lines>(dev: &L, journal: &Journal, mark: Mark, inode: u64, page: u64) -> u64
    requires serves { JournalServes journal.now (L.state dev.now).medium }
    requires inode { inode < 64 }
    requires page { page < 256 }
    ensures count { result
        ≡ marked_on_unit mark journal.now.geo (L.state dev.now).medium (unit_at journal.now.tables inode page) }
    ensures few { result ≤ 64 * used_by (unit_at journal.now.tables inode page) }
{
    let Some(line) = journal.line_of(inode, page) else {
        return 0;
    };
    count_among(dev, mark, line.0, PAGE / LINE)
}
