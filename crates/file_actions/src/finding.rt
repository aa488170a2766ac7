// Lines whose bytes an atomic write would have to keep, and can't. None of this makes a counted call.
ghost use Rattle.std.specs.Prelude.{◌≡◌, ◌*◌, ◌<◌, ◌^◌, All, IfSome, List};
ghost use Rattle.inode_table.specs.Slots.{pages_at};
ghost use Rattle.nvm_model.specs.Page.{cell_of, is_bad_cell};
ghost use Rattle.nvm_model.specs.Storage.{File};
ghost use Rattle.range_sets.specs.Ranges.{IsInReach};
ghost use Rattle.file_pages.specs.Object.{IsFileAt, PagesServe};
ghost use Rattle.file_actions.specs.Rewriting.{first_lost, is_lost};

use crate::ranges::{covers_any, touches_any};
use file_pages::FilePages;
use line_device::Lines;
use nvm_base::{LINE, PAGE, Span};

/// The lowest bad line whose bytes would have to be kept.
pub(crate) fn first_lost<L: Lines>(
    dev: &L,
    files: &FilePages,
    inode: u64,
    ranges: &[Span],
) -> Option<u64>
    requires serves { PagesServe files.now (L.state dev.now).medium }
    requires inode { inode < 64 }
    requires ends { All IsInReach ranges.now }
    ensures lost { (listed : List File) (file : File) → IsFileAt files.now.journal (L.state dev.now).medium inode listed file
        → result ≡ first_lost ranges.now file.pages }
    ensures small { IfSome result (λ n. n < 2 ^ 14) }
{
    let lines = PAGE / LINE * files.journal().pages(inode);
    for n in 0..lines {
        if is_lost(dev, files, inode, ranges, n) {
            return Some(n);
        }
    }
    None
}

// Whether line n is bad, in a page that ranges touch, and none of them covers it.
fn is_lost<L: Lines>(dev: &L, files: &FilePages, inode: u64, ranges: &[Span], n: u64) -> bool
    requires serves { PagesServe files.now (L.state dev.now).medium }
    requires inode { inode < 64 }
    requires ends { All IsInReach ranges.now }
    requires within { n < 64 * pages_at files.now.journal.tables.files inode }
    requires small { n < 2 ^ 14 }
    ensures lost { (listed : List File) (file : File) → IsFileAt files.now.journal (L.state dev.now).medium inode listed file
        → result ≡ is_lost ranges.now file.pages n }
{
    touches_any(ranges, n / (PAGE / LINE)) && is_bad(dev, files, inode, n) && !covers_any(ranges, n)
}

// Whether line n is there and bad.
fn is_bad<L: Lines>(dev: &L, files: &FilePages, inode: u64, n: u64) -> bool
    requires serves { PagesServe files.now (L.state dev.now).medium }
    requires inode { inode < 64 }
    requires within { n < 64 * pages_at files.now.journal.tables.files inode }
    requires small { n < 2 ^ 14 }
    ensures bad { (listed : List File) (file : File) → IsFileAt files.now.journal (L.state dev.now).medium inode listed file
        → result ≡ is_bad_cell (cell_of file.pages n) }
{
    let _used = files.journal().used();
    match files.line_of(inode, LINE * n) {
        Some(line) => dev.is_bad(line),
        None => false,
    }
}
