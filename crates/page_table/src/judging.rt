ghost use Rattle.std.specs.Prelude.{◌≡◌, ◌≤◌, ◌<◌, ◌*◌, ◌/◌, ℕ, IfErr, IfOk, IsTrue, None, OnOk, Some, length, map, slice_index, true};
ghost use Rattle.page_table.specs.Cause.{IsCause};
ghost use Rattle.page_table.specs.Claims.{after_claim, may_claim};
ghost use Rattle.page_table.specs.Pages.{unit_of};
ghost use Rattle.page_table.specs.Reading.{HasFree};
ghost use Rattle.page_table.specs.Wrong.{first_wrong_entry, has_page};

use crate::table::{INODE_PAGES, SPARE_UNITS};
use free_pool::Pool;
use std::alloc::{AllocError, Global};

/// Why words are no table.
#[derive(Clone, Copy, Debug, PartialEq, Eq)]
pub enum TableFault {
    /// The index of a wrong word.
    Bad(u64),
    Memory,
}

impl From<AllocError> for TableFault {
    ghost use Rattle.page_table.specs.declared.judging.TableFault.TheVariants.{Memory};

    ghost from_gives = { λ _ e. e ≡ Memory };

    fn from(_e: AllocError) -> TableFault {
        TableFault::Memory
    }
}

/// Looks for the first wrong word, and else finds the units that none names.
pub(crate) fn check(
    alloc: Global,
    units: u64,
    counts: &[u64],
    words: &[u64],
) -> Result<Pool, TableFault>
    requires { length words.now ≡ 256 * length counts.now }
    ensures ok { OnOk result (first_wrong_entry units counts.now words.now ≡ None) }
    ensures free { IfOk result (HasFree (record { units = units; pages = map unit_of words.now })) }
    ensures err { IfErr result (IsCause units counts.now words.now) }
{
    let mut free = Pool::new(alloc, units)?;
    let mut entry = 0;
    while entry < words.len() {
        if !claim(&mut free, counts, entry, words[entry]) {
            return Err(TableFault::Bad(entry as u64));
        }
        entry = past_holes(words, entry + 1);
    }
    Ok(free)
}

// An entry from this one on, with holes alone between. Most pages are holes, and a restart reads them all.
fn past_holes(words: &[u64], entry: usize) -> usize
    requires { entry ≤ length words.now }
    ensures from { entry ≤ result }
    ensures within { result ≤ length words.now }
    ensures holes { (n : ℕ) → entry ≤ n → n < result → slice_index words.now n ≡ 0 }
{
    let mut next = entry;
    while words.len() - next >= 8 && are_holes(&words[next..next + 8]) {
        next += 8;
    }
    next
}

fn are_holes(words: &[u64]) -> bool
    ensures { IsTrue result → (n : ℕ) → n < length words.now → slice_index words.now n ≡ 0 }
{
    // All of them at once, without a jump at each.
    let mut all = 0;
    for word in words {
        all |= *word;
    }
    all == 0
}

// Takes the unit that a word names, where it may name that one.
#[inline]
fn claim(free: &mut Pool, counts: &[u64], entry: usize, word: u64) -> bool
    requires { entry / 256 < length counts.now }
    ensures right { result ≡ may_claim free.old (has_page counts.now entry) (unit_of word) }
    ensures free { IsTrue result → free.new ≡ after_claim free.old (unit_of word) }
{
    if word == 0 {
        return true;
    }
    has_page(counts, entry) && take(free, word - 1)
}

fn has_page(counts: &[u64], entry: usize) -> bool
    requires { entry / 256 < length counts.now }
    ensures { result ≡ has_page counts.now entry }
{
    (entry as u64 % INODE_PAGES) < counts[entry / INODE_PAGES as usize]
}

fn take(free: &mut Pool, unit: u64) -> bool
    ensures right { result ≡ may_claim free.old true (Some unit) }
    ensures free { IsTrue result → free.new ≡ after_claim free.old (Some unit) }
{
    if free.free() <= SPARE_UNITS || !free.is_free(unit) {
        return false;
    }
    free.mark(unit);
    true
}
