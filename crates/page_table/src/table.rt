ghost use Rattle.std.specs.Prelude.{◌≡◌, ◌<◌, ◌≤◌, ◌+◌, ◌*◌, ◌-◌, IfErr, IfOk, List, ℕ, None, Some, length, map, slice_get, slice_set};
ghost use Rattle.word_tables.specs.Bounds.{IsValid};
ghost use Rattle.page_table.specs.Cause.{IsCause};
ghost use Rattle.page_table.specs.Pages.{IsBelow, IsTable, IsWithinCounts, MayTake, TableState, unit_of, used_by, used_pages, word_of};
ghost use Rattle.page_table.specs.Reading.{HasFree, Reads};
ghost use Rattle.page_table.specs.Wrong.{first_wrong_entry};

use crate::{TableFault, judging, word};
use free_pool::Pool;
use std::alloc::Global;
use std::marker::Model;
use word_tables::Geometry;

/// The most pages of an inode.
pub const INODE_PAGES: u64 = 256;

/// Units that pages leave free, as room for pages that are written before they are switched.
pub const SPARE_UNITS: u64 = 16;

/// Where each page of each inode is. Contracts see on which of how many units, page by page, one inode after the other; a
/// hole is on none.
#[derive(Debug, Drop)]
pub struct PageTable {
    words: Vec<u64>,
    units: u64,
    used: u64,
}

impl Model for PageTable {
    ghost use Rattle.std.specs.Prelude.{◌≡◌, map};
    ghost use Rattle.page_table.specs.Pages.{IsTable, TableState, unit_of, used_pages};

    ghost Value = { TableState };

    ghost view = { λ t. record { units = t.units; pages = map unit_of t.words.items } };

    ghost invariant = { λ t. IsTable (record { units = t.units; pages = map unit_of t.words.items })
        × (t.used ≡ used_pages (map unit_of t.words.items)) };
}

impl PageTable {
    /// The table that the words of the page tables' area stand for, where each inode has its number of pages, a free one none.
    pub fn read(
        alloc: Global,
        geo: Geometry,
        counts: &[u64],
        words: &[u64],
    ) -> Result<Self, TableFault>
        requires valid { IsValid geo }
        requires counts { length counts.now ≡ 64 }
        requires words { length words.now ≡ 16384 }
        ensures ok { IfOk result (Reads geo.fpages counts.now words.now) }
        ensures err { IfErr result (IsCause geo.fpages counts.now words.now) }
    {
        let (table, _free) = Self::read_with_pool(alloc, geo, counts, words)?;
        Ok(table)
    }

    /// Reads the table, with a pool in which the units of its pages are taken.
    pub fn read_with_pool(
        alloc: Global,
        geo: Geometry,
        counts: &[u64],
        words: &[u64],
    ) -> Result<(Self, Pool), TableFault>
        requires valid { IsValid geo }
        requires counts { length counts.now ≡ 64 }
        requires words { length words.now ≡ 16384 }
        ensures ok { IfOk result (λ both. Reads geo.fpages counts.now words.now both.0) }
        ensures free { IfOk result (λ both. HasFree both.0 both.1) }
        ensures err { IfErr result (IsCause geo.fpages counts.now words.now) }
    {
        let free = judging::check(alloc, geo.fpages, counts, words)?;
        let kept = Vec::from_slice(alloc, words)?;
        let table = PageTable {
            words: kept,
            units: geo.fpages,
            used: geo.fpages - free.free(),
        };
        Ok((table, free))
    }

    /// The unit of a page; None is a hole.
    pub fn get(&self, inode: u64, page: u64) -> Option<u64>
        requires inode { inode < 64 }
        requires page { page < 256 }
        ensures unit { slice_get self.now.pages (256 * inode + page) ≡ Some result }
        ensures table { IsTable self.now }
    {
        word::unit_of(self.words[entry_of(inode, page)])
    }

    pub fn set(&mut self, inode: u64, page: u64, unit: Option<u64>)
        requires inode { inode < 64 }
        requires page { page < 256 }
        requires unit { MayTake self.old (256 * inode + page) unit }
        ensures pages { self.new ≡ record self.old { pages = slice_set self.old.pages (256 * inode + page) unit } }
        ensures table { IsTable self.new }
    {
        let old = self.get(inode, page);
        self.used = recounted(self.used, old, unit);
        self.words[entry_of(inode, page)] = word::word_of(unit);
    }

    /// How many pages are no holes.
    pub fn used(&self) -> u64
        ensures used { result ≡ used_pages self.now.pages }
        ensures table { IsTable self.now }
    {
        self.used
    }

    /// The word that stands for a page on that unit.
    pub fn word(unit: Option<u64>) -> u64
        requires { IsBelow 1024 unit }
        ensures word { result ≡ word_of unit }
        ensures inverse { unit_of result ≡ unit }
    {
        word::word_of(unit)
    }
}

/// A law: the words of a table that leaves units free, where each inode has its pages, are right. So what is set is read again.
pub fn tables_are_right()
    ensures { (table : TableState) (counts : List ℕ) → IsTable table → IsWithinCounts counts table.pages
        → used_pages table.pages + 16 ≤ table.units → first_wrong_entry table.units counts (map word_of table.pages) ≡ None }
{}

fn entry_of(inode: u64, page: u64) -> usize
    requires inode { inode < 64 }
    requires page { page < 256 }
    ensures { result ≡ 256 * inode + page }
{
    (INODE_PAGES * inode + page) as usize
}

// The used pages once one of them changes.
fn recounted(used: u64, old: Option<u64>, new: Option<u64>) -> u64
    requires old { used_by old ≤ used }
    requires few { used ≤ 16384 }
    ensures { result ≡ used - used_by old + used_by new }
{
    match (old, new) {
        (None, Some(_)) => used + 1,
        (Some(_), None) => used - 1,
        (None, None) | (Some(_), Some(_)) => used,
    }
}
