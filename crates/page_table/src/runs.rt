// Pages that lie on units one after the other.
ghost use Rattle.std.specs.Prelude.{◌≡◌, ◌<◌, ◌≤◌, ◌+◌, ◌*◌, ◌-◌, ◌∷◌, ◌↔◌, [], IfSome, IsNone, IsTrue, ℕ, None, Some, slice_get};
ghost use Rattle.page_table.specs.Pages.{IsOn, IsTable};
ghost use Rattle.page_table.specs.Runs.{IsRun, run_of};

use crate::PageTable;
use crate::table::INODE_PAGES;

/// The longest stretch of pages of an inode, around one of them, where each next page's unit is one higher.
#[derive(Clone, Copy, Debug, PartialEq, Eq)]
pub struct Run {
    /// Its first page.
    pub page: u64,
    /// The unit of that page.
    pub unit: u64,
    /// How many pages there are.
    pub len: u64,
}

impl PageTable {
    /// The run of a page; None is a hole.
    pub fn run(&self, inode: u64, page: u64) -> Option<Run>
        requires inode { inode < 64 }
        requires page { page < 256 }
        ensures run { result ≡ run_of self.now.pages inode page }
        ensures pages { IfSome result (IsRun self.now.pages inode page) }
        ensures none { IsNone result ↔ (slice_get self.now.pages (256 * inode + page) ≡ Some None) }
        ensures table { IsTable self.now }
    {
        match self.get(inode, page) {
            Some(unit) => {
                let before = self.joined_before(inode, page, unit);
                let after = self.joined_after(inode, page, unit);
                Some(Run {
                    page: page - before,
                    unit: unit - before,
                    len: before + 1 + after,
                })
            }
            None => None,
        }
    }

    // How many pages right before one go up to its unit.
    fn joined_before(&self, inode: u64, page: u64, unit: u64) -> u64
        requires inode { inode < 64 }
        requires page { page < 256 }
        requires on { IsOn self.now.pages (256 * inode + page) unit }
        ensures pages { result ≤ page }
        ensures units { result ≤ unit }
        ensures joined { (k : ℕ) → k ≤ result → IsOn self.now.pages (256 * inode + (page - k)) (unit - k) }
        ensures end { result < page → result < unit
            → IsOn self.now.pages (256 * inode + (page - result - 1)) (unit - result - 1) → ⊥ }
    {
        let mut before = 0;
        while before < page
            && before < unit
            && self.is_on(inode, page - before - 1, unit - before - 1)
        {
            before += 1;
        }
        before
    }

    // How many pages right after one go on from its unit.
    fn joined_after(&self, inode: u64, page: u64, unit: u64) -> u64
        requires inode { inode < 64 }
        requires page { page < 256 }
        requires on { IsOn self.now.pages (256 * inode + page) unit }
        requires few { unit ≤ 1024 }
        ensures pages { page + result < 256 }
        ensures joined { (k : ℕ) → k ≤ result → IsOn self.now.pages (256 * inode + (page + k)) (unit + k) }
        ensures end { page + result + 1 < 256 → IsOn self.now.pages (256 * inode + (page + result + 1)) (unit + result + 1) → ⊥ }
    {
        let mut after = 0;
        while page + after + 1 < INODE_PAGES
            && self.is_on(inode, page + after + 1, unit + after + 1)
        {
            after += 1;
        }
        after
    }

    fn is_on(&self, inode: u64, page: u64, unit: u64) -> bool
        requires inode { inode < 64 }
        requires page { page < 256 }
        ensures { IsTrue result ↔ IsOn self.now.pages (256 * inode + page) unit }
    {
        self.get(inode, page) == Some(unit)
    }
}

/// A law: four pages on units 5 and 6, none, and 8, which the third page joins on unit 7.
#[tactic(auto, unfolding(crate::specs::Runs::run_of))]
pub fn four_pages_have_runs()
    ensures two { run_of (Some 5 ∷ Some 6 ∷ None ∷ Some 8 ∷ []) 0 1 ≡ Some (record { page = 0; unit = 5; len = 2 }) }
    ensures hole { run_of (Some 5 ∷ Some 6 ∷ None ∷ Some 8 ∷ []) 0 2 ≡ None }
    ensures one { run_of (Some 5 ∷ Some 6 ∷ None ∷ Some 8 ∷ []) 0 3 ≡ Some (record { page = 3; unit = 8; len = 1 }) }
    ensures four { run_of (Some 5 ∷ Some 6 ∷ Some 7 ∷ Some 8 ∷ []) 0 3 ≡ Some (record { page = 0; unit = 5; len = 4 }) }
{}
