// The words of changes, with their places.
ghost use Rattle.std.specs.Prelude.{◌≡◌, ◌+◌, ◌<◌, ◌≤◌, ◌^◌, IfSome, length};
ghost use Rattle.word_tables.specs.Bounds.{IsValid};
ghost use Rattle.word_tables.specs.Words.{of_inode, place};
ghost use Rattle.file_journal.specs.Changes.{change_words, holes, numbered, slot_words};
ghost use Rattle.file_journal.specs.Switches.{AreSwitches};

use arrayvec::ArrayVec;
use inode_table::Inodes;
use nvm_base::FileEntry;
use page_table::PageTable;
use word_tables::Geometry;

/// Words that change together: places and values.
pub(crate) type WordChanges = ArrayVec<(u64, u64), 272>;

/// Pages of an inode that change together, and the unit of each, or that it becomes a hole.
pub(crate) type Switches = ArrayVec<(u64, Option<u64>), 256>;

/// The words of an inode that becomes a slot, and of its pages that are switched.
pub(crate) fn change_words(
    geo: Geometry,
    inode: u64,
    slot: &Option<FileEntry>,
    switches: &[(u64, Option<u64>)],
) -> WordChanges
    requires valid { IsValid geo }
    requires inode { inode < 64 }
    requires pages { IfSome slot.now (λ file. file.pages ≤ 256) }
    requires switches { AreSwitches geo.fpages switches.now }
    ensures { result.items ≡ change_words geo inode slot.now switches.now }
{
    let mut words = slot_words(geo, inode, slot);
    for (page, unit) in switches {
        words.push((geo.page_word(inode, *page), PageTable::word(*unit)));
    }
    words
}

// The words of an inode that becomes a slot.
fn slot_words(geo: Geometry, inode: u64, slot: &Option<FileEntry>) -> WordChanges
    requires valid { IsValid geo }
    requires inode { inode < 64 }
    requires pages { IfSome slot.now (λ file. file.pages ≤ 256) }
    ensures { result.items ≡ numbered (place geo (of_inode inode 0)) (slot_words slot.now) }
{
    let first = geo.inode_word(inode, 0);
    match slot {
        Some(file) => numbered(first, &Inodes::words(&file.name, file.pages)),
        None => numbered(first, &[0]),
    }
}

// Values with the places of words that follow each other.
fn numbered(first: u64, values: &[u64]) -> WordChanges
    requires few { length values.now ≤ 5 }
    requires place { first + 5 < 2 ^ 64 }
    ensures { result.items ≡ numbered first values.now }
{
    let mut words = WordChanges::new();
    for (k, value) in values.iter().enumerate() {
        words.push((first + k as u64, *value));
    }
    words
}

/// `count` pages from one on become holes.
pub(crate) fn holes(first: u64, count: u64) -> Switches
    requires { first + count ≤ 256 }
    ensures { result.items ≡ holes first count }
{
    let mut switches = Switches::new();
    for page in first..first + count {
        switches.push((page, None));
    }
    switches
}
