// Slots: free, or a file.
ghost use Rattle.std.specs.Prelude.{◌≡◌, is_none, position};
ghost use Rattle.std.specs.List.{list_any};
ghost use Rattle.inode_table.specs.Slots.{file_count, free_inode, has_name, inode_of};

use nvm_base::{FileEntry, Name};

/// Whether one of the slots has that name.
pub(crate) fn is_taken(slots: &[Option<FileEntry>], name: &Name) -> bool
    ensures { result ≡ list_any (has_name name.now) slots.now }
{
    slots.iter().any(|slot| has_name(slot, name))
}

/// Which of the slots has that name.
pub(crate) fn find(slots: &[Option<FileEntry>], name: &Name) -> Option<usize>
    ensures { result ≡ inode_of name.now slots.now }
{
    slots.iter().position(|slot| has_name(slot, name))
}

/// The lowest slot that is free.
pub(crate) fn free(slots: &[Option<FileEntry>]) -> Option<usize>
    ensures { result ≡ free_inode slots.now }
{
    slots.iter().position(|slot| slot.is_none())
}

/// How many slots are files.
pub(crate) fn count(slots: &[Option<FileEntry>]) -> usize
    ensures { result ≡ file_count slots.now }
{
    slots.iter().filter(|slot| slot.is_some()).count()
}

fn has_name(slot: &Option<FileEntry>, name: &Name) -> bool
    ensures { result ≡ has_name name.now slot.now }
{
    match slot {
        Some(file) => file.name == *name,
        None => false,
    }
}
