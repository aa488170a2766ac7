// Changes of what is kept in memory.
ghost use Rattle.std.specs.Prelude.{◌≡◌, ◌+◌, ◌<◌, ℕ, slice_set, length};
ghost use Rattle.free_pool.specs.Units.{IsTaken};
ghost use Rattle.inode_table.specs.Slots as names;
ghost use Rattle.page_table.specs.Pages as units;
ghost use Rattle.file_journal.specs.Calls.{CanSwitch, MaySet};
ghost use Rattle.file_journal.specs.Changes.{named_units, switched_pages};
ghost use Rattle.file_journal.specs.Tables.{AreTaken, IsVacant, known_units};

use free_pool::Pool;
use inode_table::Inodes;
use nvm_base::FileEntry;
use page_table::PageTable;

/// Makes an inode that slot.
pub(crate) fn assign(inodes: &mut Inodes, inode: u64, slot: &Option<FileEntry>)
    requires inode { inode < 64 }
    requires set { MaySet inodes.old inode slot.now }
    ensures slots { inodes.new ≡ slice_set inodes.old inode slot.now }
    ensures table { names.IsTable inodes.new }
{
    match slot {
        Some(file) => inodes.set(inode, &file.name, file.pages),
        None => inodes.remove(inode),
    }
}

/// Switches pages of an inode, and gives back the units that they leave.
pub(crate) fn switch_units(
    table: &mut PageTable,
    pool: &mut Pool,
    inode: u64,
    switches: &[(u64, Option<u64>)],
)
    requires can { CanSwitch table.old.units table.old.pages pool.old inode switches.now }
    requires table { units.IsTable table.old }
    requires all { length pool.old ≡ table.old.units }
    requires taken { AreTaken table.old.pages pool.old }
    ensures pages { table.new ≡ record table.old { pages = switched_pages inode switches.now table.old.pages } }
    ensures table { units.IsTable table.new }
    ensures all { length pool.new ≡ length pool.old }
    ensures taken { AreTaken table.new.pages pool.new }
    ensures held { (unit : ℕ) → IsTaken pool.old unit → IsVacant table.old.pages unit → IsTaken pool.new unit }
    ensures known { known_units table.new.pages pool.new ≡ known_units table.old.pages pool.old + named_units switches.now }
{
    for (page, unit) in switches {
        let left = table.get(inode, *page);
        table.set(inode, *page, *unit);
        if let Some(unit) = left {
            pool.give(unit);
        }
    }
}
