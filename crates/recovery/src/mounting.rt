// Mounting: what is to be found is found before anything is stored, as far as it can be.
ghost use Rattle.std.specs.Prelude.{◌≡◌, ◌≤◌, IfOk, IsTrue};
ghost use Rattle.line_device.specs.Medium.{WritesBack};
ghost use Rattle.line_device.specs.Panel.{Runs};
ghost use Rattle.recovery.specs.Calls.{IsMounted, LeavesDevice};
ghost use Rattle.recovery.specs.Findings.{geometry_told, early_finding, inspection_finding, first_finding};
ghost use Rattle.recovery.specs.Mounting.{Finds, IsInOrder, mount_calls_told, mount_outcome, mount_persists_told};

use crate::metadata::check_metadata;
use crate::replaying::{inspect_logs, judge_tables, replay_logs};
use crate::superblock::read_superblock;
use crate::{MountFault, Mounted};
use line_device::Lines;
use std::alloc::Global;
use word_tables::Geometry;

/// Mounts a device: replays the logs of its blocks, of its volume and of its files where they are open, and reads their tables. An event
/// is made for each bad line of a file, and room for one of each weak line.
pub fn mount<L: Lines>(alloc: Global, dev: &mut L) -> Result<Mounted, MountFault>
    requires some { 1 ≤ (L.state dev.old).medium.count }
    requires on { IsTrue (L.state dev.old).panel.power }
    ensures finds { Finds (first_finding (L.state dev.old).medium) result }
    ensures leaves { LeavesDevice (L.state dev.old).medium (L.state dev.new).medium }
    ensures mounted { IfOk result (IsMounted (L.state dev.old).medium (L.state dev.new).medium) }
    ensures runs { Runs (mount_calls_told (L.state dev.old).medium) (mount_persists_told (L.state dev.old).medium)
        (mount_outcome result) (L.state dev.old).panel (L.state dev.new).panel }
{
    let geo = inspect(alloc, dev)?;
    let tables = replay_logs(alloc, dev, geo)?;
    judge_tables(alloc, dev, geo, tables)
}

// The sizes of a device whose superblock, lines of metadata and logs are in order.
fn inspect<L: Lines>(alloc: Global, dev: &mut L) -> Result<Geometry, MountFault>
    requires some { 1 ≤ (L.state dev.old).medium.count }
    requires on { IsTrue (L.state dev.old).panel.power }
    ensures geo { IfOk result (λ geo. geo ≡ geometry_told (L.state dev.old).medium) }
    ensures order { IfOk result (λ geo. IsInOrder geo (L.state dev.new).medium) }
    ensures finds { Finds (inspection_finding (L.state dev.old).medium) result }
    ensures lines { WritesBack (L.state dev.old).medium (L.state dev.new).medium }
    ensures runs { Runs 1191 0 (mount_outcome result) (L.state dev.old).panel (L.state dev.new).panel }
{
    let geo = find_sizes(dev)?;
    inspect_logs(alloc, dev, geo)?;
    Ok(geo)
}

// The sizes of a device whose superblock and lines of metadata are in order.
fn find_sizes<L: Lines>(dev: &mut L) -> Result<Geometry, MountFault>
    requires some { 1 ≤ (L.state dev.old).medium.count }
    requires on { IsTrue (L.state dev.old).panel.power }
    ensures geo { IfOk result (λ geo. geo ≡ geometry_told (L.state dev.old).medium) }
    ensures order { IfOk result (λ geo. IsInOrder geo (L.state dev.new).medium) }
    ensures finds { Finds (early_finding (L.state dev.old).medium) result }
    ensures lines { WritesBack (L.state dev.old).medium (L.state dev.new).medium }
    ensures runs { Runs 1 0 (mount_outcome result) (L.state dev.old).panel (L.state dev.new).panel }
{
    let geo = read_superblock(dev)?;
    check_metadata(dev, geo)?;
    Ok(geo)
}
