// What the reads of a look may find, by the places of a cut at which that changes.
ghost use Rattle.std.specs.Prelude.{◌≡◌, All, IfErr, IfOk, OnOk};
ghost use Rattle.cut_places.specs.MachineModel.Machine.{Machine};
ghost use Rattle.machine_host.specs.Settling.{GoesOn};
ghost use Rattle.machine_host.specs.Stands.{Stands};
ghost use Rattle.cut_places.specs.Outcomes.Finds.{armed};
ghost use Rattle.cut_places.specs.Outcomes.Stops.{IsProgram};
ghost use Rattle.cut_places.specs.AskedReads.Program.{IsBounded, inputs_of_lines};
ghost use Rattle.cut_places.specs.Places.{cut_places};
ghost use Rattle.value_tables.specs.Tables.{table_text};
ghost use Rattle.explorer.specs.Leading.{led_through};
ghost use Rattle.explorer.specs.Starting.{Begins};
ghost use Rattle.explorer.specs.Stopping.{DeviceStopped, NoneFell};

use crate::fault::ExploreFault;
use crate::looking::look_at;
use crate::watching::{Watched, watch};
use cut_places::reads_asked::Read;
use line_device::LineDevice;
use machine_host::Host;
use nvm_base::Bytes;
use script_text::Command;
use std::alloc::Global;
use value_tables::table_of;

/// The table of the reads, as it is printed, of the program after the first lines, which are performed before.
pub fn tabulate<D: LineDevice>(
    alloc: Global,
    host: &mut Host,
    device: &mut D,
    first: &[Option<Command>],
    program: &[Option<Command>],
    reads: &[Read],
) -> Result<Bytes, ExploreFault>
    requires known { GoesOn host.old (D.state device.old) }
    requires first { IsProgram (inputs_of_lines first.now) }
    requires first_bounded { All IsBounded first.now }
    requires program { IsProgram (inputs_of_lines program.now) }
    requires bounded { All IsBounded program.now }
    ensures text { (h : Machine) → Stands host.old (D.state device.old) h → Begins h
        → IfOk result (λ table. table.items ≡ table_text reads.now (cut_places 1 (led_through (armed h) (inputs_of_lines first.now)) (inputs_of_lines program.now))) }
    ensures counts { OnOk result (NoneFell (D.state device.old).panel (D.state device.new).panel) }
    ensures cause { (h : Machine) → Stands host.old (D.state device.old) h → Begins h
        → IfErr result (λ fault. fault ≡ ExploreFault.Device → DeviceStopped (D.state device.old).panel (D.state device.new).panel) }
{
    let geometry = host.geometry();
    let question = look_at(alloc, geometry, reads)?;
    let Watched { mut sight, done } = watch(alloc, host, device, first, program, &question)?;
    Ok(table_of(alloc, program, &done, geometry, reads, &mut sight)?)
}
