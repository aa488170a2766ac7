// The lines in which no cut is asked about: they are performed, and what is looked at is followed through them.
ghost use Rattle.std.specs.Prelude.{◌≡◌, All, IfErr, OnOk, length};
ghost use Rattle.cut_places.specs.MachineModel.Machine.{Machine};
ghost use Rattle.machine_host.specs.Settling.{GoesOn};
ghost use Rattle.machine_host.specs.Stands.{Stands};
ghost use Rattle.cut_places.specs.Outcomes.Stops.{IsProgram};
ghost use Rattle.cut_places.specs.AskedReads.declared.question.Question.{Question};
ghost use Rattle.cut_places.specs.AskedReads.Program.{IsBounded, inputs_of_lines};
ghost use Rattle.cut_places.specs.Following.{Follows, IsWhole, IsWithin};
ghost use Rattle.explorer.specs.Leading.{led_through};
ghost use Rattle.explorer.specs.Stopping.{DeviceStopped, NoneFell};

use crate::fault::ExploreFault;
use crate::following::follow;
use crate::performing::is_done;
use cut_places::Sight;
use line_device::LineDevice;
use machine_host::Host;
use script_text::Command;

/// Performs the lines. The sight is then that after them.
pub fn lead<D: LineDevice>(
    host: &mut Host,
    device: &mut D,
    lines: &[Option<Command>],
    sight: &mut Sight,
    work: &mut [u8],
) -> Result<(), ExploreFault>
    requires known { GoesOn host.old (D.state device.old) }
    requires wide { length work.old ≡ 65536 }
    requires program { IsProgram (inputs_of_lines lines.now) }
    requires bounded { All IsBounded lines.now }
    requires within { IsWithin sight.old host.old.geometry }
    ensures leads { (h : Machine) → Stands host.old (D.state device.old) h → Follows sight.old host.old.geometry h
        → OnOk result (Stands host.new (D.state device.new) (led_through h (inputs_of_lines lines.now))
        × Follows sight.new host.old.geometry (led_through h (inputs_of_lines lines.now))) }
    ensures whole { (question : Question) → IsWhole sight.old question → OnOk result (IsWhole sight.new question) }
    ensures within { OnOk result (IsWithin sight.new host.old.geometry) }
    ensures known { OnOk result (GoesOn host.new (D.state device.new)) }
    ensures counts { OnOk result (NoneFell (D.state device.old).panel (D.state device.new).panel) }
    ensures cause { IfErr result (λ fault. fault ≡ ExploreFault.Device → DeviceStopped (D.state device.old).panel (D.state device.new).panel) }
{
    let geometry = host.geometry();
    for line in lines {
        if let Some(command) = line {
            let done = is_done(host, device, command, work)?;
            follow(geometry, command, done, sight)?;
        }
    }
    Ok(())
}
