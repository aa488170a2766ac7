// All outcomes of a look, through a program that is performed on a device.
ghost use Rattle.std.specs.Prelude.{◌≡◌, All, IfErr, IfOk, OnOk};
ghost use Rattle.explorer.specs.MachineModel.Machine.{Machine};
ghost use Rattle.explorer.specs.MachineHost.Settling.{GoesOn};
ghost use Rattle.explorer.specs.MachineHost.Stands.{Stands};
ghost use Rattle.explorer.specs.Outcomes.Finds.{armed};
ghost use Rattle.explorer.specs.Outcomes.Stops.{IsProgram};
ghost use Rattle.explorer.specs.AskedReads.Program.{IsBounded, inputs_of_lines};
ghost use Rattle.explorer.specs.Leading.{led_through};
ghost use Rattle.explorer.specs.Starting.{Begins};
ghost use Rattle.explorer.specs.Stopping.{DeviceStopped, NoneFell};
ghost use Rattle.explorer.specs.ValueTables.Listed.{IsSound};
ghost use Rattle.explorer.specs.ValueTables.Looking.{IsOf};
ghost use Rattle.outcome_lists.specs.Courses.{IsCourse, IsFrom};
ghost use Rattle.outcome_lists.specs.Lists.{list_text, outcome_list};
ghost use Rattle.outcome_lists.specs.Outcomes.{outcomes_of};
ghost use Rattle.outcome_lists.specs.Parts.{AreInOrder, AreParts};

use crate::course::Course;
use crate::levels::levels;
use crate::parts::parts_of;
use crate::places::places;
use crate::printing::print_outcomes;
use explorer::host::Host;
use explorer::reads_asked::Read;
use explorer::{ExploreFault, Watched, look_at, watch};
use line_device::LineDevice;
use nvm_base::Bytes;
use script_text::Command;
use std::alloc::{AllocError, Global};

/// The list of what the reads may find, as it is printed, of the program after the first lines, which are performed before.
pub fn list_outcomes<D: LineDevice>(
    alloc: Global,
    host: &mut Host,
    device: &mut D,
    first: &[Option<Command>],
    program: &[Option<Command>],
    reads: &[Read],
) -> Result<Bytes, ExploreFault>
    requires known { GoesOn host.old (D.state device.old) }
    requires first { IsProgram (inputs_of_lines first.now) }
    requires first_bounded { All IsBounded first.now }
    requires program { IsProgram (inputs_of_lines program.now) }
    requires bounded { All IsBounded program.now }
    ensures text { (h : Machine) → Stands host.old (D.state device.old) h → Begins h
        → IfOk result (λ list. list.items ≡ outcome_list (led_through (armed h) (inputs_of_lines first.now)) (inputs_of_lines program.now) reads.now) }
    ensures counts { OnOk result (NoneFell (D.state device.old).panel (D.state device.new).panel) }
    ensures cause { (h : Machine) → Stands host.old (D.state device.old) h → Begins h
        → IfErr result (λ fault. fault ≡ ExploreFault.Device → DeviceStopped (D.state device.old).panel (D.state device.new).panel) }
{
    let geometry = host.geometry();
    let parts = parts_of(alloc, geometry, reads)?;
    let question = look_at(alloc, geometry, &parts)?;
    let Watched { sight, done } = watch(alloc, host, device, first, program, &question)?;
    let course = Course {
        program,
        done: &done,
        geometry,
        sight: &sight,
    };
    Ok(list_text(alloc, &course, &parts)?)
}

// That of parts, of which the course looks at the lines, blocks and files.
fn list_text(alloc: Global, course: &Course<'_>, parts: &[Read]) -> Result<Bytes, AllocError>
    requires course { IsCourse course.now }
    requires parts { AreParts course.now.geometry parts.now }
    requires order { AreInOrder parts.now }
    requires looks { IsOf course.now.sight.now course.now.geometry parts.now }
    ensures { (h : Machine) → IsFrom course.now h → IsSound h → IfOk result (λ text. text.items ≡ list_text (outcomes_of h (inputs_of_lines course.now.program.now) parts.now)) }
{
    let places = places(alloc, course)?;
    let levels = levels(alloc, course, &places, parts)?;
    let mut text = Bytes::new(alloc);
    print_outcomes(alloc, &places, &levels, &mut text)?;
    Ok(text)
}
