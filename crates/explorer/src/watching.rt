// A program is performed on a device, with what a question looks at as it was before its cuts.
ghost use Rattle.std.specs.Prelude.{◌≡◌, true, All, IfErr, IfOk, OnOk, length};
ghost use Rattle.cut_places.specs.MachineModel.Machine.{Machine};
ghost use Rattle.machine_host.specs.Settling.{GoesOn};
ghost use Rattle.machine_host.specs.Stands.{Stands};
ghost use Rattle.cut_places.specs.Outcomes.Finds.{armed};
ghost use Rattle.cut_places.specs.Outcomes.Stops.{IsProgram};
ghost use Rattle.cut_places.specs.AskedReads.Asking.{may_be_replies};
ghost use Rattle.cut_places.specs.AskedReads.Program.{IsBounded, inputs_of_lines};
ghost use Rattle.cut_places.specs.Following.{AreDone, Follows, IsWhole, IsWithin};
ghost use Rattle.explorer.specs.Leading.{led_through};
ghost use Rattle.explorer.specs.Starting.{Begins};
ghost use Rattle.explorer.specs.Stopping.{DeviceStopped, NoneFell};

use crate::blocks_look::look_blocks;
use crate::fault::ExploreFault;
use crate::files_look::look_files;
use crate::leading::lead;
use crate::performing::{arm, perform};
use crate::volume_look::look_lines;
use cut_places::Sight;
use cut_places::reads_asked::Question;
use line_device::LineDevice;
use machine_host::Host;
use nvm_base::MOST;
use script_text::Command;
use std::alloc::Global;

/// What a question looks at before the first place of a cut, and which lines of the program are done.
#[derive(Drop)]
pub struct Watched {
    pub sight: Sight,
    pub done: Vec<bool>,
}

/// Looks at what the question asks about, performs the first lines, in which no cut is asked about, and then the program.
pub fn watch<D: LineDevice>(
    alloc: Global,
    host: &mut Host,
    device: &mut D,
    first: &[Option<Command>],
    program: &[Option<Command>],
    question: &Question,
) -> Result<Watched, ExploreFault>
    requires known { GoesOn host.old (D.state device.old) }
    requires first { IsProgram (inputs_of_lines first.now) }
    requires first_bounded { All IsBounded first.now }
    requires program { IsProgram (inputs_of_lines program.now) }
    requires bounded { All IsBounded program.now }
    requires replies { may_be_replies host.old.geometry question.now ≡ true }
    ensures told { IfOk result (λ watched. length watched.done.items ≡ length program.now) }
    ensures whole { IfOk result (λ watched. IsWhole watched.sight question.now × IsWithin watched.sight host.old.geometry) }
    ensures follows { (h : Machine) → Stands host.old (D.state device.old) h → Begins h
        → IfOk result (λ watched. Follows watched.sight host.old.geometry (led_through (armed h) (inputs_of_lines first.now))
        × AreDone (led_through (armed h) (inputs_of_lines first.now)) program.now watched.done.items) }
    ensures counts { OnOk result (NoneFell (D.state device.old).panel (D.state device.new).panel) }
    ensures cause { (h : Machine) → Stands host.old (D.state device.old) h → Begins h
        → IfErr result (λ fault. fault ≡ ExploreFault.Device → DeviceStopped (D.state device.old).panel (D.state device.new).panel) }
{
    let mut work = vec![in alloc; 0u8; MOST as usize]?;
    let lines = look_lines(alloc, host, device, &question.volume, &mut work)?;
    let blocks = look_blocks(alloc, host, device, &question.blocks, &mut work)?;
    let files = look_files(alloc, host, device, &question.files, &mut work)?;
    // From now on the power may go at any call.
    arm(host, device, &mut work)?;
    let mut sight = Sight {
        lines,
        blocks,
        files,
    };
    lead(host, device, first, &mut sight, &mut work)?;
    let done = perform(alloc, host, device, program, &mut work)?;
    Ok(Watched { sight, done })
}
