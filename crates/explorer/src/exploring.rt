// A program is performed on a device, and what a question looks at is followed through it, with all that a cut may leave.
ghost use Rattle.std.specs.Prelude.{◌≡◌, true, All, IfErr, IfOk, List, OnOk, length, option_map};
ghost use Rattle.std.specs.Option.{option_copied};
ghost use Rattle.script_text.specs.Action.{action_of};
ghost use Rattle.word_tables.specs.Bounds.{IsValid};
ghost use Rattle.cut_places.specs.MachineModel.Machine.{Machine};
ghost use Rattle.machine_host.specs.Settling.{GoesOn};
ghost use Rattle.machine_host.specs.Stands.{Stands};
ghost use Rattle.cut_places.specs.Outcomes.Finds.{armed};
ghost use Rattle.cut_places.specs.Outcomes.Seen.{Seen, may_show};
ghost use Rattle.cut_places.specs.Outcomes.Stops.{IsProgram};
ghost use Rattle.cut_places.specs.AskedReads.Asking.{IsLook, may_be_replies};
ghost use Rattle.cut_places.specs.AskedReads.Program.{IsBounded, inputs_of_lines};
ghost use Rattle.cut_places.specs.Following.{AreDone, Follows, IsWhole, IsWithin};
ghost use Rattle.cut_places.specs.Places.{cut_places, first_stop, found_stop};
ghost use Rattle.value_tables.specs.Listed.{IsSound};
ghost use Rattle.explorer.specs.Finding.{IsFound, IsOn, inside_at};
ghost use Rattle.explorer.specs.Leading.{led_through};
ghost use Rattle.explorer.specs.Starting.{Begins};
ghost use Rattle.explorer.specs.Stopping.{DeviceStopped, NoneFell};
ghost use Rattle.explorer.specs.Tabulating.{LooksWithin};

use crate::fault::ExploreFault;
use crate::found::Found;
use crate::watching::{Watched, watch};
use cut_places::reads_asked::Question;
use cut_places::sights_seen::may_be_replies;
use cut_places::{CutPlace, find};
use line_device::LineDevice;
use machine_host::Host;
use script_text::Command;
use std::alloc::{AllocError, Global};
use witnesses::keep;
use word_tables::Geometry;

/// The first place of a cut in the program after which the question's look may show what it asks for, with what may be kept there of all
/// that is looked at, more than the question asks about; None where no cut leaves it. The first lines are performed before, and no cut
/// in them is asked about. A line without a command is None.
pub fn explore<D: LineDevice>(
    alloc: Global,
    host: &mut Host,
    device: &mut D,
    first: &[Option<Command>],
    program: &[Option<Command>],
    looked: &Question,
    question: &Question,
) -> Result<Option<Found>, ExploreFault>
    requires known { GoesOn host.old (D.state device.old) }
    requires first { IsProgram (inputs_of_lines first.now) }
    requires first_bounded { All IsBounded first.now }
    requires program { IsProgram (inputs_of_lines program.now) }
    requires bounded { All IsBounded program.now }
    requires replies { may_be_replies host.old.geometry looked.now ≡ true }
    ensures found { (h : Machine) (look all : List Seen) → Stands host.old (D.state device.old) h → Begins h → IsLook look question.now → IsLook all looked.now
        → LooksWithin all look
        → IfOk result (IsFound all look (found_stop (led_through (armed h) (inputs_of_lines first.now)) (inputs_of_lines program.now) look)) }
    ensures counts { OnOk result (NoneFell (D.state device.old).panel (D.state device.new).panel) }
    ensures cause { (h : Machine) → Stands host.old (D.state device.old) h → Begins h
        → IfErr result (λ fault. fault ≡ ExploreFault.Device → DeviceStopped (D.state device.old).panel (D.state device.new).panel) }
{
    let geometry = host.geometry();
    if !may_be_replies(question, geometry) {
        return Ok(None);
    }
    let watched = watch(alloc, host, device, first, program, looked)?;
    let found = follow(alloc, program, looked, question, geometry, watched)?;
    Ok(found)
}

// What is found, in what was looked at.
fn follow(
    alloc: Global,
    program: &[Option<Command>],
    looked: &Question,
    question: &Question,
    geometry: Geometry,
    watched: Watched,
) -> Result<Option<Found>, AllocError>
    requires valid { IsValid geometry }
    requires program { IsProgram (inputs_of_lines program.now) }
    requires bounded { All IsBounded program.now }
    requires told { length watched.done.items ≡ length program.now }
    requires whole { IsWhole watched.sight looked.now }
    requires within { IsWithin watched.sight geometry }
    requires replies { may_be_replies geometry question.now ≡ true }
    requires looked_replies { may_be_replies geometry looked.now ≡ true }
    ensures { (h : Machine) (look all : List Seen) → Follows watched.sight geometry h → AreDone h program.now watched.done.items → IsSound h → IsLook look question.now → IsLook all looked.now
        → LooksWithin all look
        → IfOk result (IsFound all look (first_stop (may_show look) (cut_places 1 h (inputs_of_lines program.now)))) }
{
    let Watched { mut sight, done } = watched;
    let Some(place) = find(program, &done, geometry, question, &mut sight)? else {
        return Ok(None);
    };
    let inside = command_at(program, place);
    let kept = keep(alloc, question, looked, &sight, geometry, inside)?;
    Ok(Some(Found { place, kept }))
}

// The command that is interrupted at a place, if any.
fn command_at(program: &[Option<Command>], place: CutPlace) -> Option<&Command>
    requires on { IsOn program.now place }
    requires bounded { All IsBounded program.now }
    ensures action { option_map action_of (option_copied result) ≡ inside_at program.now place }
    ensures bounded { IsBounded (option_copied result) }
{
    match place {
        CutPlace::Before(_) => None,
        CutPlace::Inside(n) => program[n as usize - 1].as_ref(),
    }
}
