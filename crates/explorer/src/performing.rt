// A program is performed on the device, to learn which of its commands are done.
ghost use Rattle.std.specs.Prelude.{◌≡◌, ℕ, List, [], ◌∷◌, All, IfErr, IfOk, IfSome, IsTrue, OnOk, is_none, length, option_map};
ghost use Rattle.reply_text.specs.Answer.{IsPrintable, answer_of};
ghost use Rattle.script_text.specs.Action.{action_of};
ghost use Rattle.script_text.specs.Parsing.{InBounds};
ghost use Rattle.cut_places.specs.MachineModel.Commands.{refusal};
ghost use Rattle.cut_places.specs.MachineModel.Machine.{Machine};
ghost use Rattle.machine_host.specs.Settling.{GoesOn};
ghost use Rattle.machine_host.specs.Stands.{Stands};
ghost use Rattle.cut_places.specs.Outcomes.Finds.{IsReady, armed};
ghost use Rattle.cut_places.specs.Outcomes.Stops.{IsProgram, is_of_program};
ghost use Rattle.cut_places.specs.AskedReads.Program.{IsBounded, input_of, inputs_of_lines};
ghost use Rattle.cut_places.specs.Following.{AreDone};
ghost use Rattle.machine_host.specs.Responding.{outcome_answer};
ghost use Rattle.explorer.specs.Coming.{came_of};
ghost use Rattle.explorer.specs.Performing.{IsAfter, LineDone};
ghost use Rattle.explorer.specs.Stopping.{DeviceStopped, NoneFell};

use crate::came::Came;
use crate::fault::ExploreFault;
use line_device::LineDevice;
use machine_host::{Host, Outcome};
use reply_text::{Reply, Why};
use script_text::Command;
use std::alloc::{AllocError, Global};

/// The last call for which a cut can be armed. A program that makes as many calls is stopped there, and gets no answer.
const FAR: u64 = 4_294_967_295;

/// Which lines of the program are done: their commands are not refused.
pub fn perform<D: LineDevice>(
    alloc: Global,
    host: &mut Host,
    device: &mut D,
    program: &[Option<Command>],
    work: &mut [u8],
) -> Result<Vec<bool>, ExploreFault>
    requires known { GoesOn host.old (D.state device.old) }
    requires wide { length work.old ≡ 65536 }
    requires program { IsProgram (inputs_of_lines program.now) }
    requires bounded { All IsBounded program.now }
    ensures told { IfOk result (λ done. length done.items ≡ length program.now) }
    ensures done { (h : Machine) → Stands host.old (D.state device.old) h → IsReady h → IfOk result (λ done. AreDone h program.now done.items) }
    ensures counts { OnOk result (NoneFell (D.state device.old).panel (D.state device.new).panel) }
    ensures cause { IfErr result (λ fault. fault ≡ ExploreFault.Device → DeviceStopped (D.state device.old).panel (D.state device.new).panel) }
{
    let mut done = Vec::new(alloc);
    for line in program {
        let is_done = line_done(host, device, line, work)?;
        done.push(is_done).map_err(AllocError::from)?;
    }
    Ok(done)
}

fn line_done<D: LineDevice>(
    host: &mut Host,
    device: &mut D,
    line: &Option<Command>,
    work: &mut [u8],
) -> Result<bool, ExploreFault>
    requires known { GoesOn host.old (D.state device.old) }
    requires wide { length work.old ≡ 65536 }
    requires program { IsProgram (input_of line.now ∷ []) }
    requires bounded { IsBounded line.now }
    ensures done { (h : Machine) → Stands host.old (D.state device.old) h → IsReady h → IfOk result (LineDone h line.now host.new (D.state device.new)) }
    ensures known { OnOk result (GoesOn host.new (D.state device.new)) }
    ensures counts { OnOk result (NoneFell (D.state device.old).panel (D.state device.new).panel) }
    ensures cause { IfErr result (λ fault. fault ≡ ExploreFault.Device → DeviceStopped (D.state device.old).panel (D.state device.new).panel) }
{
    match line {
        Some(command) => is_done(host, device, command, work),
        None => Ok(false),
    }
}

/// Performs a command, and reports whether it is done.
pub fn is_done<D: LineDevice>(
    host: &mut Host,
    device: &mut D,
    command: &Command,
    work: &mut [u8],
) -> Result<bool, ExploreFault>
    requires known { GoesOn host.old (D.state device.old) }
    requires wide { length work.old ≡ 65536 }
    requires program { IsTrue (is_of_program (action_of command.now)) }
    requires bounded { InBounds (action_of command.now) }
    ensures done { (h : Machine) → Stands host.old (D.state device.old) h → IsReady h
        → IfOk result (λ is. (is_none (refusal h (action_of command.now)) ≡ is) × IsAfter h (action_of command.now) host.new (D.state device.new)) }
    ensures known { OnOk result (GoesOn host.new (D.state device.new)) }
    ensures counts { OnOk result (NoneFell (D.state device.old).panel (D.state device.new).panel) }
    ensures cause { IfErr result (λ fault. fault ≡ ExploreFault.Device → DeviceStopped (D.state device.old).panel (D.state device.new).panel) }
{
    let refused = refusal_of(host, device, command, work)?;
    Ok(refused.is_none())
}

/// Performs a command: the reply that refuses it, None where it is done.
pub fn refusal_of<D: LineDevice>(
    host: &mut Host,
    device: &mut D,
    command: &Command,
    work: &mut [u8],
) -> Result<Option<Reply>, ExploreFault>
    requires known { GoesOn host.old (D.state device.old) }
    requires wide { length work.old ≡ 65536 }
    requires program { IsTrue (is_of_program (action_of command.now)) }
    requires bounded { InBounds (action_of command.now) }
    ensures done { (h : Machine) → Stands host.old (D.state device.old) h → IsReady h
        → IfOk result (λ refused. (refusal h (action_of command.now) ≡ option_map answer_of refused) × IsAfter h (action_of command.now) host.new (D.state device.new)) }
    ensures printable { IfOk result (λ refused. IfSome refused (λ reply. IsPrintable (answer_of reply))) }
    ensures known { OnOk result (GoesOn host.new (D.state device.new)) }
    ensures counts { OnOk result (NoneFell (D.state device.old).panel (D.state device.new).panel) }
    ensures cause { IfErr result (λ fault. fault ≡ ExploreFault.Device → DeviceStopped (D.state device.old).panel (D.state device.new).panel) }
{
    // The program's own cut in some calls is one of those that are asked about.
    if let Command::CutIn { calls } = command {
        if *calls == 0 {
            return Ok(Some(Reply::Refused(Why::Range)));
        }
        arm(host, device, work)?;
        return Ok(None);
    }
    let outcome = host.answer(device, command, work)?;
    match Came::of(&outcome) {
        Came::Done => Ok(None),
        Came::Refused => Ok(reply_in(outcome)),
        Came::Stopped => Err(ExploreFault::Device),
    }
}

fn reply_in(outcome: Outcome) -> Option<Reply>
    ensures { (work : List ℕ) → Came.Refused ≡ came_of (outcome_answer work outcome) → option_map answer_of result ≡ Some (outcome_answer work outcome) }
{
    match outcome {
        Outcome::Read(_) => None,
        Outcome::Reply(reply) => Some(reply),
    }
}

/// Arms a cut that comes in no program, so that the power may go at any call.
pub fn arm<D: LineDevice>(
    host: &mut Host,
    device: &mut D,
    work: &mut [u8],
) -> Result<(), ExploreFault>
    requires known { GoesOn host.old (D.state device.old) }
    requires wide { length work.old ≡ 65536 }
    ensures arms { (h : Machine) → Stands host.old (D.state device.old) h → IsReady h → OnOk result (Stands host.new (D.state device.new) (armed h)) }
    ensures geometry { OnOk result (host.new.geometry ≡ host.old.geometry) }
    ensures known { OnOk result (GoesOn host.new (D.state device.new)) }
    ensures counts { OnOk result (NoneFell (D.state device.old).panel (D.state device.new).panel) }
    ensures cause { IfErr result (λ fault. fault ≡ ExploreFault.Device → DeviceStopped (D.state device.old).panel (D.state device.new).panel) }
{
    let cut = Command::CutIn { calls: FAR };
    match Came::of(&host.answer(device, &cut, work)?) {
        Came::Done => Ok(()),
        Came::Refused | Came::Stopped => Err(ExploreFault::Device),
    }
}
