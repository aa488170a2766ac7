// A report of the lines whose commands are refused, or are not.
ghost use Rattle.std.specs.Prelude.{◌≡◌, ◌≤◌, ◌++◌, true, false, All, IfErr, IfOk, IfSome, IsTrue, OnOk, length, option_map};
ghost use Rattle.std.specs.Option.{option_copied};
ghost use Rattle.reply_text.specs.Answer.{IsPrintable, answer_line, answer_of};
ghost use Rattle.script_text.specs.Action.{action_of};
ghost use Rattle.script_text.specs.Parsing.{InBounds};
ghost use Rattle.cut_places.specs.MachineModel.Commands.{refusal};
ghost use Rattle.cut_places.specs.MachineModel.Machine.{Machine};
ghost use Rattle.machine_host.specs.Settling.{GoesOn};
ghost use Rattle.machine_host.specs.Stands.{Stands};
ghost use Rattle.cut_places.specs.Outcomes.Finds.{IsReady, armed};
ghost use Rattle.cut_places.specs.Outcomes.Stops.{IsProgram, is_of_program};
ghost use Rattle.cut_places.specs.AskedReads.Program.{IsBounded, inputs_of_lines};
ghost use Rattle.explorer.specs.Leading.{led_through};
ghost use Rattle.explorer.specs.Performing.{IsAfter};
ghost use Rattle.explorer.specs.Reporting.{reason_line, refusal_line, refusals_from};
ghost use Rattle.explorer.specs.Stopping.{DeviceStopped, NoneFell};

use crate::fault::ExploreFault;
use crate::performing::{arm, refusal_of};
use line_device::LineDevice;
use machine_host::Host;
use nvm_base::{Bytes, MOST, print_number};
use reply_text::{Reply, print};
use script_text::Command;
use std::alloc::{AllocError, Global};

/// Reports the lines whose commands are refused, but for those of which that is wanted, and the wanted ones that are done: those of
/// the first lines, and then those of the program after them. Both are numbered from 1 on, and the marks are of both.
pub fn report_refusals<D: LineDevice>(
    alloc: Global,
    host: &mut Host,
    device: &mut D,
    first: &[Option<Command>],
    program: &[Option<Command>],
    wanted: &[bool],
) -> Result<Bytes, ExploreFault>
    requires known { GoesOn host.old (D.state device.old) }
    requires first { IsProgram (inputs_of_lines first.now) }
    requires first_bounded { All IsBounded first.now }
    requires first_marks { length first.now ≤ length wanted.now }
    requires program { IsProgram (inputs_of_lines program.now) }
    requires bounded { All IsBounded program.now }
    requires marks { length program.now ≤ length wanted.now }
    ensures text { (h : Machine) → Stands host.old (D.state device.old) h → IsReady h
        → IfOk result (λ text. text.items ≡ refusals_from 1 (armed h) (inputs_of_lines first.now) wanted.now
        ++ refusals_from 1 (led_through (armed h) (inputs_of_lines first.now)) (inputs_of_lines program.now) wanted.now) }
    ensures counts { OnOk result (NoneFell (D.state device.old).panel (D.state device.new).panel) }
    ensures cause { IfErr result (λ fault. fault ≡ ExploreFault.Device → DeviceStopped (D.state device.old).panel (D.state device.new).panel) }
{
    let mut work = vec![in alloc; 0u8; MOST as usize]?;
    // No cut that the program arms by itself ends the report.
    arm(host, device, &mut work)?;
    let mut text = Bytes::new(alloc);
    report_lines(alloc, host, device, first, wanted, &mut work, &mut text)?;
    report_lines(alloc, host, device, program, wanted, &mut work, &mut text)?;
    Ok(text)
}

// Performs the lines, and appends what is reported of them.
fn report_lines<D: LineDevice>(
    alloc: Global,
    host: &mut Host,
    device: &mut D,
    lines: &[Option<Command>],
    wanted: &[bool],
    work: &mut [u8],
    text: &mut Bytes,
) -> Result<(), ExploreFault>
    requires known { GoesOn host.old (D.state device.old) }
    requires wide { length work.old ≡ 65536 }
    requires program { IsProgram (inputs_of_lines lines.now) }
    requires bounded { All IsBounded lines.now }
    requires marks { length lines.now ≤ length wanted.now }
    ensures leads { (h : Machine) → Stands host.old (D.state device.old) h → IsReady h
        → OnOk result (Stands host.new (D.state device.new) (led_through h (inputs_of_lines lines.now)) × IsReady (led_through h (inputs_of_lines lines.now))) }
    ensures text { (h : Machine) → Stands host.old (D.state device.old) h → IsReady h
        → OnOk result (text.new.items ≡ text.old.items ++ refusals_from 1 h (inputs_of_lines lines.now) wanted.now) }
    ensures known { OnOk result (GoesOn host.new (D.state device.new)) }
    ensures counts { OnOk result (NoneFell (D.state device.old).panel (D.state device.new).panel) }
    ensures cause { IfErr result (λ fault. fault ≡ ExploreFault.Device → DeviceStopped (D.state device.old).panel (D.state device.new).panel) }
{
    for (i, line) in lines.iter().enumerate() {
        if let Some(command) = line {
            report_command(
                alloc,
                host,
                device,
                command,
                i as u64 + 1,
                wanted[i],
                work,
                text,
            )?;
        }
    }
    Ok(())
}

// Performs the command of line n, and appends what is reported of it.
fn report_command<D: LineDevice>(
    alloc: Global,
    host: &mut Host,
    device: &mut D,
    command: &Command,
    n: u64,
    wanted: bool,
    work: &mut [u8],
    text: &mut Bytes,
) -> Result<(), ExploreFault>
    requires known { GoesOn host.old (D.state device.old) }
    requires wide { length work.old ≡ 65536 }
    requires program { IsTrue (is_of_program (action_of command.now)) }
    requires bounded { InBounds (action_of command.now) }
    ensures text { (h : Machine) → Stands host.old (D.state device.old) h → IsReady h
        → OnOk result ((text.new.items ≡ text.old.items ++ refusal_line n (refusal h (action_of command.now)) wanted)
        × IsAfter h (action_of command.now) host.new (D.state device.new)) }
    ensures known { OnOk result (GoesOn host.new (D.state device.new)) }
    ensures counts { OnOk result (NoneFell (D.state device.old).panel (D.state device.new).panel) }
    ensures cause { IfErr result (λ fault. fault ≡ ExploreFault.Device → DeviceStopped (D.state device.old).panel (D.state device.new).panel) }
{
    let refused = refusal_of(host, device, command, work)?;
    report_line(alloc, n, refused.as_ref(), wanted, text)?;
    Ok(())
}

// Appends what is reported of line n.
fn report_line(
    alloc: Global,
    n: u64,
    refused: Option<&Reply>,
    wanted: bool,
    text: &mut Bytes,
) -> Result<(), AllocError>
    requires { IfSome refused (λ reply. IsPrintable (answer_of reply.now)) }
    ensures { OnOk result (text.new.items ≡ text.old.items ++ refusal_line n (option_map answer_of (option_copied refused.entry)) wanted) }
{
    match (refused, wanted) {
        (Some(reply), false) => print_refusal(alloc, n, reply, text),
        (None, true) => print_done(n, text),
        (Some(_), true) | (None, false) => Ok(()),
    }
}

fn print_refusal(alloc: Global, n: u64, reply: &Reply, text: &mut Bytes) -> Result<(), AllocError>
    requires { IsPrintable (answer_of reply.now) }
    ensures { OnOk result (text.new.items ≡ text.old.items ++ refusal_line n (Some (answer_of reply.now)) false) }
{
    let mut line = Bytes::new(alloc);
    print(reply, &mut line)?;
    text.extend(b"refused ")?;
    print_number(n, text)?;
    text.push(b' ')?;
    text.extend(reason_in(line.as_slice()))
}

// The line of a reply without the word `refused`.
fn reason_in(line: &[u8]) -> &[u8]
    ensures { result.now ≡ reason_line line.now }
{
    line.strip_prefix(b"refused ").unwrap_or(line)
}

fn print_done(n: u64, text: &mut Bytes) -> Result<(), AllocError>
    ensures { OnOk result (text.new.items ≡ text.old.items ++ refusal_line n None true) }
{
    text.extend(b"not refused ")?;
    print_number(n, text)?;
    text.push(b'\n')
}
