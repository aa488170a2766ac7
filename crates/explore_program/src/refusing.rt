// The commands that are refused, or done, otherwise than the script says.
ghost use Rattle.std.specs.Prelude.{◌≡◌, ◌≤◌, ◌==◌, ℕ, IfErr, IfOk, OnOk, length, not};
ghost use Rattle.outcome_lists.specs.AskedReads.Program.{inputs_of_lines};
ghost use Rattle.outcome_lists.specs.Explorer.Stopping.{NoneFell};
ghost use Rattle.image_file.specs.Text.{snapshot_of};
ghost use Rattle.program_base.specs.Opening.{opened};
ghost use Rattle.explore_program.specs.Calls.{AreCommands, AreMountable, IsUnanswered, TellsShown};
ghost use Rattle.explore_program.specs.Showing.{refusals};

use crate::beginning::begin;
use crate::stop::Stop;
use exploration::Exploration;
use host_io::Sink;
use image_file::Image;
use line_device::LineDevice;
use nvm_base::Bytes;
use outcome_lists::exploring::report_refusals;
use program_base::tell;
use script_text::Command;
use std::alloc::Global;

/// Writes a line for each, and returns whether there is one.
pub fn report<D: LineDevice, K: Sink>(
    alloc: Global,
    image: &Image,
    exploration: &Exploration,
    device: &mut D,
    answers: &mut K,
) -> Result<bool, Stop>
    requires image { AreMountable (snapshot_of image.now) }
    requires first { AreCommands exploration.now.first.items }
    requires first_marks { length exploration.now.first.items ≤ length exploration.now.refused.items }
    requires program { AreCommands exploration.now.program.items }
    requires marks { length exploration.now.program.items ≤ length exploration.now.refused.items }
    ensures tells { TellsShown (refusals (opened (snapshot_of image.now)) (inputs_of_lines exploration.now.first.items) (inputs_of_lines exploration.now.program.items) exploration.now.refused.items)
        result (K.written answers.old) (K.written answers.new) (K.count answers.old) (K.count answers.new) (D.state device.old).panel (D.state device.new).panel }
    ensures is { IfOk result (λ is. is
        ≡ not (length (refusals (opened (snapshot_of image.now)) (inputs_of_lines exploration.now.first.items) (inputs_of_lines exploration.now.program.items) exploration.now.refused.items) == 0)) }
    ensures later { K.count answers.old ≤ K.count answers.new }
    ensures counts { OnOk result (NoneFell (D.state device.old).panel (D.state device.new).panel) }
{
    let first = &exploration.first;
    let program = &exploration.program;
    let text = refused(alloc, image, first, program, &exploration.refused, device)?;
    if text.is_empty() {
        return Ok(false);
    }
    tell(Ok(text), answers)?;
    Ok(true)
}

// The lines, on a device made again of the image.
fn refused<D: LineDevice>(
    alloc: Global,
    image: &Image,
    first: &[Option<Command>],
    program: &[Option<Command>],
    wanted: &[bool],
    device: &mut D,
) -> Result<Bytes, Stop>
    requires image { AreMountable (snapshot_of image.now) }
    requires first { AreCommands first.now }
    requires first_marks { length first.now ≤ length wanted.now }
    requires program { AreCommands program.now }
    requires marks { length program.now ≤ length wanted.now }
    ensures text { IfOk result (λ text. text.items
        ≡ refusals (opened (snapshot_of image.now)) (inputs_of_lines first.now) (inputs_of_lines program.now) wanted.now) }
    ensures cause { (counted counts : ℕ) → IfErr result (λ stop. IsUnanswered stop counted counts (D.state device.old).panel (D.state device.new).panel) }
    ensures counts { OnOk result (NoneFell (D.state device.old).panel (D.state device.new).panel) }
{
    let mut host = begin(alloc, image, device)?;
    Ok(report_refusals(alloc, &mut host, device, first, program, wanted)?)
}
