// What the look's reads may find, where the script asks for it: a table of their values, and a list of all outcomes.
ghost use Rattle.std.specs.Prelude.{◌≡◌, ◌≤◌, ◌++◌, ℕ, IfErr, IfOk, OnOk};
ghost use Rattle.outcome_lists.specs.AskedReads.Program.{inputs_of_lines};
ghost use Rattle.outcome_lists.specs.Explorer.Stopping.{NoneFell};
ghost use Rattle.image_file.specs.Text.{snapshot_of};
ghost use Rattle.program_base.specs.Opening.{opened};
ghost use Rattle.explore_program.specs.Calls.{AreCommands, AreMountable, IsUnanswered, TellsShown};
ghost use Rattle.explore_program.specs.Showing.{begun_at, if_asked, is_asked, shown};

use crate::form::{Form, make};
use crate::stop::Stop;
use exploration::Exploration;
use host_io::Sink;
use image_file::Image;
use line_device::LineDevice;
use nvm_base::Bytes;
use program_base::tell;
use std::alloc::Global;

/// Writes it, if anything of it is asked for.
pub fn show<D: LineDevice, K: Sink>(
    alloc: Global,
    image: &Image,
    exploration: &Exploration,
    device: &mut D,
    answers: &mut K,
) -> Result<(), Stop>
    requires image { AreMountable (snapshot_of image.now) }
    requires first { AreCommands exploration.now.first.items }
    requires program { AreCommands exploration.now.program.items }
    ensures tells { TellsShown (shown exploration.now.table exploration.now.list (begun_at (opened (snapshot_of image.now)) (inputs_of_lines exploration.now.first.items)) (inputs_of_lines exploration.now.program.items) exploration.now.reads.items)
        result (K.written answers.old) (K.written answers.new) (K.count answers.old) (K.count answers.new) (D.state device.old).panel (D.state device.new).panel }
    ensures later { K.count answers.old ≤ K.count answers.new }
    ensures counts { OnOk result (NoneFell (D.state device.old).panel (D.state device.new).panel) }
{
    let text = asked(alloc, image, exploration, device)?;
    if text.is_empty() {
        return Ok(());
    }
    Ok(tell(Ok(text), answers)?)
}

// The table, and then the list, where they are asked for.
fn asked<D: LineDevice>(
    alloc: Global,
    image: &Image,
    exploration: &Exploration,
    device: &mut D,
) -> Result<Bytes, Stop>
    requires image { AreMountable (snapshot_of image.now) }
    requires first { AreCommands exploration.now.first.items }
    requires program { AreCommands exploration.now.program.items }
    ensures text { IfOk result (λ text. text.items
        ≡ shown exploration.now.table exploration.now.list (begun_at (opened (snapshot_of image.now)) (inputs_of_lines exploration.now.first.items)) (inputs_of_lines exploration.now.program.items) exploration.now.reads.items) }
    ensures cause { (counted counts : ℕ) → IfErr result (λ stop. IsUnanswered stop counted counts (D.state device.old).panel (D.state device.new).panel) }
    ensures counts { OnOk result (NoneFell (D.state device.old).panel (D.state device.new).panel) }
{
    let mut text = Bytes::new(alloc);
    add(alloc, image, exploration, Form::Table, device, &mut text)?;
    add(alloc, image, exploration, Form::List, device, &mut text)?;
    Ok(text)
}

// What may be found, in one form, if that is asked for.
fn add<D: LineDevice>(
    alloc: Global,
    image: &Image,
    exploration: &Exploration,
    form: Form,
    device: &mut D,
    text: &mut Bytes,
) -> Result<(), Stop>
    requires image { AreMountable (snapshot_of image.now) }
    requires first { AreCommands exploration.now.first.items }
    requires program { AreCommands exploration.now.program.items }
    ensures text { OnOk result (text.new.items ≡ text.old.items
        ++ if_asked (is_asked form exploration.now.table exploration.now.list) form (begun_at (opened (snapshot_of image.now)) (inputs_of_lines exploration.now.first.items)) (inputs_of_lines exploration.now.program.items) exploration.now.reads.items) }
    ensures cause { (counted counts : ℕ) → IfErr result (λ stop. IsUnanswered stop counted counts (D.state device.old).panel (D.state device.new).panel) }
    ensures counts { OnOk result (NoneFell (D.state device.old).panel (D.state device.new).panel) }
{
    if !form.is_asked(exploration) {
        return Ok(());
    }
    let first = &exploration.first;
    let program = &exploration.program;
    let made = make(
        alloc,
        image,
        first,
        program,
        &exploration.reads,
        form,
        device,
    )?;
    text.extend(made.as_slice())?;
    Ok(())
}
