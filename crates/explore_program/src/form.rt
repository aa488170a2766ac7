// A form in which a script may ask for what its look may find.
ghost use Rattle.std.specs.Prelude.{◌≡◌, ℕ, IfErr, IfOk, OnOk};
ghost use Rattle.outcome_lists.specs.MachineModel.Machine.{Machine};
ghost use Rattle.outcome_lists.specs.MachineHost.Settling.{GoesOn};
ghost use Rattle.outcome_lists.specs.MachineHost.Stands.{Stands};
ghost use Rattle.outcome_lists.specs.AskedReads.Program.{inputs_of_lines};
ghost use Rattle.outcome_lists.specs.Explorer.Starting.{Begins};
ghost use Rattle.outcome_lists.specs.Explorer.Stopping.{DeviceStopped, NoneFell};
ghost use Rattle.image_file.specs.Text.{snapshot_of};
ghost use Rattle.program_base.specs.Opening.{opened};
ghost use Rattle.explore_program.specs.Calls.{AreCommands, AreMountable, IsUnanswered};
ghost use Rattle.explore_program.specs.Showing.{begun_at, form_text, is_asked};

use crate::beginning::begin;
use crate::stop::Stop;
use exploration::Exploration;
use image_file::Image;
use line_device::LineDevice;
use nvm_base::Bytes;
use outcome_lists::exploring::{ExploreFault, tabulate};
use outcome_lists::host::Host;
use outcome_lists::list_outcomes;
use outcome_lists::reads_asked::Read;
use script_text::Command;
use std::alloc::Global;

#[derive(Clone, Copy, Debug, PartialEq, Eq)]
pub enum Form {
    /// The values of each word and block, by place.
    Table,
    /// All outcomes, one by one.
    List,
}

/// What the reads may find, in that form, on a device made again of the image.
pub fn make<D: LineDevice>(
    alloc: Global,
    image: &Image,
    first: &[Option<Command>],
    program: &[Option<Command>],
    reads: &[Read],
    form: Form,
    device: &mut D,
) -> Result<Bytes, Stop>
    requires image { AreMountable (snapshot_of image.now) }
    requires first { AreCommands first.now }
    requires program { AreCommands program.now }
    ensures text { IfOk result (λ text. text.items
        ≡ form_text form (begun_at (opened (snapshot_of image.now)) (inputs_of_lines first.now)) (inputs_of_lines program.now) reads.now) }
    ensures cause { (counted counts : ℕ) → IfErr result (λ stop. IsUnanswered stop counted counts (D.state device.old).panel (D.state device.new).panel) }
    ensures counts { OnOk result (NoneFell (D.state device.old).panel (D.state device.new).panel) }
{
    let mut host = begin(alloc, image, device)?;
    Ok(form.make(alloc, &mut host, device, first, program, reads)?)
}

impl Form {
    pub fn is_asked(self, exploration: &Exploration) -> bool
        ensures { result ≡ is_asked self exploration.now.table exploration.now.list }
    {
        match self {
            Form::Table => exploration.table,
            Form::List => exploration.list,
        }
    }

    fn make<D: LineDevice>(
        self,
        alloc: Global,
        host: &mut Host,
        device: &mut D,
        first: &[Option<Command>],
        program: &[Option<Command>],
        reads: &[Read],
    ) -> Result<Bytes, ExploreFault>
        requires known { GoesOn host.old (D.state device.old) }
        requires first { AreCommands first.now }
        requires program { AreCommands program.now }
        ensures text { (h : Machine) → Stands host.old (D.state device.old) h → Begins h
            → IfOk result (λ text. text.items
            ≡ form_text self (begun_at h (inputs_of_lines first.now)) (inputs_of_lines program.now) reads.now) }
        ensures counts { OnOk result (NoneFell (D.state device.old).panel (D.state device.new).panel) }
        ensures cause { (h : Machine) → Stands host.old (D.state device.old) h → Begins h
            → IfErr result (λ fault. fault ≡ ExploreFault.Device → DeviceStopped (D.state device.old).panel (D.state device.new).panel) }
    {
        match self {
            Form::Table => tabulate(alloc, host, device, first, program, reads),
            Form::List => list_outcomes(alloc, host, device, first, program, reads),
        }
    }
}
