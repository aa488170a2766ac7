// One question, on a device made again of the image.
ghost use Rattle.std.specs.Prelude.{◌≡◌, ℕ, true, IfErr, IfOk, List, OnOk};
ghost use Rattle.outcome_lists.specs.OutcomeTest.Seen.{Seen};
ghost use Rattle.outcome_lists.specs.AskedReads.Asking.{IsLook, may_be_replies};
ghost use Rattle.outcome_lists.specs.AskedReads.Program.{inputs_of_lines};
ghost use Rattle.outcome_lists.specs.CutPlaces.Places.{found_stop};
ghost use Rattle.outcome_lists.specs.Explorer.Finding.{IsFound};
ghost use Rattle.outcome_lists.specs.Explorer.Stopping.{NoneFell};
ghost use Rattle.outcome_lists.specs.Explorer.Tabulating.{LooksWithin};
ghost use Rattle.image_file.specs.Text.{snapshot_of};
ghost use Rattle.program_base.specs.Opening.{opened};
ghost use Rattle.explore_program.specs.Calls.{AreCommands, AreMountable, IsUnanswered};
ghost use Rattle.explore_program.specs.Showing.{begun_at};

use crate::beginning::begin;
use crate::stop::Stop;
use exploration::Exploration;
use image_file::Image;
use line_device::LineDevice;
use outcome_lists::exploring::{Found, explore};
use outcome_lists::reads_asked::Question;
use std::alloc::Global;

/// The first place of a cut in the program after which the question's look may show what it asks for, and what is kept then of all
/// that is looked at.
pub fn find<D: LineDevice>(
    alloc: Global,
    image: &Image,
    exploration: &Exploration,
    looked: &Question,
    question: &Question,
    device: &mut D,
) -> Result<Option<Found>, Stop>
    requires image { AreMountable (snapshot_of image.now) }
    requires first { AreCommands exploration.now.first.items }
    requires program { AreCommands exploration.now.program.items }
    requires replies { may_be_replies (opened (snapshot_of image.now)).geometry looked.now ≡ true }
    ensures found { (look all : List Seen) → IsLook look question.now → IsLook all looked.now → LooksWithin all look
        → IfOk result (IsFound all look
        (found_stop (begun_at (opened (snapshot_of image.now)) (inputs_of_lines exploration.now.first.items)) (inputs_of_lines exploration.now.program.items) look)) }
    ensures cause { (counted counts : ℕ) → IfErr result (λ stop. IsUnanswered stop counted counts (D.state device.old).panel (D.state device.new).panel) }
    ensures counts { OnOk result (NoneFell (D.state device.old).panel (D.state device.new).panel) }
{
    let mut host = begin(alloc, image, device)?;
    let first = &exploration.first;
    let program = &exploration.program;
    Ok(explore(alloc, &mut host, device, first, program, looked, question)?)
}
