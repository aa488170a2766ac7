// All questions of a script, one line each.
ghost use Rattle.std.specs.Prelude.{◌≡◌, List, []};
ghost use Rattle.outcome_lists.specs.AskedReads.Program.{inputs_of_lines};
ghost use Rattle.exploration.specs.Exploration.{Asked};
ghost use Rattle.exploration.specs.Reading.{AskOf};
ghost use Rattle.outcome_lists.specs.CutPlaces.Places.{found_stop};
ghost use Rattle.outcome_lists.specs.Explorer.Tabulating.{looked};
ghost use Rattle.image_file.specs.Text.{snapshot_of};
ghost use Rattle.program_base.specs.Opening.{opened};
ghost use Rattle.word_tables.specs.Bounds.{IsValid};
ghost use Rattle.explore_program.specs.Calls.{AllAskOf, AnswersAll, AreCommands, AreMountable};
ghost use Rattle.explore_program.specs.Showing.{begun_at};

use crate::asking::find;
use crate::stop::Stop;
use crate::telling::{answer_line, is_missed};
use exploration::Exploration;
use host_io::Sink;
use image_file::Image;
use line_device::LineDevice;
use outcome_lists::exploring::look_at;
use program_base::tell;
use std::alloc::Global;
use word_tables::Geometry;

/// Answers all questions, and returns whether one is answered otherwise than it is to be.
pub fn answer_all<D: LineDevice, K: Sink>(
    alloc: Global,
    image: &Image,
    geometry: Geometry,
    exploration: &Exploration,
    device: &mut D,
    answers: &mut K,
) -> Result<bool, Stop>
    requires image { AreMountable (snapshot_of image.now) }
    requires first { AreCommands exploration.now.first.items }
    requires program { AreCommands exploration.now.program.items }
    requires sizes { (opened (snapshot_of image.now)).geometry ≡ geometry }
    requires valid { IsValid geometry }
    ensures { (asked : List Asked) → AskOf asked exploration.now.questions.items
        → AllAskOf (opened (snapshot_of image.now)).geometry exploration.now.reads.items asked
        → AnswersAll (looked (opened (snapshot_of image.now)).geometry exploration.now.reads.items) [] (found_stop (begun_at (opened (snapshot_of image.now)) (inputs_of_lines exploration.now.first.items)) (inputs_of_lines exploration.now.program.items)) asked result
        (K.written answers.old) (K.written answers.new) (K.count answers.old) (K.count answers.new) (D.state device.old).panel (D.state device.new).panel }
{
    let looked = look_at(alloc, geometry, &exploration.reads)?;
    let mut missed = false;
    for asking in exploration.questions.iter() {
        let question = &asking.question;
        let found = find(alloc, image, exploration, &looked, question, device)?;
        tell(answer_line(alloc, &looked, &found), answers)?;
        missed = missed || is_missed(asking.wanted, &found);
    }
    Ok(missed)
}
