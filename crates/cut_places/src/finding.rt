// Where in a program a cut first leaves what a question asks for.
ghost use Rattle.std.specs.Prelude.{◌≡◌, true, All, IfOk, IfSome, List, OnOk, length};
ghost use Rattle.word_tables.specs.Bounds.{IsValid};
ghost use Rattle.sights.specs.MachineModel.Machine.{Machine};
ghost use Rattle.sights.specs.Outcomes.Seen.{Seen};
ghost use Rattle.sights.specs.Outcomes.Stops.{IsProgram};
ghost use Rattle.sights.specs.AskedReads.declared.question.Question.{Question};
ghost use Rattle.sights.specs.AskedReads.Asking.{IsLook, may_be_replies};
ghost use Rattle.sights.specs.AskedReads.Program.{IsBounded, inputs_of_lines};
ghost use Rattle.cut_places.specs.Enough.{IsEnough};
ghost use Rattle.cut_places.specs.Following.{AreDone, Follows, IsFirst, IsWhole, IsWithin, ShowsAt};
ghost use Rattle.cut_places.specs.Places.{cut_places};

use crate::place::CutPlace;
use crate::sight::Sight;
use crate::stepping::step;
use script_text::Command;
use sights::reads_asked::Question;
use std::alloc::AllocError;
use word_tables::Geometry;

/// The first place of a cut in the program after which the question's look may show what it asks for, None where no cut leaves it. A
/// line of the program without a command is None; `done` has which commands the machine does not refuse. More may be looked at than the
/// question asks about. What is looked at is then that of the place, before what is interrupted there.
pub fn find(
    program: &[Option<Command>],
    done: &[bool],
    geometry: Geometry,
    question: &Question,
    sight: &mut Sight,
) -> Result<Option<CutPlace>, AllocError>
    requires valid { IsValid geometry }
    requires program { IsProgram (inputs_of_lines program.now) }
    requires bounded { All IsBounded program.now }
    requires told { length done.now ≡ length program.now }
    requires within { IsWithin sight.old geometry }
    requires replies { may_be_replies geometry question.now ≡ true }
    ensures first { (h : Machine) (look : List Seen) → Follows sight.old geometry h → IsEnough sight.old question.now → AreDone h program.now done.now → IsLook look question.now
        → IfOk result (IsFirst program.now look sight.new geometry (cut_places 1 h (inputs_of_lines program.now))) }
    ensures shown { IfOk result (λ found. IfSome found (ShowsAt program.now question.now sight.new geometry)) }
    ensures whole { (other : Question) → IsWhole sight.old other → OnOk result (IsWhole sight.new other) }
    ensures within { OnOk result (IsWithin sight.new geometry) }
{
    for (i, line) in program.iter().enumerate() {
        if let Some(command) = line {
            let found = step(command, done[i], i as u64 + 1, geometry, question, sight)?;
            if found.is_some() {
                return Ok(found);
            }
        }
    }
    if sight.shows(question) {
        return Ok(Some(CutPlace::Before(program.len() as u64 + 1)));
    }
    Ok(None)
}
