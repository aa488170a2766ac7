// One command of a program, on what is looked at.
ghost use Rattle.std.specs.Prelude.{◌≡◌, true, IfOk, IfSome, IsTrue, List, OnOk, is_none};
ghost use Rattle.script_text.specs.Action.{action_of};
ghost use Rattle.script_text.specs.Parsing.{InBounds};
ghost use Rattle.word_tables.specs.Bounds.{IsValid};
ghost use Rattle.sights.specs.MachineModel.Machine.{Machine};
ghost use Rattle.sights.specs.MachineModel.Commands.{refusal};
ghost use Rattle.sights.specs.Outcomes.Seen.{Seen};
ghost use Rattle.sights.specs.Outcomes.Stops.{is_of_program};
ghost use Rattle.sights.specs.AskedReads.declared.question.Question.{Question};
ghost use Rattle.sights.specs.AskedReads.Asking.{IsLook, may_be_replies};
ghost use Rattle.cut_places.specs.Enough.{IsEnough};
ghost use Rattle.cut_places.specs.Following.{Explores, Follows, IsWhole, IsWithin, Passes, ShowsIn};

use crate::place::CutPlace;
use crate::sight::Sight;
use script_text::Command;
use sights::reads_asked::Question;
use std::alloc::AllocError;
use word_tables::Geometry;

/// The first place of a cut in the command of the line of that number that may show what is asked. What is looked at is then as the
/// command leaves it, where it is done.
pub fn step(
    command: &Command,
    done: bool,
    line: u64,
    geometry: Geometry,
    question: &Question,
    sight: &mut Sight,
) -> Result<Option<CutPlace>, AllocError>
    requires valid { IsValid geometry }
    requires program { IsTrue (is_of_program (action_of command.now)) }
    requires bounded { InBounds (action_of command.now) }
    requires within { IsWithin sight.old geometry }
    requires replies { may_be_replies geometry question.now ≡ true }
    ensures explores { (h : Machine) (look : List Seen) → Follows sight.old geometry h → IsEnough sight.old question.now → IsLook look question.now
        → is_none (refusal h (action_of command.now)) ≡ done
        → IfOk result (Explores line (action_of command.now) look sight.new geometry h) }
    ensures shown { IfOk result (λ found. IfSome found (ShowsIn line (action_of command.now) question.now sight.new geometry)) }
    ensures enough { IsEnough sight.old question.now → OnOk result (IsEnough sight.new question.now) }
    ensures whole { (other : Question) → IsWhole sight.old other → OnOk result (IsWhole sight.new other) }
    ensures within { OnOk result (IsWithin sight.new geometry) }
{
    if sight.shows(question) {
        return Ok(Some(CutPlace::Before(line)));
    }
    if !done {
        return Ok(None);
    }
    pass(command, line, geometry, question, sight)
}

// A command that is done: what a cut inside it leaves, and then what is seen after it.
fn pass(
    command: &Command,
    line: u64,
    geometry: Geometry,
    question: &Question,
    sight: &mut Sight,
) -> Result<Option<CutPlace>, AllocError>
    requires valid { IsValid geometry }
    requires bounded { InBounds (action_of command.now) }
    ensures { IfOk result (Passes geometry (action_of command.now) line question.now sight.old sight.new) }
{
    if sight.shows_inside(question, geometry, command)? {
        return Ok(Some(CutPlace::Inside(line)));
    }
    sight.change(geometry, command)?;
    Ok(None)
}
