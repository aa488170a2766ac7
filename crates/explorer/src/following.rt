// What is looked at, from before a command to after it.
ghost use Rattle.std.specs.Prelude.{◌≡◌, IsTrue, List, OnOk, is_none};
ghost use Rattle.script_text.specs.Action.{action_of};
ghost use Rattle.script_text.specs.Parsing.{InBounds};
ghost use Rattle.word_tables.specs.Bounds.{IsValid};
ghost use Rattle.cut_places.specs.MachineModel.Commands.{fate, refusal};
ghost use Rattle.cut_places.specs.MachineModel.Machine.{Machine};
ghost use Rattle.cut_places.specs.Outcomes.Stops.{is_of_program, led_to};
ghost use Rattle.cut_places.specs.AskedReads.declared.question.Question.{Question};
ghost use Rattle.cut_places.specs.AskedReads.declared.read.Read.{Read};
ghost use Rattle.cut_places.specs.Following.{Follows, IsWhole, IsWithin};
ghost use Rattle.value_tables.specs.Looking.{IsOf};

use cut_places::Sight;
use script_text::Command;
use std::alloc::AllocError;
use word_tables::Geometry;

/// Changes the sight to that after the command, where the command is done.
pub fn follow(
    geometry: Geometry,
    command: &Command,
    done: bool,
    sight: &mut Sight,
) -> Result<(), AllocError>
    requires valid { IsValid geometry }
    requires program { IsTrue (is_of_program (action_of command.now)) }
    requires bounded { InBounds (action_of command.now) }
    requires within { IsWithin sight.old geometry }
    ensures follows { (h : Machine) → Follows sight.old geometry h → is_none (refusal h (action_of command.now)) ≡ done
        → OnOk result (Follows sight.new geometry (led_to h (fate h (action_of command.now)))) }
    ensures within { OnOk result (IsWithin sight.new geometry) }
    ensures looks { (look : List Read) → IsOf sight.old geometry look → OnOk result (IsOf sight.new geometry look) }
    ensures whole { (question : Question) → IsWhole sight.old question → OnOk result (IsWhole sight.new question) }
{
    if !done {
        return Ok(());
    }
    sight.change(geometry, command)
}
