// What an answer rests on: functions without code.
ghost use Rattle.std.specs.Prelude.{◌≡◌, ℕ, List, map};
ghost use Rattle.image_file.specs.Text.{Snapshot};
ghost use Rattle.word_tables.specs.declared.geometry.Geometry.{Geometry};
ghost use Rattle.outcome_lists.specs.OutcomeTest.Stops.{IsProgram};
ghost use Rattle.outcome_lists.specs.AskedReads.Program.{asks_for};
ghost use Rattle.exploration.specs.Exploration.{Exploration, script_of};
ghost use Rattle.exploration.specs.Exploration.Script.{Taken};
ghost use Rattle.outcome_lists.specs.Explorer.Starting.{Begins};
ghost use Rattle.program_base.specs.Opening.{opened};
ghost use Rattle.explore_program.specs.Calls.{AreMountable, AreTheorems, begun};

use outcome_lists::durable_laws::what_was_made_durable_stays;
use outcome_lists::runs::{runs_keep_states, scripts_bring_right, the_test_tells_what_is_found};
use outcome_lists::tables::{a_value_is_listed_where_it_may_be_shown, each_place_is_sound};
use outcome_lists::{
    each_listed_outcome_is_found, each_outcome_is_listed, each_way_is_a_choice,
    no_outcome_stands_twice,
};

/// Law: an exploration may begin in the state of a right image.
pub fn images_begin()
    ensures { (image : Snapshot) → AreMountable image → Begins (opened image) }
{
    runs_keep_states();
}

/// Law: each answer about a script is a theorem about the machine's runs, and so are its table and its list.
pub fn answers_are_theorems()
    ensures { (image : Snapshot) (geo : Geometry) (script : List ℕ) (e : Exploration) → AreMountable image
        → script_of geo script ≡ Taken e → IsProgram (map asks_for e.first) → IsProgram (map asks_for e.program)
        → AreTheorems (begun (opened image) e) (map asks_for e.program) }
{
    runs_keep_states();
    scripts_bring_right();
    the_test_tells_what_is_found();
    a_value_is_listed_where_it_may_be_shown();
    each_place_is_sound();
    each_listed_outcome_is_found();
    each_outcome_is_listed();
    each_way_is_a_choice();
    what_was_made_durable_stays();
    no_outcome_stands_twice();
}
