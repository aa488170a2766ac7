// Laws of what runs find, most of them functions without code.
ghost use Rattle.std.specs.Prelude.{◌≡◌, ◌↔◌, ℕ, true, false, List, [], None};
ghost use Rattle.line_device.specs.Panel.{Image};
ghost use Rattle.word_tables.specs.declared.geometry.Geometry.{Geometry};
ghost use Rattle.word_tables.specs.Bounds.{IsValid};
ghost use Rattle.word_tables.specs.Layout.{total_lines};
ghost use Rattle.file_journal.specs.Reading.{wrong_file_place};
ghost use Rattle.script_text.specs.Script.{Input, inputs};
ghost use Rattle.machine_model.specs.declared.mode.Mode.TheVariants.{On};
ghost use Rattle.machine_model.specs.Lines.{bad_metadata};
ghost use Rattle.machine_model.specs.Machine.{Machine};
ghost use Rattle.machine_model.specs.Restarting.{fresh, reading};
ghost use Rattle.machine_model.specs.Run.{Run, Transcript};
ghost use Rattle.outcomes.specs.Finds.{Finds, IsReady, may_find};
ghost use Rattle.outcomes.specs.Seen.{Seen};
ghost use Rattle.outcomes.specs.Stops.{IsProgram};
ghost use Rattle.outcome_runs.specs.Brings.{BringRight};
ghost use Rattle.outcome_runs.specs.Examples.{RunRows};
ghost use Rattle.outcome_runs.specs.Kept.{IsKept};

use outcomes::{what_is_found_may_be_found, what_may_be_shown_is_left, worked_questions};

/// Where words are kept whole: a state as a run begins is kept, what a mount finds nothing wrong with is, and so is each state that a run comes to from such a
/// state, whatever is cut, fails, and is restarted or recovered.
pub fn runs_keep_states()
    ensures fresh { (geo : Geometry) → IsValid geo → IsReady (fresh geo) × IsKept (fresh geo) }
    ensures mounted { (geo : Geometry) (image : Image) → IsValid geo → image.count ≡ total_lines geo → image.unit ≡ 8 → bad_metadata geo image.is_bad ≡ []
        → wrong_file_place geo image.word ≡ None → IsReady (reading geo image) × IsKept (reading geo image) }
    ensures later { (start : Machine) (inputs : List Input) (said : Transcript) (h : Machine) → IsReady start → IsKept start → BringRight inputs
        → Run start inputs said h → IsKept h }
    ensures ready { (start : Machine) (inputs : List Input) (said : Transcript) (h : Machine) → IsReady start → Run start inputs said h
        → h.mode ≡ On → h.bad_meta ≡ [] → h.fail_armed ≡ false → IsReady h }
{}

/// Whatever a script is, its commands bring what is right.
pub fn scripts_bring_right()
    ensures { (script : List ℕ) → BringRight (inputs script) }
{}

/// Whatever the test allows to be found is found: some run of the machine comes to it.
pub fn what_may_be_found_is_found()
    ensures { (h : Machine) (program : List Input) (look : List Seen) → IsReady h → IsKept h → IsProgram program → BringRight program
        → may_find h program look ≡ true → Finds h program look }
{
    what_may_be_shown_is_left();
}

/// The test is exactly what runs find, and of a script that runs on a new device whatever it says.
pub fn the_test_tells_what_is_found()
    ensures states { (h : Machine) (program : List Input) (look : List Seen) → IsReady h → IsKept h → IsProgram program → BringRight program
        → may_find h program look ≡ true ↔ Finds h program look }
    ensures scripts { (geo : Geometry) (script : List ℕ) (look : List Seen) → IsValid geo → IsProgram (inputs script)
        → may_find (fresh geo) (inputs script) look ≡ true ↔ Finds (fresh geo) (inputs script) look }
{
    what_may_be_found_is_found();
    what_is_found_may_be_found();
    runs_keep_states();
    scripts_bring_right();
}

/// Some programs, what runs of them find, and what none finds.
pub fn worked_runs()
    ensures { RunRows }
{
    the_test_tells_what_is_found();
    worked_questions();
}
