// What is said of all runs of a program, of each cut and of each restart. None of these functions does anything.
ghost use Rattle.std.specs.Prelude.{◌≡◌, true, List};
ghost use Rattle.script_text.specs.Script.{Input};
ghost use Rattle.machine_model.specs.Machine.{Machine};
ghost use Rattle.durable.specs.Durable.{IsComplete};
ghost use Rattle.outcomes.specs.Blocks.{BlockRead};
ghost use Rattle.outcomes.specs.Files.{FileRead};
ghost use Rattle.outcomes.specs.Finds.{Finds, IsReady, may_find};
ghost use Rattle.outcomes.specs.Outcome.{BlocksOutcome, FilesHaveValues, FilesOutcome, HaveValues, VolumeOutcome};
ghost use Rattle.outcomes.specs.Pages.{PageRead};
ghost use Rattle.outcomes.specs.Rows.{OutcomeRows};
ghost use Rattle.outcomes.specs.Seen.{Seen, blocks_may_show, files_may_show, volume_may_show};
ghost use Rattle.outcomes.specs.Stops.{IsProgram};

/// Whatever a look shows after a cut, wherever in the program it fell, and whatever the cache wrote back before: the test allows that it
/// may be found. So what the test does not allow to be found is never found.
pub fn what_is_found_may_be_found()
    ensures { (h : Machine) (program : List Input) (look : List Seen) → IsReady h → IsProgram program → Finds h program look
        → may_find h program look ≡ true }
{}

/// The test allows no more than the machine's rules do: where it says that a state without power may show
/// these reads, there is storage that the interrupted command may have left, of which a restart kept one value of each word, that
/// shows them.
pub fn what_may_be_shown_is_left()
    ensures volume { (off : Machine) (reads : List PageRead) → IsComplete off → HaveValues off.volume → volume_may_show off reads ≡ true
        → VolumeOutcome off reads }
    ensures blocks { (off : Machine) (reads : List BlockRead) → blocks_may_show off reads ≡ true → BlocksOutcome off reads }
    ensures files { (off : Machine) (reads : List FileRead) → IsComplete off → FilesHaveValues off → files_may_show off reads ≡ true
        → FilesOutcome off reads }
{}

/// Some programs, what they may find, and what they never find.
pub fn worked_questions()
    ensures { OutcomeRows }
{}
