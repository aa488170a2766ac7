ghost use Rattle.std.specs.Prelude.{◌≡◌, ℕ, List, Some};
ghost use Rattle.script_text.specs.Action.{Action};
ghost use Rattle.reply_text.specs.Answer.{Answer};
ghost use Rattle.outcomes.specs.Seen.{Seen, answer, command};
ghost use Rattle.word_tables.specs.declared.geometry.Geometry.{Geometry};
ghost use Rattle.exploration.specs.Answerable.{AllSeenBy};
ghost use Rattle.exploration.specs.Exploration.{Exploration, script_of};
ghost use Rattle.exploration.specs.Exploration.Script.{Taken};
ghost use Rattle.exploration.specs.Performing.{IsPerformed};
ghost use Rattle.exploration.specs.Reads.{seen_of};
ghost use Rattle.exploration.specs.Telling.{IsInRange, reason_text};
ghost use Rattle.exploration.specs.declared.reason.Reason.{Reason};

/// A command and its answer are seen as a read with its reply that has both, and each read with its reply is so seen.
pub fn what_is_seen_was_asked()
    ensures seen { (asked : Action) (replied : Answer) (seen : Seen) → seen_of asked replied ≡ Some seen
        → (command seen ≡ asked) × (answer seen ≡ replied) }
    ensures all { (seen : Seen) → seen_of (command seen) (answer seen) ≡ Some seen }
{}

/// The program asked about, and its reads, are what a host performs of the script.
pub fn what_is_asked_is_performed()
    ensures { (geo : Geometry) (text : List ℕ) (e : Exploration) → script_of geo text ≡ Taken e → IsPerformed text e }
{}

/// What a question asks are reads of the look, each with a reply that it may have on a device of these sizes.
pub fn what_is_asked_was_read()
    ensures { (geo : Geometry) (text : List ℕ) (e : Exploration) → script_of geo text ≡ Taken e → AllSeenBy geo e.reads e.questions }
{}

/// No two reasons have one text.
pub fn each_reason_has_its_text()
    ensures { (a b : Reason) → IsInRange a → IsInRange b → reason_text a ≡ reason_text b → a ≡ b }
{}
