// What a look's outcomes rest on. None of these functions does anything.
ghost use Rattle.std.specs.Prelude.{◌≡◌, ◌*◌, ◌<◌, ℕ, All, true, Contains, List, [], length};
ghost use Rattle.block_sights.specs.Sights.{Sight};
ghost use Rattle.script_text.specs.Script.{Input};
ghost use Rattle.explorer.specs.MachineModel.Machine.{Machine};
ghost use Rattle.explorer.specs.Durable.Durable.{BringBytes};
ghost use Rattle.explorer.specs.Outcomes.Finds.{IsReady};
ghost use Rattle.explorer.specs.Outcomes.Pages.PageReply.{Shows};
ghost use Rattle.explorer.specs.Outcomes.Seen.{Seen, may_show};
ghost use Rattle.explorer.specs.Outcomes.Stops.{IsProgram};
ghost use Rattle.explorer.specs.AskedReads.declared.read.Read.{Read};
ghost use Rattle.explorer.specs.AskedReads.declared.read.Read.TheVariants.{Volume, Blocks, File};
ghost use Rattle.explorer.specs.CutPlaces.Places.{Stop, cut_places};
ghost use Rattle.explorer.specs.ValueTables.Listed.{IsSized, IsSound, block_read, file_word_read, lists_bytes, lists_sight, reply_of, word_read};
ghost use Rattle.explorer.specs.Leading.{led_through};
ghost use Rattle.explorer.specs.Starting.{AreDurable, HaveDurable};
ghost use Rattle.outcome_lists.specs.Choices.{sights_through, states, values_through};
ghost use Rattle.outcome_lists.specs.Listing.{IsFound, StandOnce};
ghost use Rattle.outcome_lists.specs.Outcomes.{Asked, Outcome, and_seen, look_of, outcomes_of};

/// What may be shown with one read more may be shown without it.
pub fn a_shorter_look_is_shown()
    ensures { (off : Machine) (a : Asked) (seen : Seen) → may_show (look_of (and_seen a seen)) off ≡ true → may_show (look_of a) off ≡ true }
{}

/// Each outcome of a list is of one choice of each part, and its place is the first that may show them together.
pub fn each_listed_outcome_is_found()
    ensures { (h : Machine) (program : List Input) (parts : List Read) (o : Outcome) → Contains (outcomes_of h program parts) o → IsFound h program parts o }
{}

/// Choices that are found together, one of each part, are an outcome of the list.
pub fn each_outcome_is_listed()
    ensures { (h : Machine) (program : List Input) (parts : List Read) (o : Outcome) → IsFound h program parts o → Contains (outcomes_of h program parts) o }
{}

/// No outcome stands twice in a list, so that its length is how many there are: of a program after first lines that begin where all
/// is durable, as in an image that was opened, and where what the commands bring are bytes.
pub fn no_outcome_stands_twice()
    ensures { (h : Machine) (first program : List Input) (parts : List Read) → AreDurable h.volume → HaveDurable h.files
        → BringBytes first → BringBytes program → StandOnce (outcomes_of (led_through h first) program parts) }
{}

/// Whatever some place may show of a word or of a block alone is one of its choices: the word has that value, or the block is seen
/// so, in some state of the program.
pub fn each_way_is_a_choice()
    ensures words { (h : Machine) (program : List Input) (p : ℕ) (bytes : List ℕ) → IsReady h → IsSound h → IsProgram program
        → p < 512 * h.geometry.vpages → length bytes ≡ 8
        → All (λ (stop : Stop). may_show (word_read p (Shows bytes)) stop.state ≡ true
        → lists_bytes bytes (values_through (Volume (8 * p) 8) [] (states h program)) ≡ true) (cut_places 1 h program) }
    ensures blocks { (h : Machine) (program : List Input) (b : ℕ) (sight : Sight) → IsReady h → IsSound h → IsProgram program
        → b < h.geometry.blocks → IsSized sight
        → All (λ (stop : Stop). may_show (block_read b (reply_of b sight)) stop.state ≡ true
        → lists_sight sight (sights_through (Blocks b 1) [] (states h program)) ≡ true) (cut_places 1 h program) }
    ensures file_words { (h : Machine) (program : List Input) (name : List ℕ) (p : ℕ) (bytes : List ℕ) → IsReady h → IsSound h
        → IsProgram program → length bytes ≡ 8
        → All (λ (stop : Stop). may_show (file_word_read name p (Shows bytes)) stop.state ≡ true
        → lists_bytes bytes (values_through (File name (8 * p) 8) [] (states h program)) ≡ true) (cut_places 1 h program) }
{}
