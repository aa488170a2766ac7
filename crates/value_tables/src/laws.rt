// What a table lists. None of these functions does anything.
ghost use Rattle.std.specs.Prelude.{◌≡◌, ◌*◌, ◌/◌, ◌%◌, ◌<◌, ℕ, All, List, length};
ghost use Rattle.std.specs.List.{list_any};
ghost use Rattle.block_sights.specs.Sights.{Sight};
ghost use Rattle.script_text.specs.Script.{Input};
ghost use Rattle.reply_text.specs.declared.reply.Why.TheVariants.{Missing, Range};
ghost use Rattle.cut_places.specs.MachineModel.Machine.{Machine};
ghost use Rattle.cut_places.specs.Outcomes.Finds.{IsReady};
ghost use Rattle.cut_places.specs.Outcomes.Pages.PageReply.{Poison, Refuses, Shows};
ghost use Rattle.cut_places.specs.Outcomes.Seen.{may_show};
ghost use Rattle.cut_places.specs.Outcomes.Stops.{IsProgram};
ghost use Rattle.cut_places.specs.Places.{Stop, cut_places};
ghost use Rattle.value_tables.specs.Left.{block_left, file_left, line_left};
ghost use Rattle.value_tables.specs.Listed.{IsSized, IsSound, block_read, file_word_read, lists_bytes, lists_sight, reply_of, word_read};
ghost use Rattle.value_tables.specs.Values.{block_values, cells_of, is_missing, is_past, may_be_bad, word_values};
ghost use Rattle.value_tables.specs.Worked.{WorkedTables};

/// A word or a block is listed with what a look of it alone may show: each value, poison where that may be shown, and
/// nothing else. Of a word of a file it is also that there may be no such file, or one that ends before it.
pub fn a_value_is_listed_where_it_may_be_shown()
    ensures words { (off : Machine) (p : ℕ) (bytes : List ℕ) → IsSound off → p < 512 * off.geometry.vpages → length bytes ≡ 8
        → lists_bytes bytes (word_values (p % 8) (line_left off (p / 8))) ≡ may_show (word_read p (Shows bytes)) off }
    ensures poison { (off : Machine) (p : ℕ) → IsSound off → p < 512 * off.geometry.vpages
        → may_be_bad (line_left off (p / 8)) ≡ may_show (word_read p (Poison (64 * (p / 8)))) off }
    ensures blocks { (off : Machine) (b : ℕ) (sight : Sight) → b < off.geometry.blocks → IsSized sight
        → lists_sight sight (block_values (block_left off b)) ≡ may_show (block_read b (reply_of b sight)) off }
    ensures missing { (off : Machine) (name : List ℕ) (p : ℕ) → IsSound off
        → list_any is_missing (file_left off name p) ≡ may_show (file_word_read name p (Refuses Missing)) off }
    ensures range { (off : Machine) (name : List ℕ) (p : ℕ) → IsSound off
        → list_any is_past (file_left off name p) ≡ may_show (file_word_read name p (Refuses Range)) off }
    ensures file_words { (off : Machine) (name : List ℕ) (p : ℕ) (bytes : List ℕ) → IsSound off → length bytes ≡ 8
        → lists_bytes bytes (word_values (p % 8) (cells_of (file_left off name p))) ≡ may_show (file_word_read name p (Shows bytes)) off }
    ensures file_poison { (off : Machine) (name : List ℕ) (p : ℕ) → IsSound off
        → may_be_bad (cells_of (file_left off name p)) ≡ may_show (file_word_read name p (Poison (64 * (p / 8)))) off }
{}

/// Each place of a cut is such a state, in a program that begins in one.
pub fn each_place_is_sound()
    ensures { (n : ℕ) (h : Machine) (inputs : List Input) → IsReady h → IsSound h → IsProgram inputs
        → All (λ (stop : Stop). IsSound stop.state) (cut_places n h inputs) }
{}

/// Some programs, and their tables.
pub fn worked_tables()
    ensures { WorkedTables }
{}
