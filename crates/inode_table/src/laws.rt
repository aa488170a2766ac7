// What words and slots say of each other.
ghost use Rattle.std.specs.Prelude.{◌≡◌, ℕ, List, None, Option};
ghost use Rattle.nvm_base.specs.declared.files.FileEntry.{FileEntry};
ghost use Rattle.inode_table.specs.Holds.{HoldsSlots};
ghost use Rattle.inode_table.specs.Slots.{IsTable};
ghost use Rattle.inode_table.specs.Words.{slots_of};
ghost use Rattle.inode_table.specs.Wrong.{first_wrong_word};

/// A law: words with none that is wrong hold the slots that are read of them, and words that hold a table are right and
/// are read as it.
pub fn words_hold_their_slots()
    ensures held { (words : List ℕ) → first_wrong_word words ≡ None → HoldsSlots words (slots_of words) }
    ensures read { (words : List ℕ) (slots : List (Option FileEntry)) → IsTable slots → HoldsSlots words slots → slots_of words ≡ slots }
    ensures right { (words : List ℕ) (slots : List (Option FileEntry)) → IsTable slots → HoldsSlots words slots
        → first_wrong_word words ≡ None }
{}
