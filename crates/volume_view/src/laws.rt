// Laws of what is shown, each a function without a body.
ghost use Rattle.std.specs.Prelude.{◌≡◌, ◌↔◌, ◌*◌, ◌≤◌, ℕ, Bool, List, Some, None, IsTrue};
ghost use Rattle.std.specs.Borrow.{GName};
ghost use Rattle.nvm_base.specs.declared.units.Span.{Span};
ghost use Rattle.line_device.specs.Medium.{Medium, WritesBack};
ghost use Rattle.line_device.specs.Panel.{Outcome, Runs};
ghost use Rattle.line_device.specs.Device.{Device};
ghost use Rattle.line_words.specs.Words.{WritesBackBeside};
ghost use Rattle.range_sets.specs.Ranges.{offset_of};
ghost use Rattle.volume_view.specs.Shown.{AreLent, shown, shown_count, line_shown, shown_as};
ghost use Rattle.volume_view.specs.View.{view};

/// Each line of the device is shown as one line: those of the ranges in their order, all others past the end.
pub fn each_line_is_shown_once()
    ensures once { (ranges : List Span) (count n line : ℕ) → AreLent ranges count → line_shown ranges n ≡ Some line ↔ shown_as ranges line ≡ n }
    ensures inside { (ranges : List Span) (count line offset : ℕ) → AreLent ranges count
        → offset_of ranges (64 * line) ≡ Some offset → 64 * shown_as ranges line ≡ offset }
    ensures outside { (ranges : List Span) (count line : ℕ) → AreLent ranges count
        → offset_of ranges (64 * line) ≡ None → shown_count ranges count ≤ shown_as ranges line }
{}

/// What a view says that its lines keep, the device's lines keep, and the other way round.
pub fn frames_of_a_view_are_frames_of_the_device()
    ensures write_back { (ranges : List Span) (old new : Medium) → AreLent ranges old.count → new.count ≡ old.count
        → WritesBack old new ↔ WritesBack (shown ranges old) (shown ranges new) }
    ensures beside { (ranges : List Span) (lines : ℕ → Bool) (old new : Medium) → AreLent ranges old.count → new.count ≡ old.count
        → WritesBackBeside (λ line. IsTrue (lines (shown_as ranges line))) old new
        ↔ WritesBackBeside (λ n. IsTrue (lines n)) (shown ranges old) (shown ranges new) }
{}

/// What a view counts, its device counts; and a view that reports the same loans is one of the same ranges of the same
/// borrowed device, which has as many lines as before.
pub fn a_view_counts_as_its_device()
    ensures loans { (name other : GName) (ranges others : List Span) (old new : Device)
        → (view other others new).panel.loans ≡ (view name ranges old).panel.loans
        → (other ≡ name) × (others ≡ ranges) × (new.medium.count ≡ old.medium.count) }
    ensures runs { (calls persists : ℕ) (end : Outcome) (name other : GName) (ranges others : List Span) (old new : Device)
        → Runs calls persists end (view name ranges old).panel (view other others new).panel
        → Runs calls persists end old.panel new.panel }
{}
