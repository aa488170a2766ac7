// A replay on lists of words, and a small log worked through.
ghost use Rattle.std.specs.Prelude.{◌≡◌, ◌+◌, ◌*◌, ◌<◌, ◌≤◌, ◌^◌, ℕ, None, Some, [], ◌∷◌, length, slice_index};
ghost use Rattle.word_log.specs.Area.{IsShaped, count_place, entry_place};
ghost use Rattle.word_log.specs.Changes.{changed, MayCommit};
ghost use Rattle.word_log.specs.Replay.{entries, first_wrong, replayed};
ghost use Rattle.word_log.specs.Lists.{on_lists};
ghost use Rattle.word_log.specs.Examples.{small_area, zeros_but, home_words};

use crate::LogArea;
use crate::protocol::OPEN;

/// Gives the home words the values of a number of entries.
fn write_home(area: LogArea, log: &[u64], home: &mut [u64], count: u64)
    requires shape { IsShaped area }
    requires log { length log.now ≡ 8 * area.log.len }
    requires home { length home.old ≡ area.home.len }
    requires room { 8 + 2 * count ≤ length log.now }
    requires taken { MayCommit area (entries (on_lists area log.now home.old) (entry_place area 0) count) }
    ensures { (j : ℕ) → j < area.home.len → slice_index home.new j
        ≡ changed (entries (on_lists area log.now home.old) (entry_place area 0) count)
        (on_lists area log.now home.old) (area.home.start + j) }
{
    for k in 0..count {
        let at = 8 + 2 * k as usize;
        let place = log[at] - area.home.start;
        home[place as usize] = log[at + 1];
    }
}

/// Replays a valid log on its words and those of its home.
pub fn replay(area: LogArea, log: &[u64], home: &mut [u64])
    requires shape { IsShaped area }
    requires log { length log.now ≡ 8 * area.log.len }
    requires home { length home.old ≡ area.home.len }
    requires valid { first_wrong area (on_lists area log.now home.old) ≡ None }
    ensures { (j : ℕ) → j < area.home.len → slice_index home.new j
        ≡ replayed area (on_lists area log.now home.old) (area.home.start + j) }
{
    if log[0] == OPEN {
        write_home(area, log, home, log[1]);
    }
}

/// What the definitions say of a small log.
pub fn small_log_worked_through()
    ensures changes { home_words (changed ((16, 5) ∷ (23, 9) ∷ []) (zeros_but []))
        ≡ 5 ∷ 0 ∷ 0 ∷ 0 ∷ 0 ∷ 0 ∷ 0 ∷ 9 ∷ [] }
    ensures closed { home_words (replayed small_area (zeros_but ((1, 2) ∷ (8, 16) ∷ (9, 5) ∷ (10, 23) ∷ (11, 9) ∷ [])))
        ≡ 0 ∷ 0 ∷ 0 ∷ 0 ∷ 0 ∷ 0 ∷ 0 ∷ 0 ∷ [] }
    ensures open_ { home_words (replayed small_area (zeros_but ((0, 1) ∷ (1, 2) ∷ (8, 16) ∷ (9, 5) ∷ (10, 23) ∷ (11, 9) ∷ [])))
        ≡ 5 ∷ 0 ∷ 0 ∷ 0 ∷ 0 ∷ 0 ∷ 0 ∷ 9 ∷ [] }
    ensures gate { first_wrong small_area (zeros_but ((0, 2) ∷ [])) ≡ Some 0 }
    ensures count { first_wrong small_area (zeros_but ((0, 1) ∷ [])) ≡ Some 1 }
    ensures outside { first_wrong small_area (zeros_but ((0, 1) ∷ (1, 1) ∷ (8, 15) ∷ [])) ≡ Some 8 }
    ensures twice { first_wrong small_area (zeros_but ((0, 1) ∷ (1, 2) ∷ (8, 16) ∷ (10, 16) ∷ [])) ≡ Some 10 }
{}
