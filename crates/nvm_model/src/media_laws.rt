// Laws of media errors, each a function without a body.
ghost use Rattle.std.specs.Prelude.{◌≡◌, ◌≢◌, ◌<◌, ℕ, true, false, List, Option, Some, None, length, option_map, slice_get};
ghost use Rattle.line_device.specs.Medium.{Medium, WritesBack, Weakens, poisoned, cleared};
ghost use Rattle.nvm_model.specs.Blocks.{nth, lose, lose_line, lose_at};
ghost use Rattle.nvm_model.specs.Cell.{Cell, CellStands, lose_cell, weaken_cell, clear_cell};
ghost use Rattle.nvm_model.specs.Page.{Page, cell_of, change_line, presence_of, PagesStand};
ghost use Rattle.nvm_model.specs.Storage.{Block};

/// A change of one line of pages changes no other, and no page comes or goes.
pub fn one_line_changes_alone()
    ensures line { (f : Cell → Cell) (n : ℕ) (pages : List Page) → cell_of (change_line f n pages) n ≡ option_map f (cell_of pages n) }
    ensures others { (f : Cell → Cell) (n : ℕ) (pages : List Page) (i : ℕ) → i ≢ n → cell_of (change_line f n pages) i ≡ cell_of pages i }
    ensures there { (f : Cell → Cell) (n : ℕ) (pages : List Page) → presence_of (change_line f n pages) ≡ presence_of pages }
{}

/// A media error takes one line of one block: it is bad then, and the block's other lines and the other blocks stay.
pub fn a_block_loses_one_line()
    ensures block { (block line : ℕ) (blocks : List Block) → nth (lose block line blocks) block ≡ lose_line line (nth blocks block) }
    ensures others { (block line : ℕ) (blocks : List Block) (i : ℕ) → i ≢ block → nth (lose block line blocks) i ≡ nth blocks i }
    ensures line { (line : ℕ) (lines : List (Option (List ℕ))) → line < length lines → slice_get (lose_at line lines) line ≡ Some None }
    ensures other_lines { (line k : ℕ) (lines : List (Option (List ℕ))) → k ≢ line → slice_get (lose_at line lines) k ≡ slice_get lines k }
{}

/// A line of a device that is poisoned, made weak or, where it is bad, cleared stands for its cell after the same.
pub fn media_errors_keep_step()
    ensures lost { (m after : Medium) (n : ℕ) (cell : Cell) → WritesBack (poisoned m n) after → CellStands after n (lose_cell cell) }
    ensures weak { (m after : Medium) (n : ℕ) (cell : Cell) → Weakens n m after → CellStands m n cell → CellStands after n (weaken_cell cell) }
    ensures cleared { (m after : Medium) (n : ℕ) (cell : Cell) → m.is_bad n ≡ true → WritesBack (cleared m n) after
        → CellStands m n cell → CellStands after n (clear_cell cell) }
    ensures healthy { (m : Medium) (n : ℕ) (cell : Cell) → m.is_bad n ≡ false → CellStands m n cell → clear_cell cell ≡ cell }
    ensures pages { (f : Cell → Cell) (n : ℕ) (place : ℕ → ℕ) (m after : Medium) (pages : List Page) → PagesStand place m pages
        → ((cell : Cell) → CellStands m (place n) cell → CellStands after (place n) (f cell))
        → ((i : ℕ) (cell : Cell) → cell_of pages i ≡ Some cell → i ≢ n → CellStands m (place i) cell → CellStands after (place i) cell)
        → PagesStand place after (change_line f n pages) }
{}
