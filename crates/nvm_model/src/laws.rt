// Laws of what actions do to pages, each a function without a body.
ghost use Rattle.std.specs.Prelude.{◌≡◌, ◌<◌, ◌+◌, ◌*◌, ◌/◌, ◌%◌, ℕ, Bool, true, false, List, Some, length, option_map, slice_get, slice_index};
ghost use Rattle.std.specs.Int.{byte_at};
ghost use Rattle.line_device.specs.Word.{byte_over};
ghost use Rattle.line_device.specs.Medium.{Medium, Survivors, WritesBack, persisted};
ghost use Rattle.line_device.specs.Panel.{Image};
ghost use Rattle.line_device.specs.Device.{Depicts};
ghost use Rattle.line_device.specs.declared.line.Choice.{Choice};
ghost use Rattle.line_device.specs.declared.line.Choice.TheVariants.{Lasts};
ghost use Rattle.nvm_model.specs.Cell.{Cell, put_cell, persist_cell, flush_cell, TakesPut, touches, CellStands};
ghost use Rattle.nvm_model.specs.Cell.Cell.{Kept};
ghost use Rattle.nvm_model.specs.Page.{Page, cell_of, discard, fill, put, persist, presence_of, byte_in, read_pages, touches_absent, KeepsPages, PagesStand};

/// An action changes each line by its number; filling changes no line that exists, and a discard none that is left.
pub fn actions_go_line_by_line()
    ensures put { (at : ℕ) (bytes : List ℕ) (pages : List Page) (n : ℕ)
        → cell_of (put at bytes pages) n ≡ option_map (put_cell at bytes n) (cell_of pages n) }
    ensures persist { (start len : ℕ) (pages : List Page) (n : ℕ)
        → cell_of (persist start len pages) n ≡ option_map (persist_cell start len n) (cell_of pages n) }
    ensures fill { (start len : ℕ) (pages : List Page) (n : ℕ) (cell : Cell)
        → cell_of pages n ≡ Some cell → cell_of (fill start len pages) n ≡ Some cell }
    ensures discard { (first count : ℕ) (pages : List Page) (n : ℕ) (cell : Cell)
        → cell_of (discard first count pages) n ≡ Some cell → cell_of pages n ≡ Some cell }
{}

/// A store or a sync changes no page's presence, and a store that touches no absent page fills none.
pub fn only_fills_and_discards_change_which_pages_are_there()
    ensures put { (at : ℕ) (bytes : List ℕ) (pages : List Page) → presence_of (put at bytes pages) ≡ presence_of pages }
    ensures persist { (start len : ℕ) (pages : List Page) → presence_of (persist start len pages) ≡ presence_of pages }
    ensures fill { (start len : ℕ) (pages : List Page) → touches_absent start len (presence_of pages) ≡ false → fill start len pages ≡ pages }
{}

/// What was put is seen, and all else as before.
pub fn what_was_put_is_seen()
    ensures { (at i : ℕ) (bytes : List ℕ) (pages : List Page) (cell : Cell) → ((k : ℕ) → slice_index bytes k < 256)
        → cell_of pages (i / 64) ≡ Some cell → TakesPut at (length bytes) (i / 64) cell
        → byte_in (put at bytes pages) i ≡ byte_over at bytes i (byte_in pages i) }
{}

/// A device's lines go on standing for pages where they are only written back; a restart leaves what it may leave, and they
/// stand for that; and a line that is made durable stands for the cell that is.
pub fn lines_and_pages_keep_step()
    ensures write_back { (place : ℕ → ℕ) (old new : Medium) (pages : List Page) → PagesStand place old pages → WritesBack old new
        → PagesStand place new pages }
    ensures restart { (choice : Choice) (old new : Medium) (image : Image) (place : ℕ → ℕ) (pages : List Page) → PagesStand place old pages
        → ((n : ℕ) (cell : Cell) → cell_of pages n ≡ Some cell → place n < old.count) → Survivors image.unit choice old new → Depicts new image
        → KeepsPages choice place image pages × PagesStand place new (read_pages place image (presence_of pages)) }
    ensures persisted { (m : Medium) (n : ℕ) (cell : Cell) → CellStands m n cell → CellStands (persisted m n) n (flush_cell cell) }
{}

/// What a restart left may be left again, with the same pages there.
pub fn a_restart_keeps_what_one_left()
    ensures keeps { (choice : Choice) (place : ℕ → ℕ) (image : Image) (there : List Bool) → KeepsPages choice place image (read_pages place image there) }
    ensures there { (place : ℕ → ℕ) (image : Image) (there : List Bool) → presence_of (read_pages place image there) ≡ there }
{}

/// Any restart keeps what was made durable, and one that is asked to keeps all that was put.
pub fn what_was_persisted_is_kept()
    ensures persisted { (choice : Choice) (place : ℕ → ℕ) (image : Image) (start len i : ℕ) (pages : List Page) (words : List (List ℕ))
        → cell_of pages (i / 64) ≡ Some (Kept false words) → length words ≡ 8 → touches start len (i / 64) ≡ true
        → KeepsPages choice place image (persist start len pages)
        → byte_at (i % 8) (image.word (8 * place (i / 64) + i % 64 / 8)) ≡ byte_in pages i }
    ensures lasts { (place : ℕ → ℕ) (image : Image) (i : ℕ) (pages : List Page) (weak : Bool) (words : List (List ℕ))
        → cell_of pages (i / 64) ≡ Some (Kept weak words) → length words ≡ 8 → KeepsPages Lasts place image pages
        → byte_at (i % 8) (image.word (8 * place (i / 64) + i % 64 / 8)) ≡ byte_in pages i }
{}
