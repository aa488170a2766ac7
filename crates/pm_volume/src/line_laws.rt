// Laws of single lines of a volume, each a function without a body.
ghost use Rattle.std.specs.Prelude.{◌≡◌, ◌⊎◌, ◌*◌, ◌<◌, ◌≤◌, ℕ, List, Some, false, length, slice_index};
ghost use Rattle.line_device.specs.Device.{Depicts};
ghost use Rattle.line_device.specs.Medium.{Medium, Survivors, last_image};
ghost use Rattle.line_device.specs.Panel.{Image};
ghost use Rattle.line_device.specs.Word.{word_at};
ghost use Rattle.line_device.specs.declared.line.Choice.{Choice};
ghost use Rattle.line_words.specs.Words.{WritesBackOutside};
ghost use Rattle.word_log.specs.Area.{IsOf};
ghost use Rattle.word_log.specs.Rest.{IsImageOn};
ghost use Rattle.word_tables.specs.Bounds.{IsValid};
ghost use Rattle.word_tables.specs.Layout.{meta_lines, total_lines};
ghost use Rattle.word_tables.specs.declared.geometry.Geometry.{Geometry};
ghost use Rattle.nvm_model.specs.Cell.{touches};
ghost use Rattle.nvm_model.specs.Interrupted.{MayStore, MaySync};
ghost use Rattle.nvm_model.specs.Lines.{AreGood};
ghost use Rattle.nvm_model.specs.Page.{KeepsPages, Page, PagesStand, cell_of, fill, persist, presence_of, put, read_pages};
ghost use Rattle.pm_volume.specs.Area.{volume_area};
ghost use Rattle.pm_volume.specs.Images.{ReadsPages};
ghost use Rattle.pm_volume.specs.Left.{HasWords, IsDurable, IsKeptLine, IsSoundLine, MayLeave};
ghost use Rattle.pm_volume.specs.Line.{MayWrite, first_word, line_in, written_line};
ghost use Rattle.pm_volume.specs.Object.{VolumeHolds, VolumeState};
ghost use Rattle.pm_volume.specs.Presence.{presence_read};

/// A store or a sync keeps the lines that it doesn't touch, however it ends.
pub fn stores_and_syncs_keep_other_lines()
    ensures stored { (at : ℕ) (bytes : List ℕ) (old new : List Page) (n : ℕ) → 1 ≤ length bytes → touches at (length bytes) n ≡ false
        → HasWords (cell_of old n) → MayStore at bytes old new → IsKeptLine (cell_of old n) (cell_of new n) }
    ensures put { (at : ℕ) (bytes : List ℕ) (pages : List Page) (n : ℕ) → 1 ≤ length bytes → touches at (length bytes) n ≡ false
        → HasWords (cell_of pages n) → IsKeptLine (cell_of pages n) (cell_of (put at bytes (fill at (length bytes) pages)) n) }
    ensures synced { (start len : ℕ) (old new : List Page) (n : ℕ) → touches start len n ≡ false
        → MaySync start len old new → cell_of new n ≡ cell_of old n }
    ensures persisted { (start len : ℕ) (pages : List Page) (n : ℕ) → touches start len n ≡ false
        → cell_of (persist start len pages) n ≡ cell_of pages n }
    ensures words { (place : ℕ → ℕ) (m : Medium) (pages : List Page) → PagesStand place m pages → (n : ℕ) → HasWords (cell_of pages n) }
    ensures reads { (pages others : List Page) (n : ℕ) → IsKeptLine (cell_of pages n) (cell_of others n)
        → line_in (cell_of others n) ≡ line_in (cell_of pages n) }
{}

/// A restart leaves of each word one value that its unit may keep, and what is durable as it is; all that it leaves is durable.
pub fn a_restart_leaves_one_value()
    ensures pages { (choice : Choice) (place : ℕ → ℕ) (image : Image) (m : Medium) (pages : List Page) → PagesStand place m pages
        → KeepsPages choice place image pages → MayLeave image.unit pages (read_pages place image (presence_of pages)) }
    ensures keeps { (unit : ℕ) (pages left : List Page) (n : ℕ) → IsDurable (cell_of pages n) → MayLeave unit pages left → cell_of left n ≡ cell_of pages n }
    ensures durable { (unit : ℕ) (pages left : List Page) (n : ℕ) → MayLeave unit pages left → IsDurable (cell_of left n) }
{}

/// After a restart the words of the log are an image of what was before, and a mount finds pages that the restart may leave of
/// those that this image names.
pub fn a_mount_finds_what_was_left()
    ensures image { (geo : Geometry) (unit : ℕ) (choice : Choice) (old back : Medium) → IsValid geo → old.count ≡ total_lines geo → AreGood old (meta_lines geo)
        → Survivors unit choice old back → IsImageOn (volume_area geo) old (last_image back) }
    ensures pages { (geo : Geometry) (choice : Choice) (old back new : Medium) (image : Image) (before : List Page) (s : VolumeState) → IsValid geo
        → old.count ≡ total_lines geo → AreGood old (meta_lines geo) → ReadsPages geo old (λ pages. pages ≡ before) (last_image back)
        → Survivors image.unit choice old back → Depicts back image → WritesBackOutside (IsOf (volume_area geo)) back new
        → s.geo ≡ geo → s.present ≡ presence_read geo (last_image back)
        → (pages : List Page) × MayLeave image.unit before pages × VolumeHolds s new pages }
{}

/// A line that is stored and synced whole has its bytes durably. Where words are kept whole, its first word is the old one or the
/// new one wherever that is interrupted.
pub fn a_line_is_written_whole()
    ensures written { (place : ℕ → ℕ) (m : Medium) (pages : List Page) (n : ℕ) (bytes : List ℕ) → PagesStand place m pages → n < 64 * length pages
        → IsSoundLine (cell_of pages n) → length bytes ≡ 64 → ((k : ℕ) → slice_index bytes k < 256)
        → (line_in (cell_of (written_line n bytes pages) n) ≡ Some bytes) × IsDurable (cell_of (written_line n bytes pages) n) }
    ensures first { (place : ℕ → ℕ) (m : Medium) (old new left : List Page) (n : ℕ) (bytes : List ℕ) → PagesStand place m old → n < 64 * length old
        → IsSoundLine (cell_of old n) → length bytes ≡ 64 → ((k : ℕ) → slice_index bytes k < 256) → IsDurable (cell_of old n)
        → MayWrite n bytes old new → MayLeave 8 new left
        → (first_word (cell_of left n) ≡ first_word (cell_of old n)) ⊎ (first_word (cell_of left n) ≡ Some (word_at bytes 0)) }
{}

/// All pages that volume and device stand for read the same.
pub fn lines_of_a_volume_read_alike()
    ensures { (s : VolumeState) (m : Medium) (one other : List Page) → VolumeHolds s m one → VolumeHolds s m other → (n : ℕ)
        → line_in (cell_of one n) ≡ line_in (cell_of other n) }
{}
