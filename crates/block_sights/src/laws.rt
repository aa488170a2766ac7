// Laws of what reads see of blocks, each a function without a body.
ghost use Rattle.std.specs.Prelude.{◌≡◌, ◌<◌, ℕ, List, Option, None, length, slice_index};
ghost use Rattle.nvm_base.specs.declared.units.Span.{Span};
ghost use Rattle.nvm_model.specs.Storage.{Block};
ghost use Rattle.nvm_model.specs.Storage.Block.{Absent, Scarred, Data};
ghost use Rattle.nvm_model.specs.Blocks.{look_blocks, nth, write, write_ranges, change, lose, obstacle_in, block_byte};
ghost use Rattle.block_sights.specs.Sights.{sight, zeros, sight_written, sight_written_ranges, sight_made, sight_lost, obstacle_seen};
ghost use Rattle.block_sights.specs.Sights.Sight.{Whole, Scar};

/// Reads of a block see what is written to it, and what was there where nothing is.
pub fn written_bytes_are_seen()
    ensures written { (at : ℕ) (bytes : List ℕ) (blocks : List Block) (b : ℕ) → b < length blocks
        → sight (nth (write at bytes blocks) b) ≡ sight_written at bytes b (sight (nth blocks b)) }
    ensures ranges { (ranges : List Span) (bytes : List ℕ) (blocks : List Block) (b : ℕ) → b < length blocks
        → sight (nth (write_ranges ranges bytes blocks) b) ≡ sight_written_ranges ranges bytes b (sight (nth blocks b)) }
{}

/// Reads of discarded blocks see zeros, and none can read scarred ones. The other blocks stay.
pub fn changed_blocks_are_seen_so()
    ensures absent { (spans : List Span) (blocks : List Block) (b : ℕ) → b < length blocks
        → sight (nth (change spans Absent blocks) b) ≡ sight_made spans zeros b (sight (nth blocks b)) }
    ensures scarred { (spans : List Span) (blocks : List Block) (b : ℕ) → b < length blocks
        → sight (nth (change spans Scarred blocks) b) ≡ sight_made spans Scar b (sight (nth blocks b)) }
{}

/// Where a media error took a line of a block that has lines, reads see its lowest bad one. The other blocks stay.
pub fn lost_lines_are_seen()
    ensures { (block line : ℕ) (lines : List (Option (List ℕ))) (blocks : List Block) (b : ℕ)
        → nth blocks block ≡ Data lines → line < length lines
        → sight (nth (lose block line blocks) b) ≡ sight_lost block line b (sight (nth blocks b)) }
{}

/// What reads see of a block is what keeps it from being read, and its 512 bytes where nothing does: they are what
/// a read of it is answered.
pub fn sights_tell_obstacles_and_bytes()
    ensures obstacle { (b : ℕ) (block : Block) → obstacle_in b block ≡ obstacle_seen b (sight block) }
    ensures bytes { (block : Block) (seen : List ℕ) (i : ℕ) → sight block ≡ Whole seen → i < 512
        → block_byte block i ≡ slice_index seen i }
    ensures size { (block : Block) (seen : List ℕ) → sight block ≡ Whole seen → length seen ≡ 512 }
    ensures read { (b : ℕ) (blocks : List Block) → obstacle_in b (nth blocks b) ≡ None
        → sight (nth blocks b) ≡ Whole (look_blocks blocks b 1) }
{}
