// The superblock: the words of the first line, by which a mount knows the medium.
ghost use Rattle.std.specs.Prelude.{◌≡◌, ◌↔◌, ℕ, None};
ghost use Rattle.word_tables.specs.Bounds.{IsValid};
ghost use Rattle.word_tables.specs.Superblock.{IsSuperblock, TellsItsSizes, first_wrong_word, superblock_words};

use crate::Geometry;

/// The bytes NVMPMH01.
pub const MARK: u64 = 0x3130_484d_504d_564e;

/// The layout's number.
pub const LAYOUT: u64 = 1;

/// The bytes of a word.
pub const WORD_BYTES: u64 = 8;

impl Geometry {
    /// The words of the superblock.
    pub fn superblock(&self) -> [u64; 8]
        requires { IsValid self.now }
        ensures { result ≡ superblock_words self.now }
    {
        [
            MARK,
            LAYOUT,
            self.blocks,
            self.vpages,
            self.fpages,
            self.meta_lines(),
            self.total_lines(),
            WORD_BYTES,
        ]
    }
}

/// A law: a superblock has its sizes, and words of which none is wrong are a superblock.
pub fn superblocks_tell_their_sizes()
    ensures told { (geo : Geometry) → IsValid geo → TellsItsSizes geo }
    ensures right { (lines : ℕ) (word : ℕ → ℕ) → first_wrong_word lines word ≡ None → IsSuperblock lines word }
{}
