// The places of the words of the tables: word k of line n is at place 8 * n + k.
ghost use Rattle.std.specs.Prelude.{◌≡◌, ◌<◌};
ghost use Rattle.word_tables.specs.Bounds.{IsValid};
ghost use Rattle.word_tables.specs.Words.{HasPlaces, place, of_block, of_volume_page, of_inode, of_file_page};

use crate::Geometry;

const LINE_WORDS: u64 = 8;

#[tactic(auto, unfolding(crate::specs::Layout::first_line))]
impl Geometry {
    pub fn block_word(&self, block: u64) -> u64
        requires valid { IsValid self.now }
        requires block { block < self.now.blocks }
        ensures { result ≡ place self.now (of_block block) }
    {
        LINE_WORDS * self.block_map() + block
    }

    pub fn presence_word(&self, page: u64) -> u64
        requires valid { IsValid self.now }
        requires page { page < self.now.vpages }
        ensures { result ≡ place self.now (of_volume_page page) }
    {
        LINE_WORDS * self.presence() + page
    }

    pub fn inode_word(&self, inode: u64, word: u64) -> u64
        requires valid { IsValid self.now }
        requires inode { inode < 64 }
        requires word { word < 8 }
        ensures { result ≡ place self.now (of_inode inode word) }
    {
        LINE_WORDS * (self.inodes() + inode) + word
    }

    pub fn page_word(&self, inode: u64, page: u64) -> u64
        requires valid { IsValid self.now }
        requires inode { inode < 64 }
        requires page { page < 256 }
        ensures { result ≡ place self.now (of_file_page inode page) }
    {
        LINE_WORDS * self.page_tables() + 256 * inode + page
    }
}

/// A law: words have places of their own.
pub fn places_differ(geo: Geometry)
    requires { IsValid geo }
    ensures { HasPlaces geo }
{
    let _ = geo;
}
