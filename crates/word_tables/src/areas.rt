// Where the areas lie: each begins where the one before it ends.
ghost use Rattle.std.specs.Prelude.{◌≡◌, ◌+◌, ◌<◌, ◌≤◌};
ghost use Rattle.word_tables.specs.Bounds.{IsValid};
ghost use Rattle.word_tables.specs.Layout.{IsLaidOut, Area, block_log, block_map, volume_log, presence, file_log, inodes, page_tables, blocks, second_range, file_pages, first_line, size, meta_lines, total_lines, lines_in, block_line, file_line};

use crate::Geometry;
use nvm_base::{PAGE_LINES, Span};

const BLOCK_LOG: Span = Span { start: 1, len: 17 };

const VOLUME_LOG_LINES: u64 = 65;

const FILE_LOG_LINES: u64 = 69;

const INODE_LINES: u64 = 64;

const PAGE_TABLE_LINES: u64 = 2048;

const BLOCK_LINES: u64 = 8;

/// Physical blocks beyond the logical ones, so that an atomic write of 64 blocks finds room.
const EXTRA_BLOCKS: u64 = 64;

#[tactic(auto, unfolding(crate::specs::Layout::first_line, crate::specs::Layout::size, crate::specs::Layout::total_lines))]
impl Geometry {
    pub fn block_log(&self) -> Span
        requires { IsValid self.now }
        ensures { result ≡ lines_in self.now block_log }
    {
        BLOCK_LOG
    }

    pub fn volume_log(&self) -> Span
        requires { IsValid self.now }
        ensures { result ≡ lines_in self.now volume_log }
    {
        Span {
            start: self.block_map() + self.blocks / 8,
            len: VOLUME_LOG_LINES,
        }
    }

    pub fn file_log(&self) -> Span
        requires { IsValid self.now }
        ensures { result ≡ lines_in self.now file_log }
    {
        Span {
            start: self.presence() + self.vpages.div_ceil(8),
            len: FILE_LOG_LINES,
        }
    }

    /// The lines of metadata, which come first.
    pub fn meta_lines(&self) -> u64
        requires { IsValid self.now }
        ensures lines { result ≡ meta_lines self.now }
    {
        (self.page_tables() + PAGE_TABLE_LINES).next_multiple_of(PAGE_LINES)
    }

    /// All lines of the medium.
    pub fn total_lines(&self) -> u64
        requires { IsValid self.now }
        ensures lines { result ≡ total_lines self.now }
        ensures least { 5_056 ≤ result }
        ensures most { result ≤ 118_016 }
    {
        self.file_pages() + PAGE_LINES * self.fpages
    }

    /// The first line of a physical block.
    pub fn block_line(&self, unit: u64) -> u64
        requires valid { IsValid self.now }
        requires unit { unit < self.now.blocks + 64 }
        ensures { result ≡ block_line self.now unit }
    {
        self.physical_blocks() + BLOCK_LINES * unit
    }

    /// The first line of a physical file page.
    pub fn file_line(&self, unit: u64) -> u64
        requires valid { IsValid self.now }
        requires unit { unit < self.now.fpages }
        ensures { result ≡ file_line self.now unit }
    {
        self.file_pages() + PAGE_LINES * unit
    }

    pub(crate) fn block_map(&self) -> u64
        ensures { result ≡ first_line self.now block_map }
    {
        BLOCK_LOG.start + BLOCK_LOG.len
    }

    pub(crate) fn presence(&self) -> u64
        requires { IsValid self.now }
        ensures { result ≡ first_line self.now presence }
    {
        self.volume_log().start + VOLUME_LOG_LINES
    }

    pub(crate) fn inodes(&self) -> u64
        requires { IsValid self.now }
        ensures { result ≡ first_line self.now inodes }
    {
        self.file_log().start + FILE_LOG_LINES
    }

    pub(crate) fn page_tables(&self) -> u64
        requires { IsValid self.now }
        ensures { result ≡ first_line self.now page_tables }
    {
        self.inodes() + INODE_LINES
    }

    fn physical_blocks(&self) -> u64
        requires { IsValid self.now }
        ensures { result ≡ first_line self.now blocks }
    {
        self.meta_lines() + PAGE_LINES * self.vpages.div_ceil(2)
    }

    pub(crate) fn second_range(&self) -> u64
        requires { IsValid self.now }
        ensures { result ≡ first_line self.now second_range }
    {
        self.physical_blocks() + BLOCK_LINES * (self.blocks + EXTRA_BLOCKS)
    }

    fn file_pages(&self) -> u64
        requires { IsValid self.now }
        ensures { result ≡ first_line self.now file_pages }
    {
        self.second_range() + PAGE_LINES * (self.vpages / 2)
    }
}

/// A law: areas follow each other, and all lie on the medium.
pub fn areas_follow(geo: Geometry)
    requires { IsValid geo }
    ensures { IsLaidOut geo }
{
    let _ = geo;
}
