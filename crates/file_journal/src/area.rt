ghost use Rattle.std.specs.Prelude.{◌≡◌};
ghost use Rattle.word_tables.specs.Bounds.{IsValid};
ghost use Rattle.file_journal.specs.Area.{file_area};

use nvm_base::Span;
use word_log::LogArea;
use word_tables::Geometry;

/// Most words that change together.
pub const MOST_TOGETHER: u64 = 272;

/// The words of all inodes.
pub(crate) const INODE_WORDS: u64 = 512;

/// The words of all inodes and of all page tables.
pub(crate) const TABLE_WORDS: u64 = 16_896;

/// Where the log of inodes and page tables stands.
pub fn file_area(geo: Geometry) -> LogArea
    requires { IsValid geo }
    ensures { result ≡ file_area geo }
{
    LogArea {
        log: geo.file_log(),
        cap: MOST_TOGETHER,
        home: Span {
            start: geo.inode_word(0, 0),
            len: TABLE_WORDS,
        },
    }
}
