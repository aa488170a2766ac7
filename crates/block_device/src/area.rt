ghost use Rattle.std.specs.Prelude.{◌≡◌};
ghost use Rattle.word_tables.specs.Bounds.{IsValid};
ghost use Rattle.block_device.specs.Area.{block_area};

use block_map::EXTRA_UNITS;
use nvm_base::Span;
use word_log::LogArea;
use word_tables::Geometry;

/// Most blocks that change together: as many as there are units beyond the blocks.
pub const MOST_TOGETHER: u64 = EXTRA_UNITS;

/// Where the log of the block map stands.
pub fn block_area(geo: Geometry) -> LogArea
    requires { IsValid geo }
    ensures { result ≡ block_area geo }
{
    LogArea {
        log: geo.block_log(),
        cap: MOST_TOGETHER,
        home: Span {
            start: geo.block_word(0),
            len: geo.blocks,
        },
    }
}
