ghost use Rattle.std.specs.Prelude.{◌≡◌};
ghost use Rattle.word_tables.specs.Bounds.{IsValid};
ghost use Rattle.pm_volume.specs.Area.{volume_area};

use nvm_base::Span;
use word_log::LogArea;
use word_tables::Geometry;

/// Most pages that change together: all that a volume may have.
pub const MOST_TOGETHER: u64 = 256;

/// Where the log of the presence words stands.
pub fn volume_area(geo: Geometry) -> LogArea
    requires { IsValid geo }
    ensures { result ≡ volume_area geo }
{
    LogArea {
        log: geo.volume_log(),
        cap: MOST_TOGETHER,
        home: Span {
            start: geo.presence_word(0),
            len: geo.vpages,
        },
    }
}
