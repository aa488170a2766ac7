// Where the volume lies: in its two ranges.
ghost use Rattle.std.specs.Prelude.{◌≡◌, ◌*◌, ◌<◌, [], ◌∷◌};
ghost use Rattle.word_tables.specs.Bounds.{IsValid};
ghost use Rattle.word_tables.specs.Layout.{IsSpread, first_range, second_range, total_lines, bytes_in, volume_line};

use crate::Geometry;
use nvm_base::{LINE, PAGE_LINES, Span};

#[tactic(auto, unfolding(crate::specs::Layout::first_line, crate::specs::Layout::size, crate::specs::Layout::total_lines, crate::specs::Layout::volume_line))]
impl Geometry {
    /// The volume's two parts, in bytes.
    pub fn volume_ranges(&self) -> [Span; 2]
        requires { IsValid self.now }
        ensures { result ≡ bytes_in self.now first_range ∷ bytes_in self.now second_range ∷ [] }
    {
        let first = self.vpages.div_ceil(2);
        let page = PAGE_LINES * LINE;
        [
            Span {
                start: LINE * self.meta_lines(),
                len: page * first,
            },
            Span {
                start: LINE * self.second_range(),
                len: page * (self.vpages - first),
            },
        ]
    }

    /// The line of a line of the volume.
    pub fn volume_line(&self, line: u64) -> u64
        requires valid { IsValid self.now }
        requires line { line < 64 * self.now.vpages }
        ensures line { result ≡ volume_line self.now line }
        ensures within { result < total_lines self.now }
    {
        let first = PAGE_LINES * self.vpages.div_ceil(2);
        if line < first {
            self.meta_lines() + line
        } else {
            self.second_range() + (line - first)
        }
    }
}

/// A law: lines of the volume have lines of their own.
pub fn volume_lines_differ(geo: Geometry)
    requires { IsValid geo }
    ensures { IsSpread geo }
{
    let _ = geo;
}
