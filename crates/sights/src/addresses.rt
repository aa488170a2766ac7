// Where in the volume a span of physical addresses begins.
ghost use Rattle.std.specs.Prelude.{◌≡◌, ◌+◌, ◌<◌, ◌^◌, ◌&&◌, ◌∷◌, [], nat_le};
ghost use Rattle.word_tables.specs.Bounds.{IsValid};
ghost use Rattle.range_sets.specs.Ranges.{IsInReach, offset_of_span};
ghost use Rattle.pm_volume.specs.Refusals.{physical_offset};

use nvm_base::Span;
use word_tables::Geometry;

/// None where a byte of it is in no range of the volume, or they are in two.
pub fn physical_offset(geometry: Geometry, address: u64, len: u64) -> Option<u64>
    requires valid { IsValid geometry }
    requires small { address + len < 2 ^ 64 }
    ensures { result ≡ physical_offset geometry address len }
{
    let [first, second] = geometry.volume_ranges();
    offset_in(first, second, address, len)
}

fn offset_in(first: Span, second: Span, address: u64, len: u64) -> Option<u64>
    requires first { IsInReach first }
    requires second { IsInReach second }
    requires small { address + len < 2 ^ 64 }
    ensures { result ≡ offset_of_span (first ∷ second ∷ []) (record { start = address; len = len }) }
{
    if has(first, address, len) {
        Some(address - first.start)
    } else if has(second, address, len) {
        Some(first.len + (address - second.start))
    } else {
        None
    }
}

fn has(range: Span, address: u64, len: u64) -> bool
    requires range { IsInReach range }
    requires small { address + len < 2 ^ 64 }
    ensures { result ≡ (nat_le range.start address && nat_le (address + len) (range.start + range.len)) }
{
    range.start <= address && address + len <= range.start + range.len
}
