ghost use Rattle.std.specs.Prelude.{◌≡◌, ◌+◌, ◌≤◌, count_by};
ghost use Rattle.std.specs.List.{range_with_len};
ghost use Rattle.marked_lines.specs.Counting.{has_mark};

use crate::Mark;
use line_device::Lines;

/// How many of a number of lines of the device, from the first on, have a mark.
pub fn count_among<L: Lines>(dev: &L, mark: Mark, first: u64, count: u64) -> u64
    requires { first + count ≤ (L.state dev.now).medium.count }
    ensures count { result ≡ count_by (has_mark mark (L.state dev.now).medium) (range_with_len first count) }
    ensures few { result ≤ count }
{
    let mut marked = 0;
    for k in 0..count {
        if mark.is_on(dev, first + k) {
            marked += 1;
        }
    }
    marked
}
