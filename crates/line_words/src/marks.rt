// The marks of lines that follow each other. None of this makes a counted call.
ghost use Rattle.std.specs.Prelude.{◌≡◌, ◌+◌, ◌<◌, ◌≤◌, IfSome, position};
ghost use Rattle.std.specs.List.{range_with_len};

use line_device::Lines;
use nvm_base::LineNo;

/// The lowest bad one of a number of lines, counted from the first of them.
pub fn first_bad<L: Lines>(dev: &L, first: u64, count: u64) -> Option<u64>
    requires { first + count ≤ (L.state dev.now).medium.count }
    ensures line { result ≡ position (L.state dev.now).medium.is_bad (range_with_len first count) }
    ensures within { IfSome result (λ k. k < count) }
{
    for k in 0..count {
        if dev.is_bad(LineNo(first + k)) {
            return Some(k);
        }
    }
    None
}

/// The lowest weak one, counted likewise.
pub fn first_weak<L: Lines>(dev: &L, first: u64, count: u64) -> Option<u64>
    requires { first + count ≤ (L.state dev.now).medium.count }
    ensures line { result ≡ position (L.state dev.now).medium.is_weak (range_with_len first count) }
    ensures within { IfSome result (λ k. k < count) }
{
    for k in 0..count {
        if dev.is_weak(LineNo(first + k)) {
            return Some(k);
        }
    }
    None
}
