// Numbers in text.
ghost use Rattle.std.specs.Prelude.{◌≡◌, ◌+◌, ◌≤◌, ◌++◌, length, IsOk, OnOk, OnErr, decimal};
ghost use Rattle.nvm_base.specs.Numbers.{number_of};

use crate::Bytes;
use std::alloc::AllocError;

/// The number that 1 to 10 decimal digits spell, if it is at most 4,294,967,295.
pub fn read_number(text: &[u8]) -> Option<u64>
    ensures { result ≡ number_of text.now }
{
    if text.is_empty() || text.len() > 10 {
        return None;
    }
    let mut value = 0;
    for c in text {
        if !c.is_ascii_digit() {
            return None;
        }
        value = 10 * value + u64::from(*c - b'0');
    }
    (value <= u64::from(u32::MAX)).then_some(value)
}

/// Appends the number in decimal digits, all of them or none.
pub fn print_number(n: u64, out: &mut Bytes) -> Result<(), AllocError>
    ensures ok { OnOk result (out.new.items ≡ out.old.items ++ decimal n) }
    ensures err { OnErr result (out.new ≡ out.old) }
    ensures succeeds { length (decimal n) ≤ out.old.spare → IsOk result }
    ensures spare { out.old.spare ≤ out.new.spare + length (decimal n) }
    ensures short { length (decimal n) ≤ 20 }
{
    out.extend(itoa::Buffer::new().format(n).as_bytes())
}
