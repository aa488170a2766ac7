// The line that answers a check.
ghost use Rattle.std.specs.Prelude.{◌≡◌, ◌++◌, IfOk, codes, decimal};
ghost use Rattle.program_base.specs.Ending.{numbered_line};

use nvm_base::{Bytes, print_number};
use std::alloc::{AllocError, Global};

/// What a check is answered: how many lines the device has, and how many of those of storage are bad.
pub fn checked(alloc: Global, lines: u64, bad: u64) -> Result<Bytes, AllocError>
    ensures { IfOk result (λ line. line.items ≡ codes "ok " ++ decimal lines ++ numbered_line (codes " bad ") bad) }
{
    let mut line = Bytes::new(alloc);
    line.extend(b"ok ")?;
    print_number(lines, &mut line)?;
    line.extend(b" bad ")?;
    print_number(bad, &mut line)?;
    line.push(b'\n')?;
    Ok(line)
}
