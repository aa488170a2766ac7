// The line of bytes that were read.
ghost use Rattle.std.specs.Prelude.{◌≡◌, ◌+◌, ◌<◌, ◌≤◌, ◌++◌, IsOk, OnErr, OnOk, length};
ghost use Rattle.nvm_base.specs.Stock.{Appends};
ghost use Rattle.reply_text.specs.Answer.{answer_line, answer_text};
ghost use Rattle.reply_text.specs.Answer.Answer.{Bytes};
ghost use Rattle.reply_text.specs.Room.{most_of};

use nvm_base::{Bytes, print_bytes};
use std::alloc::AllocError;

/// Appends the line of bytes that were read, all of it or nothing.
pub fn print_data(bytes: &[u8], out: &mut Bytes) -> Result<(), AllocError>
    ensures ok { OnOk result (out.new.items ≡ out.old.items ++ answer_line (Bytes bytes.now)) }
    ensures err { OnErr result (out.new.items ≡ out.old.items) }
    ensures succeeds { most_of (Bytes bytes.now) ≤ out.old.spare → IsOk result }
    ensures room { out.old.spare + length out.old.items ≤ out.new.spare + length out.new.items }
    ensures short { length (answer_line (Bytes bytes.now)) ≤ most_of (Bytes bytes.now) }
{
    let before = out.len();
    let printed = print_line(bytes, out);
    if printed.is_err() {
        out.truncate(before);
    }
    printed
}

fn print_line(bytes: &[u8], out: &mut Bytes) -> Result<(), AllocError>
    ensures text { Appends (answer_line (Bytes bytes.now)) result out.old out.new }
    ensures short { length (answer_line (Bytes bytes.now)) ≤ most_of (Bytes bytes.now) }
{
    print_text(bytes, out)?;
    out.push(b'\n')
}

fn print_text(bytes: &[u8], out: &mut Bytes) -> Result<(), AllocError>
    ensures text { Appends (answer_text (Bytes bytes.now)) result out.old out.new }
    ensures short { length (answer_text (Bytes bytes.now)) < most_of (Bytes bytes.now) }
{
    out.extend(b"data ")?;
    print_bytes(bytes, out)
}
