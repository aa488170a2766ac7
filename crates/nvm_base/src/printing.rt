// Bytes as printed DATA: maximal runs joined by commas, `HH` for one byte and `HH*N` for more.
ghost use Rattle.std.specs.Prelude.{◌≡◌, ◌+◌, ◌*◌, ◌≤◌, ◌<◌, ◌++◌, length, IsOk, OnOk, OnErr};
ghost use Rattle.std.specs.Prelude.{false};
ghost use Rattle.std.specs.Fmt.{digit_glyph};
ghost use Rattle.nvm_base.specs.Data.{data_text, run_text};
ghost use Rattle.nvm_base.specs.Stock.{Appends};

use crate::{Bytes, print_number};
use std::alloc::AllocError;

/// Appends the bytes as printed DATA, all of it or nothing.
pub fn print_bytes(bytes: &[u8], out: &mut Bytes) -> Result<(), AllocError>
    ensures ok { OnOk result (out.new.items ≡ out.old.items ++ data_text bytes.now) }
    ensures err { OnErr result (out.new.items ≡ out.old.items) }
    ensures succeeds { length (data_text bytes.now) ≤ out.old.spare → IsOk result }
    ensures room { out.old.spare + length out.old.items ≤ out.new.spare + length out.new.items }
    ensures short { length (data_text bytes.now) ≤ 3 * length bytes.now }
{
    let before = out.len();
    let printed = print_runs(bytes, out);
    if printed.is_err() {
        out.truncate(before);
    }
    printed
}

fn print_runs(bytes: &[u8], out: &mut Bytes) -> Result<(), AllocError>
    ensures { Appends (data_text bytes.now) result out.old out.new }
{
    let [first, rest @ ..] = bytes else {
        return Ok(());
    };
    let mut byte = *first;
    let mut count = 1;
    for next in rest {
        if *next == byte {
            count += 1;
        } else {
            print_run(byte, count, out)?;
            out.push(b',')?;
            byte = *next;
            count = 1;
        }
    }
    print_run(byte, count, out)
}

fn print_run(byte: u8, count: u64, out: &mut Bytes) -> Result<(), AllocError>
    requires { 0 < count }
    ensures { Appends (run_text (record { byte = byte; count = count })) result out.old out.new }
{
    out.extend(&[digit(byte / 16), digit(byte % 16)])?;
    if count > 1 {
        out.push(b'*')?;
        print_number(count, out)?;
    }
    Ok(())
}

// The digit in lower case.
fn digit(value: u8) -> u8
    requires { value < 16 }
    ensures { result ≡ digit_glyph false value }
{
    if value < 10 {
        b'0' + value
    } else {
        b'a' + (value - 10)
    }
}
