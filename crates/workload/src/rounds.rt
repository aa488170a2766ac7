// The lines of a round.
ghost use Rattle.std.specs.Prelude.{◌≡◌, ◌++◌, OnOk};
ghost use Rattle.nvm_base.specs.Data.{data_text};
ghost use Rattle.workload.specs.Lines.{is_cut, kind, line};

use nvm_base::{Bytes, print_bytes, print_number};
use std::alloc::AllocError;

// Whether the power is cut in place of the kind that the draw chooses.
pub(crate) fn is_cut(k: u64, b: u64) -> bool
    ensures { result ≡ is_cut k b }
{
    k % 10 == 9 && b % 2 == 1
}

// The line of the kind that the first draw chooses. Its place and its byte are remainders of the others.
pub(crate) fn print_kind(k: u64, a: u64, b: u64, out: &mut Bytes) -> Result<(), AllocError>
    ensures { OnOk result (out.new.items ≡ out.old.items ++ kind k a b) }
{
    let byte = (b % 256) as u8;
    match k % 10 {
        0 => print_equal(b"bwrite ", a % 64, &[byte; 512], out),
        1 => print_equal(b"batomic ", a % 63, &[byte; 1024], out),
        2 => print_line(b"bread ", a % 64, b"1", out),
        3 => print_line(b"bdiscard ", a % 64, b"1", out),
        4 => print_equal(b"vstore ", 8 * (a % 4096), &[byte; 8], out),
        5 => print_line(b"vsync ", 64 * (a % 512), b"64", out),
        6 => print_equal(b"store 0 ", 8 * (a % 8192), &[byte; 8], out),
        7 => print_line(b"flush 0 ", 64 * (a % 1024), b"64", out),
        8 => print_equal(b"fatomic f1 ", 64 * (a % 1024), &[byte; 64], out),
        _ => print_line(b"fread f0 ", 64 * (a % 1024), b"64", out),
    }
}

fn print_equal(words: &[u8], place: u64, bytes: &[u8], out: &mut Bytes) -> Result<(), AllocError>
    ensures { OnOk result (out.new.items ≡ out.old.items ++ line words.now place (data_text bytes.now)) }
{
    print_line(words, place, b"", out)?;
    print_bytes(bytes, out)
}

fn print_line(words: &[u8], place: u64, rest: &[u8], out: &mut Bytes) -> Result<(), AllocError>
    ensures { OnOk result (out.new.items ≡ out.old.items ++ line words.now place rest.now) }
{
    out.extend(words)?;
    print_number(place, out)?;
    out.push(b' ')?;
    out.extend(rest)
}
