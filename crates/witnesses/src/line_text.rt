// The text of a line that is kept, of the volume or of a file.
ghost use Rattle.std.specs.Prelude.{◌≡◌, ◌<◌, ◌++◌, ◌^◌, OnOk, flat_map, false, slice_index_or};
ghost use Rattle.std.specs.List.{range_with_len};
ghost use Rattle.cut_places.specs.AskedReads.Reads.{file_reads_asked, pages_asked};
ghost use Rattle.witnesses.specs.Asked.{head_of, reads_in};
ghost use Rattle.witnesses.specs.Texts.{asked_text, bad_text, file_line_text, left_text, line_text, word_text};

use crate::asked::Asked;
use crate::file_kept::FileLineKept;
use crate::line_kept::{LineKept, LineLeft};
use cut_places::reads_asked::{FileRead, PageRead};
use nvm_base::{Bytes, print_bytes, print_number};
use std::alloc::AllocError;

/// Appends that the line is bad, or each of its words that is asked, where it could be otherwise.
pub fn print_line(reads: &[PageRead], kept: &LineKept, out: &mut Bytes) -> Result<(), AllocError>
    ensures { OnOk result (out.new.items ≡ out.old.items ++ line_text (pages_asked reads.now) kept.now) }
{
    let asked = Asked::OfVolume(reads);
    print_left(&asked, kept.number, &kept.left, &kept.free, out)
}

/// Text of a line of a file.
pub fn print_file_line(
    reads: &[FileRead],
    kept: &FileLineKept,
    out: &mut Bytes,
) -> Result<(), AllocError>
    ensures { OnOk result (out.new.items ≡ out.old.items ++ file_line_text (file_reads_asked reads.now) kept.now) }
{
    let asked = Asked::OfFile(reads, &kept.name);
    let n = u64::from(kept.number);
    print_left(&asked, n, &kept.left, &kept.free, out)
}

fn print_left(
    asked: &Asked<'_>,
    n: u64,
    left: &LineLeft,
    free: &[bool; 8],
    out: &mut Bytes,
) -> Result<(), AllocError>
    requires { n < 2 ^ 32 }
    ensures { OnOk result (out.new.items ≡ out.old.items ++ left_text (head_of asked.now) (reads_in asked.now) n free.now left.now) }
{
    match left {
        LineLeft::Bad => {
            if free[0] {
                print_bad(asked, n, out)?;
            }
            Ok(())
        }
        LineLeft::Words(words) => print_words(asked, n, words, free, out),
    }
}

fn print_bad(asked: &Asked<'_>, n: u64, out: &mut Bytes) -> Result<(), AllocError>
    requires { n < 2 ^ 32 }
    ensures { OnOk result (out.new.items ≡ out.old.items ++ bad_text (head_of asked.now) n) }
{
    asked.print_head(out)?;
    print_number(64 * n, out)?;
    out.extend(b" poison")
}

fn print_words(
    asked: &Asked<'_>,
    n: u64,
    words: &[u64; 8],
    free: &[bool; 8],
    out: &mut Bytes,
) -> Result<(), AllocError>
    requires { n < 2 ^ 32 }
    ensures { OnOk result (out.new.items ≡ out.old.items
        ++ flat_map (λ w. asked_text (head_of asked.now) (reads_in asked.now) n words.now w (slice_index_or free.now w false)) (range_with_len 0 8)) }
{
    for w in 0..8_u64 {
        print_asked(asked, n, words, w, free[w as usize], out)?;
    }
    Ok(())
}

fn print_asked(
    asked: &Asked<'_>,
    n: u64,
    words: &[u64; 8],
    w: u64,
    free: bool,
    out: &mut Bytes,
) -> Result<(), AllocError>
    requires line { n < 2 ^ 32 }
    requires word { w < 8 }
    ensures { OnOk result (out.new.items ≡ out.old.items ++ asked_text (head_of asked.now) (reads_in asked.now) n words.now w free) }
{
    if free && asked.asks(8 * n + w) {
        print_word(asked, n, words[w as usize], w, out)?;
    }
    Ok(())
}

fn print_word(
    asked: &Asked<'_>,
    n: u64,
    value: u64,
    w: u64,
    out: &mut Bytes,
) -> Result<(), AllocError>
    requires line { n < 2 ^ 32 }
    requires word { w < 8 }
    ensures { OnOk result (out.new.items ≡ out.old.items ++ word_text (head_of asked.now) n value w) }
{
    asked.print_head(out)?;
    print_number(64 * n + 8 * w, out)?;
    out.push(b' ')?;
    print_bytes(&value.to_le_bytes(), out)
}
