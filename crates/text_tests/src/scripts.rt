// Scripts read line by line, by pieces of every size.
ghost use Rattle.std.specs.Prelude.{◌≤◌};

use crate::streams::{bytes, numbers};
use host_io::MemSource;
use nvm_base::{Bytes, Words};
use script_text::{InputFault, LineReader, NextLine};
use std::alloc::{AllocError, Global};

// What a call gave: a line in brackets, or its length where it is long, `L` for one that is too long, `.` at the end, `F` for a failed source, `T` for a
// script that is too large. It says whether more may come.
fn tell(
    alloc: Global,
    reader: &LineReader,
    next: Result<NextLine, InputFault>,
    told: &mut Bytes,
) -> Result<bool, AllocError> {
    match next {
        Ok(NextLine::Line) if reader.line().len() > 100 => {
            told.extend(format!(in alloc; "[{}]", reader.line().len())?.as_bytes())?;
        }
        Ok(NextLine::Line) => {
            told.push(b'[')?;
            told.extend(reader.line())?;
            told.push(b']')?;
        }
        Ok(NextLine::TooLong) => told.push(b'L')?,
        Ok(NextLine::End) => told.push(b'.')?,
        Err(InputFault::Failed) => told.push(b'F')?,
        Err(InputFault::TooLarge) => told.push(b'T')?,
    }
    Ok(matches!(next, Ok(NextLine::Line | NextLine::TooLong)))
}

// What comes of a script in pieces of that size, where the read of number `fail` fails.
fn told(alloc: Global, script: Bytes, piece: usize, fail: u64) -> Result<Bytes, AllocError>
    requires { 1 ≤ piece }
{
    let mut source = MemSource::new(script, piece, numbers(alloc, &[fail])?);
    let mut reader = LineReader::new(alloc)?;
    let mut told = Bytes::new(alloc);
    for _ in 0..100_u64 {
        let next = reader.next(&mut source);
        if !tell(alloc, &reader, next, &mut told)? {
            return Ok(told);
        }
    }
    Ok(told)
}

// A line of so many bytes, and then that text.
fn long(alloc: Global, length: u64, after: &[u8]) -> Result<Bytes, AllocError> {
    let mut bytes = Bytes::new(alloc);
    bytes.repeat(b'a', length)?;
    bytes.extend(after)?;
    Ok(bytes)
}

// Scripts, and what is told of them.
static SCRIPTS: [(&str, &str); 7] = [
    ("", "."),
    ("\n", "[]."),
    ("a", "[a]."),
    ("a\n", "[a]."),
    ("a\r\nb\r", "[a\r][b\r]."),
    ("\n\nab\n\nc", "[][][ab][][c]."),
    ("bread 1 2\n# no\n\tcut", "[bread 1 2][# no][\tcut]."),
];

static PIECES: [usize; 4] = [1, 2, 7, 65536];

#[test]
fn pieces_of_every_size_give_the_same_lines(rt: HostRuntime) -> Result<(), AllocError> {
    let alloc = rt.alloc();
    for &(script, lines) in &SCRIPTS {
        for &piece in &PIECES {
            assert!(rt; piece >= 1);
            let told = told(alloc, bytes(alloc, script.as_bytes())?, piece, 0)?;
            assert!(rt; told.as_slice() == lines.as_bytes(), "{script} {piece}");
        }
    }
    Ok(())
}

// Sizes of pieces, and whether a whole line is known to wait behind the first line and behind the second.
static WAITING: [(usize, bool, bool); 4] = [
    (1, false, false),
    (2, false, false),
    (4, true, false),
    (5, true, false),
];

#[test]
fn whole_lines_are_known_to_wait(rt: HostRuntime) -> Result<(), AllocError> {
    let alloc = rt.alloc();
    for &(piece, first, second) in &WAITING {
        assert!(rt; piece >= 1);
        let mut source = MemSource::new(bytes(alloc, b"a\nb\nc")?, piece, Words::new(alloc));
        let mut reader = LineReader::new(alloc)?;
        assert!(rt; !reader.has_line());
        assert_eq!(rt; reader.next(&mut source), Ok(NextLine::Line));
        assert_eq!(rt; reader.has_line(), first, "{piece}");
        assert_eq!(rt; reader.next(&mut source), Ok(NextLine::Line));
        assert_eq!(rt; reader.has_line(), second, "{piece}");
    }
    Ok(())
}

// Lengths of a line, the text behind it, and what is told.
static LONG: [(u64, &str, &str); 7] = [
    (65536, "\nb\n", "[65536][b]."),
    (65537, "\nb\n", "L[b]."),
    (65535, "\r\nb", "[65536][b]."),
    (65536, "\r\nb", "L[b]."),
    (65536, "", "[65536]."),
    (65537, "", "L."),
    (200000, "\n\n", "L[]."),
];

#[test]
fn lines_that_are_too_long_are_passed_over(rt: HostRuntime) -> Result<(), AllocError> {
    let alloc = rt.alloc();
    for &(length, after, wanted) in &LONG {
        for &piece in &PIECES {
            assert!(rt; piece >= 1);
            let script = long(alloc, length, after.as_bytes())?;
            let told = told(alloc, script, piece, 0)?;
            assert!(rt;
                told.as_slice() == wanted.as_bytes(),
                "{length} {after} {piece}"
            );
        }
    }
    Ok(())
}

// Sizes of pieces, the number of the read that fails, and what is told.
static FAILING: [(usize, u64, &str); 3] = [(5, 1, "F"), (5, 2, "[a][b]F"), (65536, 2, "[a][b]F")];

#[test]
fn what_was_read_before_a_failure_is_given(rt: HostRuntime) -> Result<(), AllocError> {
    let alloc = rt.alloc();
    for &(piece, fail, wanted) in &FAILING {
        assert!(rt; piece >= 1);
        let told = told(alloc, bytes(alloc, b"a\nb\nc")?, piece, fail)?;
        assert!(rt; told.as_slice() == wanted.as_bytes(), "{piece} {fail}");
    }
    Ok(())
}
