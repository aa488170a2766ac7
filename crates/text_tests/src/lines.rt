// Lines whose operands no reply shows: names of no attribute, and the largest numbers.
use line_device::Choice;
use script_text::{Command, parse};
use std::alloc::Global;

fn is_named(alloc: Global, line: &[u8], wanted: &[u8]) -> bool {
    match parse(alloc, line) {
        Ok(Some(Command::Attr { name })) => name.as_slice() == wanted,
        _ => false,
    }
}

static NAMES: [(&[u8], &[u8]); 8] = [
    (b"attr pm.error_range", b"pm.error_range"),
    (b"attr x.y", b"x.y"),
    (b"\tattr  block.count\t \r", b"block.count"),
    (b"attr attr", b"attr"),
    (b"attr 0", b"0"),
    (b"attr #", b"#"),
    (b"attr Gr\xc3\xb6\xc3\x9fe\r\r", b"Gr\xc3\xb6\xc3\x9fe\r"),
    (b"attr \xff\x00,\x7f", b"\xff\x00,\x7f"),
];

#[test]
fn any_word_names_an_attribute(rt: HostRuntime) {
    for &(line, name) in &NAMES {
        assert!(rt; is_named(rt.alloc(), line, name), "{line:?}");
    }
}

// The numbers of a command, in the order of its words, of the commands below; None of all others.
fn numbers(command: &Command) -> Option<[u64; 3]> {
    match *command {
        Command::VLoad { offset, len } => Some([offset, len, 0]),
        Command::VSync { offset, len } => Some([offset, len, 0]),
        Command::CutIn { calls } => Some([calls, 0, 0]),
        Command::FailIn { calls } => Some([calls, 0, 0]),
        Command::PoisonBlock { block, line } => Some([block, line, 0]),
        Command::PoisonMeta { line } => Some([line, 0, 0]),
        Command::ClearVolume { offset } => Some([offset, 0, 0]),
        Command::Restart {
            choice: Choice::Firsts,
        } => Some([0, 0, 0]),
        Command::Restart {
            choice: Choice::Lasts,
        } => Some([0, 0, 1]),
        Command::Restart {
            choice: Choice::Seed(seed),
        } => Some([seed, 0, 2]),
        Command::Unmap { handle } => Some([handle, 0, 0]),
        Command::Load {
            handle,
            offset,
            len,
        } => Some([handle, offset, len]),
        Command::Sync {
            handle,
            offset,
            len,
        } => Some([handle, offset, len]),
        Command::Evict { lines } => Some([lines, 0, 0]),
        _ => None,
    }
}

// Lines, and the numbers of their commands.
static LARGEST: [(&str, [u64; 3]); 17] = [
    ("vload 4294967295 0", [4294967295, 0, 0]),
    ("vload 0000000001 0000000002", [1, 2, 0]),
    ("cut in 4294967295", [4294967295, 0, 0]),
    ("fail in 4294967295", [4294967295, 0, 0]),
    (
        "poison block 4294967295 4294967295",
        [4294967295, 4294967295, 0],
    ),
    ("poison meta 4294967295", [4294967295, 0, 0]),
    ("clear volume 65535", [65535, 0, 0]),
    ("restart none", [0, 0, 0]),
    ("restart all", [0, 0, 1]),
    ("restart seed 4294967295", [4294967295, 0, 2]),
    ("unmap 4294967295", [4294967295, 0, 0]),
    (
        "load 4294967295 4294967295 4294967295",
        [4294967295, 4294967295, 4294967295],
    ),
    (
        "sync 4294967295 4294967295 4294967295",
        [4294967295, 4294967295, 4294967295],
    ),
    ("evict 0", [0, 0, 0]),
    ("evict 1000000", [1000000, 0, 0]),
    ("\tevict  4294967295\t\r", [4294967295, 0, 0]),
    ("vsync 0 65536", [0, 65536, 0]),
];

#[test]
fn numbers_are_read_to_their_last_digit(rt: HostRuntime) {
    for &(line, wanted) in &LARGEST {
        match parse(rt.alloc(), line.as_bytes()) {
            Ok(Some(command)) => assert_eq!(rt; numbers(&command), Some(wanted), "{line}"),
            Ok(None) | Err(_) => assert!(rt; false, "{line}"),
        }
    }
}
