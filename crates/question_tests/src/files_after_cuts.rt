// Programs on files, and what may be read once the power is back.

use asked_reads::{FileRead, PageRead, PageReply};
use cut_places::FilesSeen;
use nvm_base::{Bytes, Name};
use reply_text::Why;
use script_text::parse;
use std::alloc::Global;
use std::test::Fail;

// What a read of eight bytes finds: one byte eight times, no such file, bytes past its end, or the bad line from this byte on.
#[derive(Clone, Copy, Debug)]
enum Found {
    Byte(u8),
    Missing,
    PastTheEnd,
    Bad(u64),
}

// The file of a read, its first byte, and what it finds.
type Look = (&'static str, u32, Found);

// The lines of a program, the line after them in which the power goes, empty for none, what is read, and whether that may be.
type Trial = (&'static str, &'static str, &'static [Look], bool);

const RENAMED: &str = "create t 1\nfwrite t 0 07*8\nrename t f";

const SYNCED_AND_RENAMED: &str = "create t 1\nfwrite t 0 07*8\nfsync t\nrename t f";

const SYNCED: &str = "create f 1\nfwrite f 0 05*64\nfsync f";

const WRITTEN_TOGETHER: &str = "create f 1\nfwrite f 0 05*64\nfatomic f 0 01*16";

const MAPPED: &str = "create f 2\nmap f 64 64 shared\nstore 0 0 01*8";

const SYNCED_THROUGH_A_MAPPING: &str = "create f 2\nmap f 64 64 shared\nstore 0 0 01*8\nsync 0 0 1";

const COPIED: &str = "create f 2\nmap f 64 64 private\nstore 0 0 01*8";

static TRIALS: [Trial; 20] = [
    // A name is durable before the bytes.
    (RENAMED, "", &[("f", 0, Found::Byte(0))], true),
    (RENAMED, "", &[("f", 0, Found::Byte(7))], true),
    (RENAMED, "", &[("t", 0, Found::Missing)], true),
    (SYNCED_AND_RENAMED, "", &[("f", 0, Found::Byte(0))], false),
    (SYNCED_AND_RENAMED, "", &[("f", 0, Found::Byte(7))], true),
    // A name changes as a whole.
    (
        "create f 1",
        "rename f g",
        &[("f", 0, Found::Missing), ("g", 0, Found::Byte(0))],
        true,
    ),
    (
        "create f 1",
        "rename f g",
        &[("f", 0, Found::Byte(0)), ("g", 0, Found::Byte(0))],
        false,
    ),
    // An atomic write is whole.
    (
        SYNCED,
        "fatomic f 0 01*16",
        &[("f", 0, Found::Byte(1)), ("f", 8, Found::Byte(5))],
        false,
    ),
    (
        SYNCED,
        "fwrite f 0 01*16",
        &[("f", 0, Found::Byte(1)), ("f", 8, Found::Byte(5))],
        true,
    ),
    (WRITTEN_TOGETHER, "", &[("f", 16, Found::Byte(5))], true),
    (WRITTEN_TOGETHER, "", &[("f", 16, Found::Byte(0))], false),
    // A store through a shared mapping is one to its file.
    (MAPPED, "", &[("f", 64, Found::Byte(1))], true),
    (MAPPED, "", &[("f", 0, Found::Byte(1))], false),
    (
        SYNCED_THROUGH_A_MAPPING,
        "",
        &[("f", 64, Found::Byte(0))],
        false,
    ),
    (COPIED, "", &[("f", 64, Found::Byte(1))], false),
    // Pages that are cut off come back as holes.
    (
        "create f 2\nfwrite f 4096 01*8\nresize f 1",
        "",
        &[("f", 4096, Found::PastTheEnd)],
        true,
    ),
    (
        "create f 2\nfwrite f 4096 01*8\nfsync f\nresize f 1\nresize f 2",
        "",
        &[("f", 4096, Found::Byte(0))],
        true,
    ),
    (
        "create f 2\nfwrite f 4096 01*8\nfsync f\nfdiscard f 1 1",
        "",
        &[("f", 4096, Found::Byte(0))],
        true,
    ),
    // A weak line is lost once it is made durable, and a bad one that is cleared has zeros.
    (
        "create f 1\nfwrite f 0 01*8\nweaken file f 0\nfsync f",
        "",
        &[("f", 0, Found::Bad(0))],
        true,
    ),
    (
        "create f 1\nfwrite f 0 01*8\npoison file f 0\nclear file f 0",
        "",
        &[("f", 0, Found::Byte(0))],
        true,
    ),
];

// The first two lines of each file, and the first of its second page, once these lines are performed on an empty device.
fn after(alloc: Global, lines: &str) -> Result<FilesSeen, Fail> {
    let mut seen = FilesSeen::new(alloc, [0, 1, 64].to_vec(alloc)?);
    for line in lines.split('\n') {
        if let Some(command) = parse(alloc, line.as_bytes())? {
            seen.change(&command)?;
        }
    }
    Ok(seen)
}

fn reply_of(alloc: Global, found: Found) -> Result<PageReply, Fail> {
    Ok(match found {
        Found::Byte(byte) => {
            let mut bytes = Bytes::new(alloc);
            bytes.repeat(byte, 8)?;
            PageReply::Shows(bytes)
        }
        Found::Missing => PageReply::Refuses(Why::Missing),
        Found::PastTheEnd => PageReply::Refuses(Why::Range),
        Found::Bad(start) => PageReply::Poison(start),
    })
}

fn reads_of(alloc: Global, looks: &[Look]) -> Result<Vec<FileRead>, Fail> {
    let mut reads = Vec::new(alloc);
    for &(name, start, found) in looks {
        let Some(name) = Name::read(name.as_bytes()) else {
            return Err(Fail::from("a name"));
        };
        let pages = PageRead {
            start: u64::from(start),
            len: 8,
            reply: reply_of(alloc, found)?,
        };
        reads.push(FileRead { name, pages })?;
    }
    Ok(reads)
}

#[test]
fn a_cut_leaves_what_the_rules_allow(rt: HostRuntime) -> Result<(), Fail> {
    let alloc = rt.alloc();
    for &(lines, cut, looks, may) in &TRIALS {
        let seen = after(alloc, lines)?;
        let reads = reads_of(alloc, looks)?;
        let found = match parse(alloc, cut.as_bytes())? {
            Some(command) => seen.fits_inside(&reads, &command)?,
            None => seen.fits(&reads),
        };
        assert_eq!(rt; found, may, "{lines}, {cut}, {looks:?}");
    }
    Ok(())
}
