// What is found of devices of which words are wrong, or lines are lost.
use crate::devices::{LINES, fresh, start, with_words};
use error_events::Event;
use line_device::{Choice, Lines, Plain};
use nvm_base::{LineNo, Name};
use recovery::MountFault;
use std::alloc::Global;
use std::test::Fail;

// The lines of metadata of the small device.
const META_LINES: u64 = 2304;

const LAST: u64 = META_LINES - 1;

// What is found of a plain device.
fn finding(alloc: Global, dev: &mut Plain) -> Option<MountFault> {
    start(alloc, dev, Choice::Firsts).err()
}

static SUPERBLOCKS: [(&[(u64, u64)], u64); 15] = [
    (&[(0, 0)], 0),
    (&[(1, 2)], 1),
    (&[(2, 0)], 2),
    (&[(2, 12)], 2),
    (&[(2, 4104)], 2),
    (&[(3, 1)], 3),
    (&[(3, 257)], 3),
    (&[(4, 31)], 4),
    (&[(4, 1025)], 4),
    (&[(5, 2240)], 5),
    (&[(6, 5185)], 6),
    (&[(7, 4)], 7),
    (&[(7, 4), (3, 1)], 3),
    (&[(2, 16)], 6),
    (&[(0, 0), (8, 2)], 0),
];

#[test]
fn the_lowest_wrong_word_of_the_superblock_is_found(rt: HostRuntime) -> Result<(), Fail> {
    for &(words, place) in &SUPERBLOCKS {
        let mut device = with_words(rt.alloc(), words)?;
        let found = finding(rt.alloc(), &mut device);
        assert_eq!(rt; found, Some(MountFault::Layout(place)), "at {words:?}");
    }
    Ok(())
}

#[test]
fn another_number_of_lines_is_found(rt: HostRuntime) -> Result<(), Fail> {
    for lines in [1, LINES - 1, LINES + 1] {
        let mut device = fresh(rt.alloc(), lines)?;
        let found = finding(rt.alloc(), &mut device);
        assert_eq!(rt; found, Some(MountFault::Layout(6)), "of {lines}");
    }
    Ok(())
}

// What becomes of a line.
#[derive(Clone, Copy, Debug, PartialEq, Eq)]
enum Loss {
    Bad(u64),
    Weak(u64),
}

// Does that to lines, if they are there.
fn lose<L: Lines>(dev: &mut L, losses: &[Loss]) -> Result<(), Fail> {
    for loss in losses {
        match *loss {
            Loss::Bad(line) if line < dev.lines() => dev.poison(LineNo(line)),
            Loss::Weak(line) if line < dev.lines() => dev.weaken(LineNo(line))?,
            Loss::Bad(_) | Loss::Weak(_) => return Err(Fail::from("no line")),
        }
    }
    Ok(())
}

static LOSSES: [(&[Loss], Option<MountFault>); 12] = [
    (&[Loss::Bad(0)], Some(MountFault::Meta(LineNo(0)))),
    (&[Loss::Bad(LAST)], Some(MountFault::Meta(LineNo(LAST)))),
    // lines of the file log, of the inodes, of the page tables
    (&[Loss::Bad(85)], Some(MountFault::Meta(LineNo(85)))),
    (&[Loss::Bad(154)], Some(MountFault::Meta(LineNo(154)))),
    (&[Loss::Bad(2265)], Some(MountFault::Meta(LineNo(2265)))),
    (&[Loss::Weak(218)], Some(MountFault::Layout(1744))),
    (
        &[Loss::Bad(99), Loss::Bad(9)],
        Some(MountFault::Meta(LineNo(9))),
    ),
    (
        &[Loss::Weak(9), Loss::Bad(99)],
        Some(MountFault::Meta(LineNo(99))),
    ),
    (&[Loss::Weak(0)], Some(MountFault::Layout(0))),
    (&[Loss::Weak(LAST)], Some(MountFault::Layout(8 * LAST))),
    (
        &[Loss::Weak(99), Loss::Weak(9)],
        Some(MountFault::Layout(72)),
    ),
    (&[Loss::Bad(META_LINES), Loss::Weak(META_LINES + 1)], None),
];

#[test]
fn bad_lines_of_metadata_are_found_before_weak_ones(rt: HostRuntime) -> Result<(), Fail> {
    for &(losses, found) in &LOSSES {
        let mut device = fresh(rt.alloc(), LINES)?;
        lose(&mut device, losses)?;
        assert_eq!(rt; finding(rt.alloc(), &mut device), found, "at {losses:?}");
    }
    Ok(())
}

// Words, lines that are lost, and what is found.
static WRONG_WORDS: [(&[(u64, u64)], &[Loss], MountFault); 19] = [
    (&[(8, 2)], &[], MountFault::Layout(8)),
    (&[(144, 74)], &[], MountFault::Layout(144)),
    (&[(144, 74), (8, 2)], &[], MountFault::Layout(8)),
    (&[(152, 2), (8, 2)], &[], MountFault::Layout(8)),
    (&[(144, 74), (152, 2)], &[], MountFault::Layout(152)),
    (&[(680, 2)], &[], MountFault::Layout(680)),
    (&[(680, 2), (152, 2)], &[], MountFault::Layout(152)),
    (&[(144, 74), (680, 2)], &[], MountFault::Layout(680)),
    (&[(673, 2), (144, 74)], &[], MountFault::Layout(144)),
    (&[(673, 2)], &[], MountFault::Layout(673)),
    // an inode of no name, one of too many pages, and a page of none
    (&[(1232, 1)], &[], MountFault::Layout(1233)),
    (&[(1744, 1), (1240, 258)], &[], MountFault::Layout(1240)),
    (&[(1744, 1)], &[], MountFault::Layout(1744)),
    (&[(1744, 1), (673, 2)], &[], MountFault::Layout(673)),
    (&[(1232, 1), (144, 74)], &[], MountFault::Layout(144)),
    // entries at a presence word past the four pages, and at the first line after the page tables
    (
        &[(153, 1), (160, 676), (161, 1), (152, 1)],
        &[],
        MountFault::Layout(160),
    ),
    (
        &[(681, 1), (688, 18_128), (689, 1), (680, 1)],
        &[],
        MountFault::Layout(688),
    ),
    (&[(8, 2)], &[Loss::Bad(200)], MountFault::Meta(LineNo(200))),
    (&[(7, 9), (8, 2)], &[Loss::Weak(0)], MountFault::Layout(7)),
];

#[test]
fn wrong_words_of_logs_and_tables_come_last(rt: HostRuntime) -> Result<(), Fail> {
    for &(words, losses, found) in &WRONG_WORDS {
        let mut device = with_words(rt.alloc(), words)?;
        lose(&mut device, losses)?;
        assert_eq!(rt;
            finding(rt.alloc(), &mut device),
            Some(found),
            "at {words:?}"
        );
    }
    Ok(())
}

// A file `a` of a hole and of a page on unit 4, which has the lines from 3,392 on.
#[test]
fn bad_lines_of_files_are_told_as_events(rt: HostRuntime) -> Result<(), Fail> {
    let mut device = with_words(rt.alloc(), &[(1232, 3), (1233, 0x61), (1745, 5)])?;
    let losses = [Loss::Bad(3391), Loss::Weak(3392), Loss::Bad(3394)];
    lose(&mut device, &losses)?;
    let mut events = start(rt.alloc(), &mut device, Choice::Firsts)?.events;
    let found = Event {
        file: Name::read(b"a").ok_or("no name")?,
        offset: 4096 + 128,
        len: 64,
        mapped: false,
        live: false,
    };
    assert_eq!(rt; events.next(), Some(found));
    assert_eq!(rt; events.next(), None);
    Ok(())
}
