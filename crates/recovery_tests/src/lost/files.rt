// Lines of files that media errors take, that wear out and that are cleared.
ghost use Rattle.std.specs.Prelude.{◌<◌};
ghost use Rattle.line_device.specs.Plain.{device_of};
ghost use Rattle.file_pages.specs.Object.{PagesServe};

use super::FILES;
use crate::devices::{spoil, start, with_words};
use error_events::Event;
use file_pages::FilePages;
use line_device::{Choice, LineDevice, Lines, Plain};
use nvm_base::{Name, Span};
use scrub::{
    LinesFault, PlaceFault, ScrubFault, WeakenFault, bad_in_files, clear_file, events_of,
    file_lines, poison_file, weak_in_files, weaken_file,
};
use std::alloc::Global;
use std::process::Abort;
use std::test::Fail;

// What happens to the line of a byte; inode 0 is `b`.
#[derive(Clone, Copy)]
enum Act {
    Lose(u64, u64),
    Weaken(u64),
    Clear(u64),
}

#[derive(Clone, Copy, Debug, PartialEq, Eq)]
enum Told {
    Done,
    NotLost(PlaceFault),
    NotWeakened(WeakenFault),
    NotCleared(ScrubFault),
}

fn lose<L: Lines>(dev: &mut L, files: &FilePages, inode: u64, offset: u64) -> Told
    requires serves { PagesServe files.now (L.state dev.old).medium }
    requires inode { inode < 64 }
    ensures { PagesServe files.now (L.state dev.new).medium }
{
    match poison_file(dev, files, inode, offset) {
        Ok(()) => Told::Done,
        Err(fault) => Told::NotLost(fault),
    }
}

fn weaken<L: Lines>(dev: &mut L, files: &FilePages, offset: u64) -> Told
    requires { PagesServe files.now (L.state dev.old).medium }
    ensures { PagesServe files.now (L.state dev.new).medium }
{
    match weaken_file(dev, files, 0, offset) {
        Ok(()) => Told::Done,
        Err(fault) => Told::NotWeakened(fault),
    }
}

fn clear<L: Lines>(dev: &mut L, files: &FilePages, offset: u64) -> Told
    requires { PagesServe files.now (L.state dev.old).medium }
    ensures { PagesServe files.now (L.state dev.new).medium }
{
    if !dev.power() {
        return Told::NotCleared(ScrubFault::PowerLost);
    }
    match clear_file(dev, files, 0, offset) {
        Ok(()) => Told::Done,
        Err(fault) => Told::NotCleared(fault),
    }
}

fn perform<L: Lines>(dev: &mut L, files: &FilePages, act: Act) -> Told
    requires { PagesServe files.now (L.state dev.old).medium }
    ensures { PagesServe files.now (L.state dev.new).medium }
{
    match act {
        Act::Lose(inode, offset) if inode < 64 => lose(dev, files, inode, offset),
        Act::Lose(_, _) => Told::NotLost(PlaceFault::Range),
        Act::Weaken(offset) => weaken(dev, files, offset),
        Act::Clear(offset) => clear(dev, files, offset),
    }
}

// What is done, what it tells, and how many lines of files are bad and weak then. The second page of `b` is a hole.
type Step = (Act, Told, [u64; 2]);

static LOSSES: [Step; 8] = [
    (
        Act::Lose(0, 12288),
        Told::NotLost(PlaceFault::Range),
        [0, 0],
    ),
    (
        Act::Lose(0, u64::MAX),
        Told::NotLost(PlaceFault::Range),
        [0, 0],
    ),
    (Act::Lose(2, 0), Told::NotLost(PlaceFault::Range), [0, 0]),
    (
        Act::Lose(0, 4096),
        Told::NotLost(PlaceFault::Nothing),
        [0, 0],
    ),
    (Act::Lose(0, 12287), Told::Done, [1, 0]),
    (Act::Lose(0, 64), Told::Done, [2, 0]),
    (Act::Lose(0, 127), Told::Done, [2, 0]),
    (Act::Lose(1, 4032), Told::Done, [3, 0]),
];

static WORN: [Step; 12] = [
    (Act::Lose(0, 64), Told::Done, [1, 0]),
    (
        Act::Weaken(12288),
        Told::NotWeakened(WeakenFault::Range),
        [1, 0],
    ),
    (
        Act::Weaken(4096),
        Told::NotWeakened(WeakenFault::Nothing),
        [1, 0],
    ),
    (Act::Weaken(0), Told::Done, [1, 1]),
    (Act::Weaken(63), Told::Done, [1, 1]),
    (Act::Weaken(64), Told::Done, [1, 1]),
    (Act::Weaken(8192), Told::Done, [1, 2]),
    (
        Act::Clear(12288),
        Told::NotCleared(ScrubFault::Range),
        [1, 2],
    ),
    (
        Act::Clear(4096),
        Told::NotCleared(ScrubFault::Nothing),
        [1, 2],
    ),
    (
        Act::Clear(0),
        Told::NotCleared(ScrubFault::NotPoisoned),
        [1, 2],
    ),
    (Act::Clear(127), Told::Done, [0, 2]),
    (
        Act::Clear(64),
        Told::NotCleared(ScrubFault::NotPoisoned),
        [0, 2],
    ),
];

// Goes through a story of mounted files.
fn follow(rt: &impl Abort, dev: &mut Plain, files: &FilePages, story: &[Step])
    requires { PagesServe files.now (device_of dev.old).medium }
{
    for &(act, told, counts) in story {
        assert_eq!(rt; perform(dev, files, act), told);
        let bad = bad_in_files(dev, files.journal());
        let weak = weak_in_files(dev, files.journal());
        assert_eq!(rt; [bad, weak], counts);
    }
}

#[test]
fn lines_of_files_are_lost(rt: HostRuntime) -> Result<(), Fail> {
    let mut device = with_words(rt.alloc(), &FILES)?;
    let mounted = start(rt.alloc(), &mut device, Choice::Lasts)?;
    follow(&rt, &mut device, &mounted.files, &LOSSES);
    Ok(())
}

#[test]
fn lines_of_files_wear_out_and_bad_ones_are_cleared(rt: HostRuntime) -> Result<(), Fail> {
    let mut device = with_words(rt.alloc(), &FILES)?;
    let mounted = start(rt.alloc(), &mut device, Choice::Lasts)?;
    follow(&rt, &mut device, &mounted.files, &WORN);
    Ok(())
}

// Spans of `b`, and the bad lines that they touch.
static SPANS: [(u64, u64, Result<&[u64], LinesFault>); 7] = [
    (0, 12288, Ok(&[64, 12224])),
    (0, 64, Ok(&[])),
    (63, 2, Ok(&[64])),
    (127, 1, Ok(&[64])),
    (128, 12097, Ok(&[12224])),
    (1, 12288, Err(LinesFault::Range)),
    (12288, 0, Err(LinesFault::Length)),
];

// Whether the bad lines of a span of `b` are these.
fn finds(
    alloc: Global,
    dev: &Plain,
    files: &FilePages,
    span: Span,
    wanted: Result<&[u64], LinesFault>,
) -> bool
    requires { PagesServe files.now (device_of dev.now).medium }
{
    match (file_lines(alloc, dev, files, 0, span), wanted) {
        (Ok(lines), Ok(wanted)) => lines.as_slice() == wanted,
        (Ok(_), Err(_)) | (Err(_), Ok(_)) => false,
        (Err(fault), Err(wanted)) => fault == wanted,
    }
}

#[test]
fn lost_lines_of_a_file_are_listed(rt: HostRuntime) -> Result<(), Fail> {
    let mut device = with_words(rt.alloc(), &FILES)?;
    spoil(&mut device, 3137);
    spoil(&mut device, 3327);
    let mounted = start(rt.alloc(), &mut device, Choice::Lasts)?;
    for &(start, len, lines) in &SPANS {
        let found = finds(
            rt.alloc(),
            &device,
            &mounted.files,
            Span { start, len },
            lines,
        );
        assert!(rt; found, "from {start}");
    }
    Ok(())
}

// The event of a bad line of a file.
fn event(file: &[u8], offset: u64) -> Option<Event> {
    Some(Event {
        file: Name::read(file)?,
        offset,
        len: 64,
        mapped: false,
        live: false,
    })
}

// Events that a mount tells.
static EVENTS: [(&[u8], u64); 3] = [(b"a", 4032), (b"b", 64), (b"b", 12224)];

#[test]
fn a_mount_tells_of_lost_lines_in_order_of_name(rt: HostRuntime) -> Result<(), Fail> {
    let mut device = with_words(rt.alloc(), &FILES)?;
    for line in [3137, 3327, 5183] {
        spoil(&mut device, line);
    }
    let mounted = start(rt.alloc(), &mut device, Choice::Lasts)?;
    let mut events = events_of(rt.alloc(), &device, &mounted.files)?;
    for &(file, offset) in &EVENTS {
        assert_eq!(rt; events.next(), event(file, offset));
    }
    assert_eq!(rt; events.next(), None);
    Ok(())
}
