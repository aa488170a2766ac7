// What is reported of a file of three pages, step by step.
use super::calls::first_byte;
use super::lines::spoil;
use super::{Act, Told, open, perform, with_file};
use file_actions::ActionFault;
use file_journal::MountFault;
use file_pages::PageFault;
use line_device::{Choice, Lines, Plain};
use std::alloc::Global;
use std::process::Abort;
use std::test::Fail;

// What is done and what it reports, after a cut; media errors take the lines of some bytes after it.
#[derive(Clone, Copy)]
pub(super) struct Part {
    pub(super) choice: Choice,
    pub(super) steps: &'static [(Act, Told)],
    pub(super) bad: &'static [u64],
}

static HOLE: [Part; 2] = [
    Part {
        choice: Choice::Firsts,
        steps: &[
            (Act::Shows(4088, &[(12, 0)]), Told::Is(1)),
            (Act::Store(4090, 10, 7), Told::Filled),
            (Act::Used, Told::Is(2)),
            (Act::Shows(4088, &[(2, 0), (10, 7)]), Told::Is(1)),
            (Act::Store(4096, 4, 8), Told::Done),
            (Act::Persist(4095, 4097), Told::Is(65)),
            (Act::Store(12_280, 9, 1), Told::Page(PageFault::Range)),
            (Act::Store(0, 0, 1), Told::Page(PageFault::Length)),
            (Act::Used, Told::Is(2)),
        ],
        bad: &[],
    },
    Part {
        choice: Choice::Firsts,
        steps: &[(Act::Shows(4088, &[(2, 0), (6, 7), (4, 8)]), Told::Is(1))],
        bad: &[],
    },
];

// Its second line is bad, and then stored over.
static BAD_LINE: [Part; 2] = [
    Part {
        choice: Choice::Firsts,
        steps: &[(Act::Store(0, 256, 7), Told::Filled)],
        bad: &[128],
    },
    Part {
        choice: Choice::Lasts,
        steps: &[
            (
                Act::Shows(188, &[(8, 7)]),
                Told::Page(PageFault::Poison(128)),
            ),
            (Act::Persist(0, 4096), Told::Page(PageFault::Poison(128))),
            (Act::Store(64, 127, 8), Told::Page(PageFault::Poison(128))),
            (Act::Store(64, 128, 8), Told::Done),
            (Act::Shows(188, &[(4, 8), (4, 7)]), Told::Is(1)),
        ],
        bad: &[],
    },
];

// An atomic write over the end of a page that was stored, and into a hole.
static BESIDE: [Part; 2] = [
    Part {
        choice: Choice::Firsts,
        steps: &[
            (Act::Store(0, 4096, 7), Told::Filled),
            (Act::Write(4090, 10, 8), Told::Done),
            (Act::Used, Told::Is(2)),
        ],
        bad: &[],
    },
    Part {
        choice: Choice::Firsts,
        steps: &[
            (Act::Shows(4088, &[(2, 7), (10, 8), (2, 0)]), Told::Is(1)),
            (Act::Shows(0, &[(2, 7)]), Told::Is(1)),
            (Act::Shows(8190, &[(2, 0)]), Told::Is(1)),
        ],
        bad: &[],
    },
];

// A range past the end, no bytes, a byte that both ranges have, and a part of a bad line.
static REFUSED: [Part; 2] = [
    Part {
        choice: Choice::Firsts,
        steps: &[(Act::Store(0, 256, 1), Told::Filled)],
        bad: &[64],
    },
    Part {
        choice: Choice::Lasts,
        steps: &[
            (
                Act::Both([12_282, 12_280]),
                Told::Action(ActionFault::Range),
            ),
            (Act::Write(12_288, 0, 0), Told::Action(ActionFault::Length)),
            (Act::Both([64, 70]), Told::Action(ActionFault::Overlap)),
            (Act::Both([64, 71]), Told::Action(ActionFault::Poison(64))),
            (Act::Write(64, 64, 5), Told::Done),
            (Act::Shows(63, &[(1, 1), (64, 5), (1, 1)]), Told::Is(1)),
        ],
        bad: &[],
    },
];

// Takes the device through a cut, and goes through a part of a story.
pub(super) fn follow(
    rt: &impl Abort,
    alloc: Global,
    device: &mut Plain,
    part: &Part,
) -> Result<(), Fail> {
    let mut files = open(alloc, device, part.choice)?;
    for &(act, told) in part.steps {
        let calls = device.counts().calls;
        let found = perform(&mut files, device, act);
        assert_eq!(rt; found, told);
        // Nothing is asked of the device for an action that is refused.
        assert!(rt; !matches!(told, Told::Action(_)) || device.counts().calls == calls);
    }
    spoil(&files, device, part.bad);
    Ok(())
}

// Goes through a story of a device with the file, all of it holes, and gives the device back.
fn tell(rt: &impl Abort, alloc: Global, story: &[Part]) -> Result<Plain, Fail> {
    let mut device = with_file(alloc)?;
    for part in story {
        follow(rt, alloc, &mut device, part)?;
    }
    Ok(device)
}

#[test]
fn a_hole_reads_as_zeros_until_it_is_stored_to(rt: HostRuntime) -> Result<(), Fail> {
    let _device = tell(&rt, rt.alloc(), &HOLE)?;
    Ok(())
}

// Lines of the file then, and their first bytes.
static LENT: [(u64, Told); 4] = [
    (0, Told::Is(7)),
    (2, Told::Is(8)),
    (64, Told::Hole),
    (192, Told::Page(PageFault::Range)),
];

// The first byte of a line after a cut.
fn lent(alloc: Global, device: &mut Plain, line: u64) -> Result<Told, MountFault> {
    let files = open(alloc, device, Choice::Lasts)?;
    Ok(first_byte(&files, device, line))
}

#[test]
fn a_bad_line_is_named_until_it_is_stored_over(rt: HostRuntime) -> Result<(), Fail> {
    let mut device = tell(&rt, rt.alloc(), &BAD_LINE)?;
    for &(line, told) in &LENT {
        assert_eq!(rt; lent(rt.alloc(), &mut device, line)?, told);
    }
    Ok(())
}

#[test]
fn the_bytes_beside_a_write_stay_as_last_stored(rt: HostRuntime) -> Result<(), Fail> {
    let _device = tell(&rt, rt.alloc(), &BESIDE)?;
    Ok(())
}

#[test]
fn a_write_is_refused_for_the_first_reason_that_there_is(rt: HostRuntime) -> Result<(), Fail> {
    let _device = tell(&rt, rt.alloc(), &REFUSED)?;
    Ok(())
}

// The pages lie on units in another order each time, and the run of the second one has one of two lengths.
static ORDERS: [&[(Act, Told)]; 3] = [
    &[
        (Act::Store(4095, 1, 1), Told::Filled),
        (Act::Store(4096, 1, 2), Told::Filled),
        (Act::Store(8192, 1, 3), Told::Filled),
        (Act::RunIs([1, 3]), Told::Is(1)),
        (Act::Store(4097, 4095, 7), Told::Done),
        (
            Act::Shows(4095, &[(1, 1), (1, 2), (4095, 7), (1, 3)]),
            Told::Is(1),
        ),
        (Act::Persist(4095, 4098), Told::Is(66)),
    ],
    &[
        (Act::Store(8192, 1, 1), Told::Filled),
        (Act::Store(4096, 1, 2), Told::Filled),
        (Act::Store(4095, 1, 3), Told::Filled),
        (Act::RunIs([1, 3]), Told::Is(1)),
        (Act::Store(4097, 4095, 7), Told::Done),
        (
            Act::Shows(4095, &[(1, 3), (1, 2), (4095, 7), (1, 1)]),
            Told::Is(1),
        ),
        (Act::Persist(4095, 4098), Told::Is(66)),
    ],
    &[
        (Act::Store(4096, 1, 1), Told::Filled),
        (Act::Store(8192, 1, 2), Told::Filled),
        (Act::Store(4095, 1, 3), Told::Filled),
        (Act::RunIs([1, 2]), Told::Is(1)),
        (Act::Store(4097, 4095, 7), Told::Done),
        (
            Act::Shows(4095, &[(1, 3), (1, 1), (4095, 7), (1, 2)]),
            Told::Is(1),
        ),
        (Act::Persist(4095, 4098), Told::Is(66)),
    ],
];

// Two lines of the span are bad.
static LOST: Part = Part {
    choice: Choice::Lasts,
    steps: &[(
        Act::Shows(4095, &[(4098, 7)]),
        Told::Page(PageFault::Poison(8128)),
    )],
    bad: &[],
};

#[test]
fn a_span_has_its_bytes_in_order_whatever_units_its_pages_are_on(
    rt: HostRuntime,
) -> Result<(), Fail> {
    for &steps in &ORDERS {
        let mut device = with_file(rt.alloc())?;
        let part = Part {
            choice: Choice::Firsts,
            steps,
            bad: &[8192, 8128],
        };
        follow(&rt, rt.alloc(), &mut device, &part)?;
        follow(&rt, rt.alloc(), &mut device, &LOST)?;
    }
    Ok(())
}
