// What is told of a volume, step by step: why calls are refused, and which reason comes first; bad and weak lines.
use super::{Act, Told, open, perform};
use crate::devices::{SMALL_LINES, fresh, spoil, weaken};
use line_device::{Choice, Plain};
use nvm_base::LineNo;
use pm_volume::VolumeFault;
use std::alloc::Global;
use std::process::Abort;
use std::test::Fail;

// What is done, and what it gives.
type Step = (Act, Told);

// No line of the device.
const NO_LINE: u64 = u64::MAX;

// An act on a fresh volume, the lines that went bad behind it, one that got weak, and the story after a restart.
static STORIES: [(Act, [u64; 2], u64, &[Step]); 5] = [
    // Bytes are refused by range, then by length. There are four pages.
    (
        Act::Exists(0),
        [NO_LINE; 2],
        NO_LINE,
        &[
            (Act::Exists(4), Err(VolumeFault::Range)),
            (Act::Store(16384, 0, 0), Err(VolumeFault::Length)),
            (Act::Store(16385, 0, 0), Err(VolumeFault::Range)),
            (Act::Store(16384, 1, 0), Err(VolumeFault::Range)),
            (Act::Store(16383, 2, 0), Err(VolumeFault::Range)),
            (Act::Store(u64::MAX, 1, 0), Err(VolumeFault::Range)),
            (Act::Sync(16384, 0), Err(VolumeFault::Length)),
            (Act::Sync(16385, 0), Err(VolumeFault::Range)),
            (Act::Sync(16384, 1), Err(VolumeFault::Range)),
            (Act::Sync(16383, 2), Err(VolumeFault::Range)),
            (Act::Sync(u64::MAX, 1), Err(VolumeFault::Range)),
        ],
    ),
    // The ranges are bytes 147,456 to 155,648 and 192,512 to 200,704.
    (
        Act::Exists(0),
        [NO_LINE; 2],
        NO_LINE,
        &[
            (Act::PhysicalSync(0, 0), Err(VolumeFault::Length)),
            (Act::PhysicalSync(147455, 1), Err(VolumeFault::Address)),
            (Act::PhysicalSync(147456, 8192), Ok(0)),
            (Act::PhysicalSync(155647, 2), Err(VolumeFault::Address)),
            (Act::PhysicalSync(155647, 36866), Err(VolumeFault::Address)),
            (Act::PhysicalSync(192511, 1), Err(VolumeFault::Address)),
            (Act::PhysicalSync(200703, 1), Ok(0)),
            (Act::PhysicalSync(200703, 2), Err(VolumeFault::Address)),
        ],
    ),
    // A bad line of metadata comes after the range.
    (
        Act::Exists(0),
        [200, 18],
        NO_LINE,
        &[
            (Act::Discard(4, 1), Err(VolumeFault::Range)),
            (Act::Discard(4, 0), Err(VolumeFault::Length)),
            (Act::Discard(5, 0), Err(VolumeFault::Range)),
            (Act::Discard(3, 1), Err(VolumeFault::Meta(LineNo(18)))),
            (Act::Store(0, 1, 1), Err(VolumeFault::Meta(LineNo(18)))),
            (Act::Byte(0), Ok(0)),
        ],
    ),
    // The volume's bytes 64 to 128 lie on line 2305 of the device. It is told by its offset, and stored over.
    (
        Act::Store(0, 1, 5),
        [2305, NO_LINE],
        NO_LINE,
        &[
            (Act::Sync(0, 65), Err(VolumeFault::Poison(64))),
            (Act::Store(60, 67, 6), Err(VolumeFault::Poison(64))),
            (Act::Store(64, 64, 6), Ok(0)),
            (Act::Byte(127), Ok(6)),
        ],
    ),
    // The third page begins the second range, at byte 192,512 and line 3,008 of the device.
    (
        Act::Store(8192, 1, 7),
        [NO_LINE; 2],
        3008,
        &[
            (Act::Byte(8192), Ok(7)),
            (Act::PhysicalSync(192512, 1), Ok(0)),
            (Act::Byte(8192), Err(VolumeFault::Poison(8192))),
        ],
    ),
];

// A device after an act on its fresh volume, and after lines went bad and one got weak.
fn prepared(alloc: Global, first: Act, bad: [u64; 2], weak: u64) -> Result<Plain, Fail> {
    let mut device = fresh(alloc, SMALL_LINES)?;
    let mut volume = open(alloc, &mut device, Choice::Firsts)?;
    perform(&mut volume, &mut device, first)?;
    spoil(&mut device, bad[0]);
    spoil(&mut device, bad[1]);
    weaken(&mut device, weak)?;
    Ok(device)
}

// Goes through a story of a device's volume.
fn follow(rt: &impl Abort, alloc: Global, device: &mut Plain, story: &[Step]) -> Result<(), Fail> {
    let mut volume = open(alloc, device, Choice::Lasts)?;
    for &(act, told) in story {
        let found = perform(&mut volume, device, act);
        assert_eq!(rt; found, told);
    }
    Ok(())
}

#[test]
fn each_step_of_a_story_gives_its_value(rt: HostRuntime) -> Result<(), Fail> {
    for &(first, bad, weak, story) in &STORIES {
        let mut device = prepared(rt.alloc(), first, bad, weak)?;
        follow(&rt, rt.alloc(), &mut device, story)?;
    }
    Ok(())
}
