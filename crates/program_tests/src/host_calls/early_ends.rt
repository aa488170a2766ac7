// Calls that end early, by what fails.

use super::{call, repeated};
use crate::fresh::{fresh_image, holding};
use crate::numbers::only;
use host_io::{MemSink, MemSource};
use line_device::Plain;
use std::alloc::{AllocError, Global};
use std::test::Fail;
use test_devices::{Faulty, Fuse};

// So many lines that are no commands, and how many bytes a read gives; and the read, the write, the call of the images and that of the device that fail, and the
// call of the device that is cut, 0 for none.
#[derive(Clone, Copy)]
struct Trial {
    words: &'static str,
    lines: u64,
    piece: usize,
    read: u64,
    write: u64,
    image: u64,
    fail: u64,
    cut: u64,
}

// Those in which nothing fails.
const RUN: Trial = Trial {
    words: "run img out",
    lines: 8,
    piece: 7,
    read: 0,
    write: 0,
    image: 0,
    fail: 0,
    cut: 0,
};

const LONG: Trial = Trial {
    lines: 5 * 4370,
    piece: 65536,
    ..RUN
};

const NO_IMAGE: Trial = Trial {
    words: "run none out",
    ..RUN
};

const CHECK: Trial = Trial {
    words: "check img",
    lines: 0,
    ..RUN
};

const CHECK_NO_IMAGE: Trial = Trial {
    words: "check none",
    ..CHECK
};

const NEW: Trial = Trial {
    words: "new other 8 2 32",
    ..CHECK
};

const BENCH: Trial = Trial {
    words: "bench 1 1",
    ..RUN
};

// The trial's status, what was written, and whether the image is held under its own name as it was.
fn outcome(alloc: Global, image: &[u8], trial: &Trial) -> Result<(u8, MemSink, bool), AllocError> {
    let mut images = holding(alloc, image, trial.image)?;
    let fuse = Fuse::new(Plain::new(alloc), trial.cut.wrapping_sub(1));
    let mut device = Faulty::new(fuse, only(alloc, trial.fail)?);
    let script = repeated(alloc, "x\n", trial.lines)?;
    let mut source = MemSource::new(script, trial.piece.max(1), only(alloc, trial.read)?);
    let mut sink = MemSink::new(alloc, only(alloc, trial.write)?);
    let status = call(
        alloc,
        trial.words,
        &mut device,
        &mut images,
        &mut source,
        &mut sink,
    )?;
    let kept = images.get("img") == Some(image) && (status == 0 || images.get("out").is_none());
    Ok((status, sink, kept))
}

// Each with its status, how many replies there are, and the line behind them. A write is made before the source is asked again,
// and once 65,536 bytes wait, which are 4,370 replies of 15 bytes.
static TRIALS: [(Trial, u8, u64, &str); 31] = [
    (RUN, 0, 8, ""),
    (Trial { read: 1, ..RUN }, 4, 0, "error read\n"),
    // The first piece ends inside the fourth line, and the second one behind the seventh.
    (Trial { read: 2, ..RUN }, 4, 3, "error read\n"),
    (Trial { read: 3, ..RUN }, 4, 7, "error read\n"),
    (Trial { write: 1, ..RUN }, 5, 0, ""),
    (Trial { write: 2, ..RUN }, 5, 3, ""),
    (Trial { write: 5, ..LONG }, 5, 4 * 4370, ""),
    (Trial { cut: 1, ..RUN }, 8, 0, "error device\n"),
    (Trial { cut: 20, ..RUN }, 8, 0, "error device\n"),
    // The image was not set up, or not mounted: nothing is read of the script.
    (
        Trial {
            fail: 1,
            read: 1,
            ..RUN
        },
        8,
        0,
        "error device\n",
    ),
    (
        Trial {
            fail: 20,
            read: 1,
            ..RUN
        },
        8,
        0,
        "error device\n",
    ),
    (Trial { image: 1, ..RUN }, 4, 0, "error read\n"),
    // The image was not replaced, once all was written.
    (Trial { image: 2, ..RUN }, 5, 8, ""),
    (NO_IMAGE, 4, 0, "error read\n"),
    // Where the status's line can't be written either, the status stays.
    (
        Trial {
            read: 1,
            write: 1,
            ..RUN
        },
        4,
        0,
        "",
    ),
    (
        Trial {
            write: 1,
            cut: 1,
            ..RUN
        },
        8,
        0,
        "",
    ),
    (CHECK, 0, 0, "ok 5056 bad 0\n"),
    (CHECK_NO_IMAGE, 4, 0, "error read\n"),
    (Trial { image: 1, ..CHECK }, 4, 0, "error read\n"),
    (Trial { write: 1, ..CHECK }, 5, 0, ""),
    (Trial { cut: 3, ..CHECK }, 8, 0, "error device\n"),
    (Trial { fail: 1, ..CHECK }, 8, 0, "error device\n"),
    (Trial { fail: 3, ..CHECK }, 8, 0, "error device\n"),
    (NEW, 0, 0, "ok 5056\n"),
    // No device is asked.
    (Trial { fail: 1, ..NEW }, 0, 0, "ok 5056\n"),
    (Trial { write: 1, ..NEW }, 5, 0, ""),
    // The line comes before the image.
    (Trial { image: 1, ..NEW }, 5, 0, "ok 5056\n"),
    // Neither source nor images are asked.
    (
        Trial {
            read: 1,
            image: 1,
            ..BENCH
        },
        0,
        0,
        "bench commands 4 ok 3 data 0 cuts 0 sum 0\n",
    ),
    (Trial { write: 1, ..BENCH }, 5, 0, ""),
    (Trial { fail: 1, ..BENCH }, 8, 0, "error device\n"),
    (Trial { fail: 3, ..BENCH }, 8, 0, "error device\n"),
];

#[test]
fn a_call_that_ends_early_says_why(rt: HostRuntime) -> Result<(), Fail> {
    let alloc = rt.alloc();
    let image = fresh_image(alloc)?;
    for &(trial, status, replies, line) in &TRIALS {
        let (ended, sink, kept) = outcome(alloc, image.as_slice(), &trial)?;
        assert_eq!(rt; ended, status, "{line}");
        let mut written = repeated(alloc, "refused syntax\n", replies)?;
        written.extend(line.as_bytes())?;
        assert_eq!(rt; sink.written(), written.as_slice());
        assert!(rt; kept);
    }
    Ok(())
}
