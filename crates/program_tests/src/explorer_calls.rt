// Whole calls of `nvmexplore`.

use crate::fresh::{fresh_image, holding};
use crate::numbers::only;
use explore_program::nvmexplore;
use host_io::{MemSink, MemSource};
use line_device::Plain;
use nvm_base::Bytes;
use std::alloc::{AllocError, Global};
use std::test::Fail;
use test_devices::Faulty;

fn source(alloc: Global, text: &str, read: u64) -> Result<MemSource, AllocError> {
    let mut bytes = Bytes::new(alloc);
    bytes.extend(text.as_bytes())?;
    Ok(MemSource::new(bytes, 7, only(alloc, read)?))
}

// A call in which something fails: the read, the write, the fetch and the call of the device of these numbers, 0 for none.
#[derive(Clone, Copy)]
struct Trial {
    words: &'static str,
    script: &'static str,
    read: u64,
    write: u64,
    fetch: u64,
    fail: u64,
}

const ASKS: Trial = Trial {
    words: "img",
    script: "vstore 0 01\n# look\nvload 0 1\n# never data 02\n# never data 01\n",
    read: 0,
    write: 0,
    fetch: 0,
    fail: 0,
};

// Each with its status and what is written.
static TRIALS: [(Trial, u8, &str); 14] = [
    (ASKS, 1, "never\nmay inside 1 | volume 0 01,00*7\n"),
    (Trial { read: 2, ..ASKS }, 4, "error read\n"),
    (Trial { write: 2, ..ASKS }, 5, "never\n"),
    (Trial { fetch: 1, ..ASKS }, 4, "error read\n"),
    (Trial { fail: 1, ..ASKS }, 8, "error device\n"),
    (
        Trial {
            words: "none",
            ..ASKS
        },
        4,
        "error read\n",
    ),
    (
        Trial {
            words: "img img",
            ..ASKS
        },
        2,
        "usage: nvmexplore IN < script\n",
    ),
    (
        Trial {
            script: "restart none\n# look\n",
            ..ASKS
        },
        7,
        "error script 1 not-in-a-program\n",
    ),
    (
        Trial {
            script: "vstore 0 01\n# look\nvstore 0 01\n",
            ..ASKS
        },
        7,
        "error script 3 not-in-a-look\n",
    ),
    (
        Trial {
            script: "# look\nvload 0 1\n# never data 00 | _\n",
            ..ASKS
        },
        7,
        "error script 3 replies 2 of 1\n",
    ),
    (
        Trial {
            script: "# look\nvload 8192 1\n# never data 00\n",
            ..ASKS
        },
        7,
        "error script 3 reply 1 refusal\n",
    ),
    (
        Trial {
            script: "vstore 0 01\n",
            ..ASKS
        },
        7,
        "error script 2 nothing-asked\n",
    ),
    // Where the status's line can't be written either, the status stays.
    (
        Trial {
            read: 1,
            write: 1,
            ..ASKS
        },
        4,
        "",
    ),
    // Nothing is read of a script where the image is not mounted.
    (
        Trial {
            fail: 20,
            read: 1,
            ..ASKS
        },
        8,
        "error device\n",
    ),
];

#[test]
fn a_call_that_ends_early_says_why(rt: HostRuntime) -> Result<(), Fail> {
    let alloc = rt.alloc();
    let image = fresh_image(alloc)?;
    for &(trial, status, written) in &TRIALS {
        let mut words = Vec::new(alloc);
        for word in trial.words.split(' ') {
            words.push(String::from_str(alloc, word)?)?;
        }
        let mut images = holding(alloc, image.as_slice(), trial.fetch)?;
        let mut device = Faulty::new(Plain::new(alloc), only(alloc, trial.fail)?);
        let mut script = source(alloc, trial.script, trial.read)?;
        let mut sink = MemSink::new(alloc, only(alloc, trial.write)?);
        let ended = nvmexplore(
            alloc,
            &words,
            &mut device,
            &mut images,
            &mut script,
            &mut sink,
        );
        assert_eq!(rt; sink.written(), written.as_bytes());
        assert_eq!(rt; ended, status, "{written}");
    }
    Ok(())
}
