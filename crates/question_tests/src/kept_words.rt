// What a cut keeps of a line of the volume, where reads ask for it.

use asked_reads::{PageRead, PageReply, Question};
use cut_places::{FilesSeen, Sight};
use line_histories::HeldLine;
use nvm_base::Bytes;
use sights::{LineSeen, may_be_replies};
use std::alloc::{AllocError, Global};
use std::test::Fail;
use witnesses::{LineLeft, keep, kept_text};
use word_tables::Geometry;

const SIZES: Geometry = Geometry {
    blocks: 8,
    vpages: 8,
    fpages: 64,
};

// What was stored into the first words of line 0, and whether the line went bad then.
#[derive(Clone, Copy, Debug)]
struct Held {
    stores: &'static [(u64, [u8; 8])],
    lost: bool,
}

const STORED: Held = Held {
    stores: &[(0, [1; 8]), (0, [2; 8]), (8, [5; 8])],
    lost: false,
};

const LOST: Held = Held {
    lost: true,
    ..STORED
};

const FLAG: Held = Held {
    stores: &[(0, [1; 8])],
    lost: false,
};

const FIRST: [bool; 8] = [true, false, false, false, false, false, false, false];

const FIRST_TWO: [bool; 8] = [true, true, false, false, false, false, false, false];

// Each with what a read of byte 1 finds, none for a bad line; how the line is left, which is the first value of each word on which
// all reads agree; which of its words the cut could have left otherwise; and what is reported.
static TRIALS: [(Held, Option<u8>, LineLeft, [bool; 8], &str); 4] = [
    (
        STORED,
        Some(2),
        LineLeft::Words([0x0202_0202_0202_0202, 0, 0, 0, 0, 0, 0, 0]),
        FIRST_TWO,
        " | volume 0 02*8",
    ),
    (
        STORED,
        Some(0),
        LineLeft::Words([0; 8]),
        FIRST_TWO,
        " | volume 0 00*8",
    ),
    (LOST, None, LineLeft::Bad, [false; 8], ""),
    (
        FLAG,
        Some(1),
        LineLeft::Words([0x0101_0101_0101_0101, 0, 0, 0, 0, 0, 0, 0]),
        FIRST,
        " | volume 0 01*8",
    ),
];

fn line_of(alloc: Global, held: Held) -> Result<HeldLine, AllocError> {
    let mut line = HeldLine::zeros(alloc);
    for (from, bytes) in held.stores {
        line.put(0, *from, bytes)?;
    }
    if held.lost {
        line.lose();
    }
    Ok(line)
}

fn reply_of(alloc: Global, found: Option<u8>) -> Result<PageReply, AllocError> {
    let Some(byte) = found else {
        return Ok(PageReply::Poison(0));
    };
    let mut bytes = Bytes::new(alloc);
    bytes.push(byte)?;
    Ok(PageReply::Shows(bytes))
}

#[test]
fn words_keep_the_first_value_on_which_all_reads_agree(rt: HostRuntime) -> Result<(), Fail> {
    let alloc = rt.alloc();
    for &(held, found, left, free, told) in &TRIALS {
        let mut volume = Vec::new(alloc);
        volume.push(PageRead {
            start: 1,
            len: 1,
            reply: reply_of(alloc, found)?,
        })?;
        let question = Question {
            volume,
            blocks: Vec::new(alloc),
            files: Vec::new(alloc),
        };
        let mut lines = Vec::new(alloc);
        let line = line_of(alloc, held)?;
        lines.push(LineSeen { number: 0, line })?;
        let sight = Sight {
            lines,
            blocks: Vec::new(alloc),
            files: FilesSeen::new(alloc, Vec::new(alloc)),
        };
        assert!(rt; SIZES.valid() && may_be_replies(&question, SIZES) && sight.shows(&question));
        let kept = keep(alloc, &question, &question, &sight, SIZES, None)?;
        assert_eq!(rt; kept.lines.len(), 1);
        assert_eq!(rt;
            (kept.lines[0].left, kept.lines[0].free),
            (left, free),
            "{told}"
        );
        let text = kept_text(alloc, &question, &kept)?;
        assert!(rt; text.as_slice() == told.as_bytes(), "{told}");
    }
    Ok(())
}
