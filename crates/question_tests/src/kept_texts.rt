// What is kept of lines, blocks and files, as it is reported.

use asked_reads::{FileRead, PageRead, PageReply, Question};
use block_sights::{HeldBlock, Unreadable};
use nvm_base::Name;
use std::alloc::Global;
use std::test::Fail;
use witnesses::{BlockKept, FileLineKept, Kept, LineKept, LineLeft, SizeKept, kept_text};

const WORDS: LineLeft = LineLeft::Words([7, 9, 0, 0, 0, 0, 0, 0]);

// Each line with its number, how it is left, and which of its words the cut could have left otherwise.
static LINES: [(u64, LineLeft, [bool; 8]); 3] = [
    (1, WORDS, [true; 8]),
    (1, WORDS, [true; 8]),
    (2, LineLeft::Bad, [true; 8]),
];

static LINES_OF_FILES: [(u32, LineLeft, [bool; 8]); 3] = [
    (0, WORDS, FIRST_TWO),
    (0, WORDS, FIRST_TWO),
    (1, LineLeft::Bad, FIRST_TWO),
];

const FIRST_TWO: [bool; 8] = [true, true, false, false, false, false, false, false];

fn log() -> Result<Name, Fail> {
    match Name::read(b"log") {
        Some(name) => Ok(name),
        None => Err(Fail::from("a name")),
    }
}

// One byte of the volume is asked about, and sixty of a file.
fn question(alloc: Global) -> Result<Question, Fail> {
    let mut volume = Vec::new(alloc);
    volume.push(PageRead {
        start: 64,
        len: 1,
        reply: PageReply::Poison(64),
    })?;
    let mut files = Vec::new(alloc);
    let pages = PageRead {
        start: 8,
        len: 60,
        reply: PageReply::Poison(64),
    };
    files.push(FileRead {
        name: log()?,
        pages,
    })?;
    Ok(Question {
        volume,
        blocks: Vec::new(alloc),
        files,
    })
}

fn kept_lines(alloc: Global) -> Result<Vec<LineKept>, Fail> {
    let mut lines = Vec::new(alloc);
    for &(number, left, free) in &LINES {
        lines.push(LineKept { number, left, free })?;
    }
    Ok(lines)
}

fn kept_file_lines(alloc: Global) -> Result<Vec<FileLineKept>, Fail> {
    let mut lines = Vec::new(alloc);
    for &(number, left, free) in &LINES_OF_FILES {
        lines.push(FileLineKept {
            name: log()?,
            number,
            left,
            free,
        })?;
    }
    Ok(lines)
}

#[test]
fn what_is_kept_is_told_once(rt: HostRuntime) -> Result<(), Fail> {
    let alloc = rt.alloc();
    let mut blocks = Vec::new(alloc);
    blocks.push(BlockKept {
        number: 3,
        block: HeldBlock::unreadable(alloc, Unreadable::BadLine(2))?,
        free: true,
    })?;
    let mut sizes = Vec::new(alloc);
    for _ in 0..2 {
        sizes.push(SizeKept {
            name: log()?,
            pages: Some(3),
            free: true,
        })?;
    }
    let kept = Kept {
        lines: kept_lines(alloc)?,
        blocks,
        sizes,
        files: kept_file_lines(alloc)?,
    };
    let text = kept_text(alloc, &question(alloc)?, &kept)?;
    assert_eq!(rt;
        text.as_slice(),
        b" | volume 64 07,00*7 | volume 128 poison | block 3 poison 2 | file log pages 3 | file log 8 09,00*7 | file log 64 poison".as_slice()
    );
    Ok(())
}
