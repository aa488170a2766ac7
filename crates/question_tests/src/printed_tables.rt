// That a table can be printed at all.
use asked_reads::Read;
use block_sights::HeldBlock;
use cut_places::{FilesSeen, Sight};
use line_histories::HeldLine;
use script_text::Command;
use sights::{BlockSeen, LineSeen};
use std::alloc::AllocError;
use std::test::Fail;
use value_tables::table_of;
use word_tables::Geometry;

const SMALL: Geometry = Geometry {
    blocks: 8,
    vpages: 2,
    fpages: 32,
};

#[test]
fn a_stored_record_is_kept_once_it_is_synced(rt: HostRuntime) -> Result<(), Fail> {
    let alloc = rt.alloc();
    let mut line = HeldLine::zeros(alloc);
    line.put(1, 64, &[7; 8])?;
    let mut sight = Sight {
        lines: Vec::new(alloc),
        blocks: Vec::new(alloc),
        files: FilesSeen::new(alloc, Vec::new(alloc)),
    };
    sight
        .lines
        .push(LineSeen { number: 1, line })
        .map_err(AllocError::from)?;
    let program = [Some(Command::VSync { offset: 64, len: 8 })];
    let reads = [Read::Volume { start: 64, len: 8 }];
    let table = table_of(alloc, &program, &[true], SMALL, &reads, &mut sight)?;
    let wanted = "before 1\n1 volume 64 00*8 07*8\nbefore 2\n1 volume 64 07*8\n";
    assert!(rt; table.as_slice() == wanted.as_bytes());
    Ok(())
}

#[test]
fn a_block_is_discarded_at_once(rt: HostRuntime) -> Result<(), Fail> {
    let alloc = rt.alloc();
    let block = HeldBlock::of_bytes(alloc, &[7; 512])?;
    let mut sight = Sight {
        lines: Vec::new(alloc),
        blocks: Vec::new(alloc),
        files: FilesSeen::new(alloc, Vec::new(alloc)),
    };
    sight
        .blocks
        .push(BlockSeen { number: 3, block })
        .map_err(AllocError::from)?;
    let program = [None, Some(Command::BDiscard { block: 3, count: 1 })];
    let reads = [
        Read::Blocks { first: 3, count: 1 },
        Read::Volume {
            start: 8192,
            len: 1,
        },
    ];
    let table = table_of(alloc, &program, &[false, true], SMALL, &reads, &mut sight)?;
    let wanted = "before 2\n1 block 3 07*512\n2 refused range\n\
        inside 2\n1 block 3 07*512 00*512\nbefore 3\n1 block 3 00*512\n";
    assert!(rt; table.as_slice() == wanted.as_bytes());
    Ok(())
}
