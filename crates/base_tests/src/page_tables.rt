// Tables of files' pages, read from words.
ghost use Rattle.std.specs.Prelude.{◌≡◌, ◌<◌};

use free_pool::Pool;
use page_table::{PageTable, Run, SPARE_UNITS, TableFault};
use std::alloc::Global;
use std::process::Abort;
use std::test::Fail;
use word_tables::Geometry;

const WORDS: usize = 16384;

fn sizes(fpages: u64) -> Geometry
    ensures { result.fpages ≡ fpages }
{
    Geometry {
        blocks: 8,
        vpages: 2,
        fpages,
    }
}

// The table of these words, each at its index, and else of holes; and the pool of its units.
fn table(
    rt: &impl Abort,
    alloc: Global,
    counts: &[u64; 64],
    named: &[(usize, u64)],
) -> Result<(PageTable, Pool), TableFault> {
    let geo = sizes(32);
    assert!(rt; geo.valid());
    let mut words = vec![in alloc; 0; WORDS]?;
    for (index, word) in named {
        assert!(rt; *index < words.len());
        words[*index] = *word;
    }
    assert!(rt; words.len() == WORDS);
    PageTable::read_with_pool(alloc, geo, counts, &words)
}

// Puts one page of the first inode where another was.
fn move_page(table: &mut PageTable, from: u64, to: u64)
    requires from { from < 256 }
    requires to { to < 256 }
{
    let unit = table.get(0, from);
    table.set(0, from, None);
    table.set(0, to, unit);
}

#[test]
fn pages_are_read_set_and_counted(rt: HostRuntime) -> Result<(), Fail> {
    let mut counts = [0; 64];
    counts[0] = 3;
    counts[63] = 256;
    let words = [(0, 1), (2, 32), (16383, 2)];
    let (mut table, free) = table(&rt, rt.alloc(), &counts, &words)?;
    assert_eq!(rt; table.used(), 3);
    assert_eq!(rt; free.free(), 29);
    assert!(rt; !free.is_free(31));
    assert!(rt; free.is_free(30));
    assert_eq!(rt; table.get(0, 0), Some(0));
    assert_eq!(rt; table.get(0, 1), None);
    assert_eq!(rt; table.get(63, 255), Some(1));
    assert_eq!(rt; table.get(0, 2), Some(31));

    move_page(&mut table, 2, 1);
    assert_eq!(rt; table.used(), 3);
    assert_eq!(rt; table.get(0, 1), Some(31));
    assert_eq!(rt; table.get(0, 2), None);
    table.set(63, 255, None);
    assert_eq!(rt; table.used(), 2);
    assert_eq!(rt; table.get(63, 255), None);
    assert_eq!(rt; table.get(0, 0), Some(0));
    Ok(())
}

#[test]
fn words_stand_for_units(rt: HostRuntime) {
    assert_eq!(rt; PageTable::word(None), 0);
    assert_eq!(rt; PageTable::word(Some(0)), 1);
    assert_eq!(rt; PageTable::word(Some(1023)), 1024);
}

// Two words of a table, each with its index, and the index of the first wrong one.
static WRONG: [(&[(usize, u64)], u64); 6] = [
    (&[(0, 33), (1, 33)], 0),
    (&[(0, 32), (1, 32)], 1),
    (&[(1, 7), (16383, 7)], 16383),
    (&[(1, 1), (2, 2)], 2),
    (&[(256, 1), (257, 40)], 256),
    (&[(1, u64::MAX), (2, 1)], 1),
];

#[test]
fn the_first_wrong_word_is_named(rt: HostRuntime) -> Result<(), Fail> {
    let mut counts = [0; 64];
    counts[0] = 2;
    counts[63] = 256;
    for &(words, index) in &WRONG {
        let answer = table(&rt, rt.alloc(), &counts, words).err();
        assert_eq!(rt; answer, Some(TableFault::Bad(index)), "at {words:?}");
    }
    Ok(())
}

// The table whose first pages are on the first units.
fn filled(
    rt: &impl Abort,
    alloc: Global,
    fpages: u64,
    pages: usize,
) -> Result<PageTable, TableFault> {
    let geo = sizes(fpages);
    assert!(rt; geo.valid());
    let mut words = vec![in alloc; 0; WORDS]?;
    for index in 0..pages {
        assert!(rt; index < words.len());
        words[index] = index as u64 + 1;
    }
    assert!(rt; words.len() == WORDS);
    PageTable::read(alloc, geo, &[256; 64], &words)
}

#[test]
fn sixteen_units_stay_free(rt: HostRuntime) -> Result<(), Fail> {
    for fpages in [32, 1024] {
        let most = fpages - SPARE_UNITS;
        let full = filled(&rt, rt.alloc(), fpages, most as usize)?;
        assert_eq!(rt; full.used(), most);
        let answer = filled(&rt, rt.alloc(), fpages, most as usize + 1).err();
        assert_eq!(rt; answer, Some(TableFault::Bad(most)), "of {fpages}");
    }
    Ok(())
}

// The run of so many pages from one on, on units from one on.
fn run(page: u64, unit: u64, len: u64) -> Option<Run> {
    Some(Run { page, unit, len })
}

#[test]
fn pages_on_neighbouring_units_are_one_run(rt: HostRuntime) -> Result<(), Fail> {
    let words = [(100, 6), (110, 7), (120, 9), (130, 8)];
    let (mut table, _free) = table(&rt, rt.alloc(), &[256; 64], &words)?;
    move_page(&mut table, 100, 0);
    move_page(&mut table, 110, 1);
    move_page(&mut table, 120, 3);
    assert_eq!(rt; table.run(0, 1), run(0, 5, 2));
    assert_eq!(rt; table.run(0, 2), None);
    assert_eq!(rt; table.run(0, 3), run(3, 8, 1));

    move_page(&mut table, 130, 2);
    assert_eq!(rt; table.run(0, 3), run(0, 5, 4));
    move_page(&mut table, 0, 255);
    assert_eq!(rt; table.run(0, 3), run(1, 6, 3));
    assert_eq!(rt; table.run(0, 255), run(255, 5, 1));
    assert_eq!(rt; table.run(1, 0), None);
    Ok(())
}
