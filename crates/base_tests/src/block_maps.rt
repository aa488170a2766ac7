// Maps of blocks, read from words.
ghost use Rattle.std.specs.Prelude.{◌≡◌};

use block_map::{BlockMap, BlockState, TableFault};
use std::test::Fail;
use word_tables::Geometry;

fn sizes(blocks: u64) -> Geometry
    ensures { result.blocks ≡ blocks }
{
    Geometry {
        blocks,
        vpages: 2,
        fpages: 32,
    }
}

#[test]
fn words_are_read_set_and_written_again(rt: HostRuntime) -> Result<(), Fail> {
    let geo = sizes(8);
    assert!(rt; geo.valid());
    let words = [0, 1, 2, 73, 0, 0, 0, 72];
    let mut map = BlockMap::read(rt.alloc(), geo, &words)?;
    assert_eq!(rt; map.get(0), BlockState::Absent);
    assert_eq!(rt; map.get(1), BlockState::Scarred);
    assert_eq!(rt; map.get(2), BlockState::At(0));
    assert_eq!(rt; map.get(3), BlockState::At(71));

    map.set(2, BlockState::Absent);
    assert_eq!(rt; map.get(2), BlockState::Absent);
    assert_eq!(rt; map.get(7), BlockState::At(70));
    assert_eq!(rt; BlockMap::word(BlockState::At(71)), 73);
    Ok(())
}

// Words of a map of eight blocks, and the index of the first wrong one.
static WRONG: [([u64; 8], u64); 4] = [
    ([74, 0, 0, 0, 0, 0, 0, 0], 0),
    ([2, 3, 2, 74, 0, 0, 0, 0], 2),
    ([1, 1, 0, 0, 9, 8, 7, 9], 7),
    ([73, 0, 0, 0, 0, 0, 0, u64::MAX], 7),
];

#[test]
fn the_first_wrong_word_is_named(rt: HostRuntime) -> Result<(), Fail> {
    let geo = sizes(8);
    assert!(rt; geo.valid());
    for &(words, index) in &WRONG {
        let answer = BlockMap::read(rt.alloc(), geo, &words).err();
        assert_eq!(rt; answer, Some(TableFault::Bad(index)), "at {words:?}");
    }
    Ok(())
}

#[test]
fn the_largest_map_is_read(rt: HostRuntime) -> Result<(), Fail> {
    let geo = sizes(4096);
    assert!(rt; geo.valid());
    let mut words = vec![in rt.alloc(); 1; 4096]?;
    words[4095] = 4161;
    let map = BlockMap::read(rt.alloc(), geo, &words)?;
    assert_eq!(rt; map.get(4094), BlockState::Scarred);
    assert_eq!(rt; map.get(4095), BlockState::At(4159));
    Ok(())
}
