// Inodes, read from words.
use crate::names::named;
use inode_table::{Inodes, TableFault, words_hold_their_slots};
use std::test::Fail;

// The bytes `ab` and zeros, and 32 bytes `z`.
const AB: u64 = 0x6261;

const Z: u64 = 0x7a7a_7a7a_7a7a_7a7a;

#[test]
fn words_are_read_and_set_as_files(rt: HostRuntime) -> Result<(), Fail> {
    words_hold_their_slots();
    let ab = named("ab")?;
    let z = named("zzzzzzzzzzzzzzzzzzzzzzzzzzzzzzzz")?;
    let mut words = [0; 512];
    words[8] = 4;
    words[9] = AB;
    words[504] = 257;
    for k in 505..509 {
        words[k] = Z;
    }
    // The words of a free inode's name are anything.
    words[1] = u64::MAX;
    let mut inodes = Inodes::read(rt.alloc(), &words)?;
    assert_eq!(rt; inodes.count(), 2);
    assert_eq!(rt; inodes.free_slot(), Some(0));
    assert_eq!(rt; inodes.find(&ab), Some(1));
    assert_eq!(rt; inodes.find(&z), Some(63));
    assert_eq!(rt; inodes.pages(63), 256);
    assert_eq!(rt; inodes.name(63), Some(z));

    inodes.remove(1);
    assert_eq!(rt; inodes.find(&ab), None);
    assert_eq!(rt; inodes.name(1), None);
    assert_eq!(rt; inodes.pages(1), 0);
    Ok(())
}

#[test]
fn names_that_differ_in_their_last_byte_are_two(rt: HostRuntime) -> Result<(), Fail> {
    let last = named("zzzzzzzzzzzzzzzzzzzzzzzzzzzzzzzy")?;
    let mut words = [0; 512];
    words[0] = 1;
    for k in 1..5 {
        words[k] = Z;
    }
    words[8] = 1;
    for k in 9..12 {
        words[k] = Z;
    }
    words[12] = Z - (1 << 56);
    let inodes = Inodes::read(rt.alloc(), &words)?;
    assert_eq!(rt; inodes.count(), 2);
    assert_eq!(rt; inodes.find(&last), Some(1));
    Ok(())
}

// Which words are put over two files, and the index that is reported.
static WRONG: [(&[(usize, u64)], u64); 10] = [
    (&[(0, 258), (1, 0)], 0),
    (&[(1, 0), (5, 1)], 1),
    (&[(1, 0x41), (8, 300)], 1),
    (&[(2, 1), (7, 1)], 1),
    (&[(1, 0x6100), (511, 1)], 1),
    (&[(5, 1), (9, 0)], 5),
    (&[(9, AB), (16, 258)], 9),
    (&[(16, 1), (15, 1)], 15),
    (&[(504, 1), (503, 0)], 505),
    (&[(511, u64::MAX), (504, 0)], 511),
];

#[test]
fn the_first_wrong_word_is_named(rt: HostRuntime) -> Result<(), Fail> {
    for &(changes, index) in &WRONG {
        let mut words = [0; 512];
        words[0] = 1;
        words[1] = AB;
        words[8] = 257;
        words[9] = AB + 1;
        for &(place, value) in changes {
            assert!(rt; place < 512);
            words[place] = value;
        }
        let answer = Inodes::read(rt.alloc(), &words).err();
        assert_eq!(rt; answer, Some(TableFault::Bad(index)), "at {changes:?}");
    }
    Ok(())
}

#[test]
fn sixty_four_files_fill_the_table(rt: HostRuntime) -> Result<(), Fail> {
    let last = named("77")?;
    let mut words = [0; 512];
    for inode in 0..64_u64 {
        words[8 * inode as usize] = 1;
        words[8 * inode as usize + 1] = 0x3030 + (inode % 8) + 256 * (inode / 8);
    }
    let mut inodes = Inodes::read(rt.alloc(), &words)?;
    assert_eq!(rt; inodes.count(), 64);
    assert_eq!(rt; inodes.free_slot(), None);
    assert_eq!(rt; inodes.find(&last), Some(63));

    inodes.remove(5);
    inodes.remove(40);
    assert_eq!(rt; inodes.free_slot(), Some(5));
    assert_eq!(rt; inodes.count(), 62);
    Ok(())
}

#[test]
fn a_files_words_are_its_pages_and_one_and_its_name(rt: HostRuntime) -> Result<(), Fail> {
    assert_eq!(rt; Inodes::words(&named("ab")?, 3), [4, AB, 0, 0, 0]);
    assert_eq!(rt;
        Inodes::words(&named("0123456789")?, 256),
        [257, 0x3736_3534_3332_3130, 0x3938, 0, 0]
    );
    Ok(())
}
