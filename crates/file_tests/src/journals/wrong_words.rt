// Words of tables that a mount refuses. The inodes begin with word 1232, the page tables with word 1744.
ghost use Rattle.std.specs.Prelude.{◌<◌, ◌/◌, IsTrue};

use super::open;
use crate::devices::fresh;
use file_journal::MountFault;
use line_device::{Choice, Lines, Plain};
use nvm_base::LineNo;
use std::alloc::Global;
use std::test::Fail;

// Stores a word, if the device has it.
fn store<L: Lines>(dev: &mut L, place: u64, value: u64) -> bool {
    let line = LineNo(place / 8);
    if place / 8 >= dev.lines() || !dev.power() {
        return false;
    }
    dev.store(line, 8 * (place % 8), &value.to_le_bytes())
        .is_ok()
}

// A device of zeros but for these words.
fn with_words(alloc: Global, words: &[(u64, u64)]) -> Result<Plain, Fail> {
    let mut device = fresh(alloc)?;
    for &(place, value) in words {
        if !store(&mut device, place, value) {
            return Err(Fail::from("no such word"));
        }
    }
    Ok(device)
}

// Words, and the place of the first wrong one. 0x61 is the name `a`.
static WORDS: [(&[(u64, u64)], u64); 4] = [
    (&[(1232, 1)], 1233),
    (&[(1232, 258)], 1232),
    (&[(1237, 1)], 1237),
    (&[(1744, 1), (1745, 1)], 1744),
];

#[test]
fn a_mount_tells_the_first_wrong_word(rt: HostRuntime) -> Result<(), Fail> {
    for &(words, wrong) in &WORDS {
        let mut device = with_words(rt.alloc(), words)?;
        let fault = open(rt.alloc(), &mut device, Choice::Lasts).err();
        assert_eq!(rt; fault, Some(MountFault::Bad(wrong)));
    }
    Ok(())
}
