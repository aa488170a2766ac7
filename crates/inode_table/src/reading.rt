// Words read as inodes, one after the other, up to the first wrong word.
ghost use Rattle.std.specs.Prelude.{◌≡◌, ◌<◌, [], ◌∷◌, ◌++◌, IfErr, IfOk, None, OnOk, false, length, nat_lt, position};
ghost use Rattle.inode_table.specs.Cause.{IsCause};
ghost use Rattle.inode_table.specs.Words.{inode_words, slot_from, slot_of, slots_of};
ghost use Rattle.inode_table.specs.Wrong.{AreRight, IsFirstWrong, IsRightFile, IsWrongFile, first_wrong_word};

use crate::{TableFault, slots, words};
use nvm_base::{FileEntry, INODES};
use std::alloc::{AllocError, Global};

const INODE_WORDS: u64 = 8;

const MOST_PAGES: u64 = 256;

// The words that every inode keeps at 0 begin there.
const FIRST_SPARE: usize = 5;

/// The slots that 64 inodes' words are.
pub(crate) fn read_slots(alloc: Global, words: &[u64]) -> Result<Vec<Option<FileEntry>>, TableFault>
    requires { length words.now ≡ 512 }
    ensures ok { IfOk result (λ slots. slots.items ≡ slots_of words.now) }
    ensures right { OnOk result (first_wrong_word words.now ≡ None) }
    ensures err { IfErr result (IsCause words.now) }
{
    let mut slots = Vec::new(alloc);
    for inode in 0..INODES {
        match read_slot(slots.as_slice(), inode_words(words, inode)) {
            Ok(slot) => add(&mut slots, slot)?,
            Err(word) => return Err(TableFault::Bad(INODE_WORDS * inode + word)),
        }
    }
    Ok(slots)
}

fn add(slots: &mut Vec<Option<FileEntry>>, slot: Option<FileEntry>) -> Result<(), AllocError>
    ensures { OnOk result (slots.new.items ≡ slots.old.items ++ slot ∷ []) }
{
    slots.push(slot)?;
    Ok(())
}

fn inode_words(words: &[u64], inode: u64) -> &[u64]
    requires inode { inode < 64 }
    requires length { length words.now ≡ 512 }
    ensures words { result.now ≡ inode_words words.now inode }
    ensures length { length result.now ≡ 8 }
{
    let first = (INODE_WORDS * inode) as usize;
    &words[first..first + INODE_WORDS as usize]
}

// What an inode's words say, after the slots before it, or which of them is the first wrong one.
fn read_slot(before: &[Option<FileEntry>], inode: &[u64]) -> Result<Option<FileEntry>, u64>
    requires { length inode.now ≡ 8 }
    ensures ok { IfOk result (λ slot. slot ≡ slot_of inode.now) }
    ensures right { OnOk result (AreRight before.now inode.now) }
    ensures err { IfErr result (IsFirstWrong before.now inode.now) }
{
    let slot = read_file(before, inode[0], &inode[1..FIRST_SPARE])?;
    match first_set(&inode[FIRST_SPARE..]) {
        None => Ok(slot),
        Some(word) => Err((FIRST_SPARE + word) as u64),
    }
}

fn read_file(
    before: &[Option<FileEntry>],
    first: u64,
    name: &[u64],
) -> Result<Option<FileEntry>, u64>
    requires { length name.now ≡ 4 }
    ensures ok { IfOk result (λ slot. slot ≡ slot_from first name.now) }
    ensures right { OnOk result (IsRightFile before.now first name.now) }
    ensures err { IfErr result (IsWrongFile before.now first name.now) }
{
    if first == 0 {
        return Ok(None);
    }
    if first > MOST_PAGES + 1 {
        return Err(0);
    }
    match words::name_in(name) {
        Some(name) if !slots::is_taken(before, &name) => Ok(Some(FileEntry {
            name,
            pages: first - 1,
        })),
        _ => Err(1),
    }
}

// Which word is the first that is not 0.
fn first_set(words: &[u64]) -> Option<usize>
    ensures { result ≡ position (λ word. nat_lt 0 word) words.now }
{
    words.iter().position(|word| *word != 0)
}
