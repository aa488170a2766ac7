ghost use Rattle.std.specs.Prelude.{◌≡◌, ◌&&◌, ◌+◌, IfErr, IsTrue, None, OnOk, false, length, nat_le, nat_lt, not, slice_index_or, slice_set};
ghost use Rattle.block_map.specs.Cause.{IsCause};
ghost use Rattle.block_map.specs.Wrong.{first_wrong_entry};

use std::alloc::{AllocError, Global};

/// Why words are no table.
#[derive(Clone, Copy, Debug, PartialEq, Eq)]
pub enum TableFault {
    /// The index of a wrong word.
    Bad(u64),
    Memory,
}

impl From<AllocError> for TableFault {
    ghost use Rattle.block_map.specs.declared.table.TableFault.TheVariants.{Memory};

    ghost from_gives = { λ _ e. e ≡ Memory };

    fn from(_e: AllocError) -> TableFault {
        TableFault::Memory
    }
}

/// Looks for the first wrong word, where `most` is the highest.
pub(crate) fn check(alloc: Global, words: &[u64], most: u64) -> Result<(), TableFault>
    requires { most ≡ length words.now + 65 }
    ensures ok { OnOk result (first_wrong_entry words.now ≡ None) }
    ensures err { IfErr result (IsCause words.now) }
{
    let mut seen = vec![in alloc; false; most as usize + 1]?;
    for (i, word) in words.iter().enumerate() {
        if !claim(&mut seen, *word) {
            return Err(TableFault::Bad(i as u64));
        }
    }
    Ok(())
}

// Whether a word is not too high, and names no unit that one before it named.
fn claim(seen: &mut Vec<bool>, word: u64) -> bool
    ensures right { result ≡ (nat_lt word (length seen.old.items) && not (slice_index_or seen.old.items word false)) }
    ensures seen { IsTrue result → seen.new.items ≡ slice_set seen.old.items word (nat_le 2 word) }
{
    let index = word as usize;
    if index >= seen.len() || seen[index] {
        return false;
    }
    seen[index] = word >= 2;
    true
}
