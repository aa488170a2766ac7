// Names in words: 32 bytes, the lowest of each word first.
ghost use Rattle.std.specs.Prelude.{◌≡◌, length, true};
ghost use Rattle.inode_table.specs.Words.{bytes_in, name_words, spelled_name};
ghost use Rattle.nvm_base.specs.Names.{is_name, padded};

use byteorder::{ByteOrder, LittleEndian};
use nvm_base::{NAME, Name};

/// The name that four words spell.
pub(crate) fn name_in(words: &[u64]) -> Option<Name>
    requires { length words.now ≡ 4 }
    ensures { result ≡ spelled_name words.now }
{
    Name::from_padded(bytes_in(words))
}

#[tactic(auto, unfolding(crate::specs::Words::bytes_in))]
fn bytes_in(words: &[u64]) -> [u8; NAME]
    requires { length words.now ≡ 4 }
    ensures { result ≡ bytes_in words.now }
{
    let mut bytes = [0; NAME];
    LittleEndian::write_u64_into(words, &mut bytes);
    bytes
}

/// The words of a name.
pub(crate) fn words_of(name: &Name) -> [u64; 4]
    ensures words { result ≡ name_words name.now }
    ensures bytes { bytes_in result ≡ padded name.now }
    ensures name { is_name name.now ≡ true }
{
    let _is_name = name.bytes();
    let bytes = name.padded();
    let mut words = [0; 4];
    LittleEndian::read_u64_into(&bytes, &mut words);
    words
}
