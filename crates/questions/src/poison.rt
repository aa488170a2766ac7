// Replies on a bad line.
ghost use Rattle.std.specs.Prelude.{◌≡◌, option_map};
ghost use Rattle.script_text.specs.Script.{words_of};
ghost use Rattle.questions.specs.Asked.{answer_asked, block_asked, file_asked, line_asked, poison_asked, volume_asked};
ghost use Rattle.questions.specs.Parts.{part_of};

use crate::AskedReply;
use crate::parts::{next_of_part, two_words};
use nvm_base::{Name, read_number};

// A line of a block, of the volume or of a file.
pub(crate) fn read_poison(words: &[u8]) -> Option<AskedReply>
    ensures { option_map answer_asked result ≡ poison_asked (part_of (words_of words.now)) }
{
    let (word, rest) = next_of_part(words)?;
    if word == b"block".as_slice() {
        read_poison_block(rest)
    } else if word == b"volume".as_slice() {
        read_poison_volume(rest)
    } else if word == b"file".as_slice() {
        read_poison_file(rest)
    } else {
        None
    }
}

fn read_poison_block(words: &[u8]) -> Option<AskedReply>
    ensures { option_map answer_asked result ≡ block_asked (part_of (words_of words.now)) }
{
    let (block, line) = two_words(words)?;
    let block = read_number(block)?;
    let line = read_number(line)?;
    Some(AskedReply::PoisonBlock { block, line })
}

fn read_poison_volume(words: &[u8]) -> Option<AskedReply>
    ensures { option_map answer_asked result ≡ volume_asked (part_of (words_of words.now)) }
{
    let offset = read_line(words)?;
    Some(AskedReply::PoisonVolume { offset })
}

fn read_poison_file(words: &[u8]) -> Option<AskedReply>
    ensures { option_map answer_asked result ≡ file_asked (part_of (words_of words.now)) }
{
    let (name, rest) = next_of_part(words)?;
    let name = Name::read(name)?;
    let offset = read_line(rest)?;
    Some(AskedReply::PoisonFile { name, offset })
}

// The offset of a line, and its length.
fn read_line(words: &[u8]) -> Option<u64>
    ensures { result ≡ line_asked (part_of (words_of words.now)) }
{
    let (offset, len) = two_words(words)?;
    if len == b"64".as_slice() {
        read_number(offset)
    } else {
        None
    }
}
