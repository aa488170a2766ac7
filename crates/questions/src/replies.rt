// A reply, up to a bar.
ghost use Rattle.std.specs.Prelude.{◌≡◌, option_map};
ghost use Rattle.script_text.specs.Script.{words_of};
ghost use Rattle.questions.specs.Asked.{answer_asked, data_asked, refused_asked, reply_asked, scarred_asked};
ghost use Rattle.questions.specs.Parts.{part_of};
ghost use Rattle.questions.specs.Reading.{ReadsReply};

use crate::AskedReply;
use crate::parts::{next_of_part, only_word};
use crate::poison::read_poison;
use crate::reply::ReplyFault;
use crate::whys::read_why;
use nvm_base::{MOST, TextFault, read_bytes, read_number};
use std::alloc::Global;

pub(crate) fn read_reply(alloc: Global, words: &[u8]) -> Result<AskedReply, ReplyFault>
    ensures { ReadsReply (reply_asked (part_of (words_of words.now))) result }
{
    let Some((word, rest)) = next_of_part(words) else {
        return Err(ReplyFault::Syntax);
    };
    if word == b"data".as_slice() {
        return read_data(alloc, rest);
    }
    let reply = if word == b"poison".as_slice() {
        read_poison(rest)
    } else if word == b"scarred".as_slice() {
        read_scarred(rest)
    } else if word == b"refused".as_slice() {
        read_refused(rest)
    } else {
        None
    };
    reply.ok_or(ReplyFault::Syntax)
}

// DATA.
fn read_data(alloc: Global, words: &[u8]) -> Result<AskedReply, ReplyFault>
    ensures { ReadsReply (data_asked (part_of (words_of words.now))) result }
{
    let Some(text) = only_word(words) else {
        return Err(ReplyFault::Syntax);
    };
    match read_bytes(alloc, text, MOST) {
        Ok(bytes) => Ok(AskedReply::Bytes(bytes)),
        Err(TextFault::Bad | TextFault::TooLong) => Err(ReplyFault::Syntax),
        Err(TextFault::Memory) => Err(ReplyFault::Memory),
    }
}

fn read_scarred(words: &[u8]) -> Option<AskedReply>
    ensures { option_map answer_asked result ≡ scarred_asked (part_of (words_of words.now)) }
{
    let block = read_number(only_word(words)?)?;
    Some(AskedReply::Scarred { block })
}

fn read_refused(words: &[u8]) -> Option<AskedReply>
    ensures { option_map answer_asked result ≡ refused_asked (part_of (words_of words.now)) }
{
    let why = read_why(only_word(words)?)?;
    Some(AskedReply::Refused(why))
}
