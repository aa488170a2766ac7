// What is asked of each read.
ghost use Rattle.std.specs.Prelude.{◌≡◌, ◌+◌, IfErr, IfOk, length};
ghost use Rattle.script_text.specs.Script.{words_of};
ghost use Rattle.questions.specs.Asked.{is_any, part_asked};
ghost use Rattle.questions.specs.Parts.{part_of, parts_of};
ghost use Rattle.questions.specs.Question.{parts_asked};
ghost use Rattle.questions.specs.Reading.{ReadsPart, ReadsReplies};

use crate::parts::{after_bar, only_word};
use crate::replies::read_reply;
use crate::reply::ReplyFault;
use crate::{AskedReply, QuestionFault, Replies};
use std::alloc::Global;

// Replies between bars.
pub(crate) fn read_replies(alloc: Global, words: &[u8]) -> Result<Replies, QuestionFault>
    ensures { ReadsReplies (parts_asked 1 (parts_of (words_of words.now))) result }
{
    let mut replies = Replies::new(alloc);
    let mut next = Some(words);
    while let Some(part) = next {
        let number = next_number(&replies)?;
        match read_part(alloc, part) {
            Ok(reply) => replies.push(reply)?,
            Err(ReplyFault::Syntax) => return Err(QuestionFault::Reply(number)),
            Err(ReplyFault::Memory) => return Err(QuestionFault::Memory),
        }
        next = after_bar(part);
    }
    Ok(replies)
}

// The number of the reply after these. No memory holds more of them than numbers exist.
fn next_number(replies: &Replies) -> Result<u64, QuestionFault>
    ensures number { IfOk result (λ number. number ≡ length replies.now.items + 1) }
    ensures cause { IfErr result (λ e. e ≡ QuestionFault.Memory) }
{
    replies.len().checked_add(1).ok_or(QuestionFault::Memory)
}

// Any reply, or one.
fn read_part(alloc: Global, words: &[u8]) -> Result<Option<AskedReply>, ReplyFault>
    ensures { ReadsPart (part_asked (part_of (words_of words.now))) result }
{
    if is_any(words) {
        return Ok(None);
    }
    Ok(Some(read_reply(alloc, words)?))
}

fn is_any(words: &[u8]) -> bool
    ensures { result ≡ is_any (part_of (words_of words.now)) }
{
    matches!(only_word(words), Some(b"_"))
}
