// What a line asks.
ghost use Rattle.std.specs.Prelude.{◌≡◌, ◌≢◌, ◌≤◌, IfErr, length};
ghost use Rattle.std.specs.Io.BufRead.{strip_last};
ghost use Rattle.script_text.specs.Script.{words_of};
ghost use Rattle.questions.specs.Question.{alone, comment_question, line_of, near_question, question_line, words_question};
ghost use Rattle.questions.specs.Reading.{AsksOfReads, BeginsWithQuestion, Reads};

use crate::near::is_near;
use crate::never::read_replies;
use crate::words::next_word;
use crate::{QuestionFault, QuestionKind};
use nvm_base::MOST;
use std::alloc::Global;

/// What a line asks.
#[tactic(auto, unfolding(crate::specs::Question::question_line))]
pub fn read_question(alloc: Global, line: &[u8]) -> Result<QuestionKind, QuestionFault>
    ensures line { Reads (question_line line.now) result }
    ensures memory { IfErr result (λ e. e ≡ QuestionFault.Memory
        → (length line.now ≤ 65536) × AsksOfReads (words_of (strip_last 13 line.now))) }
{
    if line.len() as u64 > MOST {
        return Ok(QuestionKind::Plain);
    }
    read_words(alloc, without_return(line))
}

fn without_return(line: &[u8]) -> &[u8]
    ensures { result.now ≡ strip_last 13 line.now }
{
    match line {
        [rest @ .., b'\r'] => rest,
        _ => line,
    }
}

fn read_words(alloc: Global, text: &[u8]) -> Result<QuestionKind, QuestionFault>
    ensures line { Reads (words_question (words_of text.now)) result }
    ensures memory { IfErr result (λ e. e ≡ QuestionFault.Memory → AsksOfReads (words_of text.now)) }
{
    let Some((mark, words)) = next_word(text) else {
        return Ok(QuestionKind::Plain);
    };
    if mark == b"#".as_slice() {
        return read_comment(alloc, words);
    }
    match mark {
        [b'#', word @ ..] => near_question(word, words),
        _ => Ok(QuestionKind::Plain),
    }
}

#[tactic(auto, unfolding(crate::specs::Question::comment_question))]
fn read_comment(alloc: Global, words: &[u8]) -> Result<QuestionKind, QuestionFault>
    ensures line { Reads (comment_question (words_of words.now)) result }
    ensures memory { IfErr result (λ e. e ≡ QuestionFault.Memory → BeginsWithQuestion (words_of words.now)) }
{
    let Some((word, rest)) = next_word(words) else {
        return Ok(QuestionKind::Plain);
    };
    if word == b"look".as_slice() {
        alone(QuestionKind::Look, rest)
    } else if word == b"list".as_slice() {
        alone(QuestionKind::List, rest)
    } else if word == b"table".as_slice() {
        alone(QuestionKind::Table, rest)
    } else if word == b"never".as_slice() {
        Ok(QuestionKind::Never(read_replies(alloc, rest)?))
    } else if word == b"may".as_slice() {
        Ok(QuestionKind::May(read_replies(alloc, rest)?))
    } else if word == b"begin".as_slice() {
        alone(QuestionKind::Begin, rest)
    } else if word == b"refused".as_slice() {
        alone(QuestionKind::Refused, rest)
    } else {
        near_question(word, rest)
    }
}

// A comment that asks nothing as it is spelled.
fn near_question(word: &[u8], words: &[u8]) -> Result<QuestionKind, QuestionFault>
    ensures line { Reads (near_question word.now (words_of words.now)) result }
    ensures memory { IfErr result (λ e. e ≢ QuestionFault.Memory) }
{
    if is_near(word, words) {
        Err(QuestionFault::Spelling)
    } else {
        Ok(QuestionKind::Plain)
    }
}

// The question, where no word is left.
fn alone(kind: QuestionKind, words: &[u8]) -> Result<QuestionKind, QuestionFault>
    ensures line { Reads (alone (line_of kind) (words_of words.now)) result }
    ensures memory { IfErr result (λ e. e ≢ QuestionFault.Memory) }
{
    if next_word(words).is_none() {
        Ok(kind)
    } else {
        Err(QuestionFault::Spelling)
    }
}
