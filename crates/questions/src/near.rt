// Comments that nearly ask something.
ghost use Rattle.std.specs.Prelude.{◌≡◌, is_some};
ghost use Rattle.nvm_base.specs.Numbers.{number_of};
ghost use Rattle.script_text.specs.Script.{words_of};
ghost use Rattle.questions.specs.Near.{asks_of_reads, begins, begins_a_reply, is_near, is_over, seem_replies, stands_alone};

use crate::parts::after_bar;
use crate::words::next_word;
use nvm_base::read_number;

// Whether it looks as if this word, and what follows it, were to ask something.
pub(crate) fn is_near(word: &[u8], rest: &[u8]) -> bool
    ensures { result ≡ is_near word.now (words_of rest.now) }
{
    (stands_alone(word) && is_over(rest))
        || (asks_of_reads(word) && seem_replies(rest))
        || (word.eq_ignore_ascii_case(b"from") && begins_with_a_number(rest))
}

fn stands_alone(word: &[u8]) -> bool
    ensures { result ≡ stands_alone word.now }
{
    word.eq_ignore_ascii_case(b"look")
        || word.eq_ignore_ascii_case(b"table")
        || word.eq_ignore_ascii_case(b"list")
        || word.eq_ignore_ascii_case(b"begin")
        || word.eq_ignore_ascii_case(b"refused")
        || word.eq_ignore_ascii_case(b"unsynced")
        || word.eq_ignore_ascii_case(b"idle")
}

fn is_over(rest: &[u8]) -> bool
    ensures { result ≡ is_over (words_of rest.now) }
{
    next_word(rest).is_none()
}

fn asks_of_reads(word: &[u8]) -> bool
    ensures { result ≡ asks_of_reads word.now }
{
    word.eq_ignore_ascii_case(b"never")
        || word.eq_ignore_ascii_case(b"may")
        || word.eq_ignore_ascii_case(b"only")
}

// Whether replies seem to follow.
fn seem_replies(rest: &[u8]) -> bool
    ensures { result ≡ seem_replies (words_of rest.now) }
{
    after_bar(rest).is_some() || begins_with_a_reply(rest)
}

fn begins_with_a_reply(rest: &[u8]) -> bool
    ensures { result ≡ begins begins_a_reply (words_of rest.now) }
{
    match next_word(rest) {
        Some((word, _)) => begins_a_reply(word),
        None => false,
    }
}

fn begins_a_reply(word: &[u8]) -> bool
    ensures { result ≡ begins_a_reply word.now }
{
    word.eq_ignore_ascii_case(b"data")
        || word.eq_ignore_ascii_case(b"poison")
        || word.eq_ignore_ascii_case(b"scarred")
        || word.eq_ignore_ascii_case(b"refused")
        || word.eq_ignore_ascii_case(b"_")
}

fn begins_with_a_number(rest: &[u8]) -> bool
    ensures { result ≡ begins (λ w. is_some (number_of w)) (words_of rest.now) }
{
    match next_word(rest) {
        Some((word, _)) => read_number(word).is_some(),
        None => false,
    }
}
