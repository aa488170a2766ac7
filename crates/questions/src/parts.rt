// Words up to a bar, and those after it.
ghost use Rattle.std.specs.Prelude.{◌≡◌, ◌<◌, [], ◌∷◌, Some, None, MatchOption};
ghost use Rattle.script_text.specs.Parsing.{one_of, two_of};
ghost use Rattle.script_text.specs.Script.{words_of};
ghost use Rattle.questions.specs.Parts.{after_bar, is_bar, part_of};

use crate::words::next_word;

// The first word and what comes after it, None at a bar or at the end.
pub(crate) fn next_of_part(text: &[u8]) -> Option<(&[u8], &[u8])>
    ensures { MatchOption result (part_of (words_of text.now) ≡ [])
        (λ p. part_of (words_of text.now) ≡ p.0.now ∷ part_of (words_of p.1.now)) }
{
    let (word, rest) = next_word(text)?;
    if is_bar(word) {
        None
    } else {
        Some((word, rest))
    }
}

// What comes after the first bar.
pub(crate) fn after_bar(text: &[u8]) -> Option<&[u8]>
    ensures { MatchOption result (after_bar (words_of text.now) ≡ None)
        (λ rest. after_bar (words_of text.now) ≡ Some (words_of rest.now)) }
{
    let mut rest = text;
    while let Some((word, others)) = next_word(rest) {
        if is_bar(word) {
            return Some(others);
        }
        rest = others;
    }
    None
}

fn is_bar(word: &[u8]) -> bool
    ensures { result ≡ is_bar word.now }
{
    word == b"|".as_slice()
}

// The word up to a bar, where there is just one.
pub(crate) fn only_word(text: &[u8]) -> Option<&[u8]>
    ensures { MatchOption result (one_of (part_of (words_of text.now)) ≡ None)
        (λ word. part_of (words_of text.now) ≡ word.now ∷ []) }
{
    let (word, rest) = next_of_part(text)?;
    next_of_part(rest).is_none().then_some(word)
}

// The two words up to a bar, where there are just two.
pub(crate) fn two_words(text: &[u8]) -> Option<(&[u8], &[u8])>
    ensures { MatchOption result (two_of (part_of (words_of text.now)) ≡ None)
        (λ p. part_of (words_of text.now) ≡ p.0.now ∷ p.1.now ∷ []) }
{
    let (first, rest) = next_of_part(text)?;
    let second = only_word(rest)?;
    Some((first, second))
}
