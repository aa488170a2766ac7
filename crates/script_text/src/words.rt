// Words between blanks.
ghost use Rattle.std.specs.Prelude.{◌≡◌, [], ◌∷◌, Some, None, MatchOption, not, position};
ghost use Rattle.script_text.specs.Parsing.{one_of, two_of};
ghost use Rattle.script_text.specs.Script.{is_blank, words_of};

// The first word and what comes after it.
pub(crate) fn next_word(text: &[u8]) -> Option<(&[u8], &[u8])>
    ensures { MatchOption result (words_of text.now ≡ [])
        (λ p. words_of text.now ≡ p.0.now ∷ words_of p.1.now) }
{
    let start = first_other(text)?;
    let text = &text[start..];
    let end = first_blank(text).unwrap_or(text.len());
    Some(text.split_at(end))
}

fn first_other(text: &[u8]) -> Option<usize>
    ensures { result ≡ position (λ c. not (is_blank c)) text.now }
{
    text.iter().position(|c| !is_blank(*c))
}

fn first_blank(text: &[u8]) -> Option<usize>
    ensures { result ≡ position is_blank text.now }
{
    text.iter().position(|c| is_blank(*c))
}

// The word, where there is just one.
pub(crate) fn only_word(text: &[u8]) -> Option<&[u8]>
    ensures { MatchOption result (one_of (words_of text.now) ≡ None)
        (λ word. words_of text.now ≡ word.now ∷ []) }
{
    let (word, rest) = next_word(text)?;
    next_word(rest).is_none().then_some(word)
}

// The two words, where there are just two.
pub(crate) fn two_words(text: &[u8]) -> Option<(&[u8], &[u8])>
    ensures { MatchOption result (two_of (words_of text.now) ≡ None)
        (λ p. words_of text.now ≡ p.0.now ∷ p.1.now ∷ []) }
{
    let (first, rest) = next_word(text)?;
    let (second, rest) = next_word(rest)?;
    next_word(rest).is_none().then_some((first, second))
}

fn is_blank(c: u8) -> bool
    ensures { result ≡ is_blank c }
{
    c == b' ' || c == b'\t'
}
