// Lines of a text.
ghost use Rattle.std.specs.Prelude.{◌≡◌, ◌<◌, [], ◌∷◌, MatchOption, length};
ghost use Rattle.script_text.specs.Script.{lines_of};

use memchr::memchr;

// The first line and what comes after it.
pub(crate) fn next_line(text: &[u8]) -> Option<(&[u8], &[u8])>
    ensures { MatchOption result (lines_of text.now ≡ [])
        (λ p. (lines_of text.now ≡ p.0.now ∷ lines_of p.1.now) × (length p.1.now < length text.now)) }
{
    if text.is_empty() {
        return None;
    }
    match memchr(b'\n', text) {
        Some(end) => Some((&text[..end], &text[end + 1..])),
        None => Some(text.split_at(text.len())),
    }
}
