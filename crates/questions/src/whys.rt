// Why something is refused, by its word.
ghost use Rattle.std.specs.Prelude.{◌≡◌};
ghost use Rattle.questions.specs.Asked.{place_why_asked, why_asked};

use reply_text::Why;

pub(crate) fn read_why(word: &[u8]) -> Option<Why>
    ensures { result ≡ why_asked word.now }
{
    if word == b"syntax".as_slice() {
        Some(Why::Syntax)
    } else if word == b"toolong".as_slice() {
        Some(Why::TooLong)
    } else if word == b"off".as_slice() {
        Some(Why::Off)
    } else if word == b"on".as_slice() {
        Some(Why::On)
    } else if word == b"recover".as_slice() {
        Some(Why::Recover)
    } else if word == b"missing".as_slice() {
        Some(Why::Missing)
    } else if word == b"exists".as_slice() {
        Some(Why::Exists)
    } else if word == b"handle".as_slice() {
        Some(Why::Handle)
    } else if word == b"mapped".as_slice() {
        Some(Why::Mapped)
    } else {
        read_place_why(word)
    }
}

// One that is about a place, or about room.
fn read_place_why(word: &[u8]) -> Option<Why>
    ensures { result ≡ place_why_asked word.now }
{
    if word == b"range".as_slice() {
        Some(Why::Range)
    } else if word == b"length".as_slice() {
        Some(Why::Length)
    } else if word == b"limit".as_slice() {
        Some(Why::Limit)
    } else if word == b"overlap".as_slice() {
        Some(Why::Overlap)
    } else if word == b"address".as_slice() {
        Some(Why::Address)
    } else if word == b"slots".as_slice() {
        Some(Why::Slots)
    } else if word == b"full".as_slice() {
        Some(Why::Full)
    } else if word == b"nothing".as_slice() {
        Some(Why::Nothing)
    } else if word == b"notpoisoned".as_slice() {
        Some(Why::NotPoisoned)
    } else if word == b"unknown".as_slice() {
        Some(Why::Unknown)
    } else {
        None
    }
}
