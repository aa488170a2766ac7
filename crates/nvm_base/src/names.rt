// Names of files.
ghost use Rattle.std.specs.Prelude.{◌≡◌, ◌==◌, IfSome, Some, nat_eq, position, refl, true};
ghost use Rattle.std.specs.List.{list_all};
ghost use Rattle.std.specs.Ordering.{nat_cmp};
ghost use Rattle.std.specs.Cmp.{partial_equiv_from_equiv};
ghost use Rattle.std.specs.Cmp.Lexicographic.{pointwise, slice_cmp, nat_list_eq_equiv, nat_list_cmp_total, texts_po, texts_ties};
ghost use Rattle.nvm_base.specs.Names.{is_name, is_name_byte, name_in, name_of, padded, text_in};

use std::cmp::Ordering;
use std::marker::Model;

/// The most bytes of a name.
pub const NAME: usize = 32;

/// A name: 1 to 32 small letters, digits, `.`, `_` and `-`. Contracts see its bytes, and it is ordered by them.
#[derive(Clone, Copy, Debug)]
pub struct Name {
    // Zeros follow the text.
    bytes: [u8; NAME],
    len: usize,
}

impl Model for Name {
    ghost use Rattle.std.specs.Prelude.{List, ℕ, length, take};
    ghost use Rattle.nvm_base.specs.Names.{KeepsName, padded};

    ghost Value = { List ℕ };

    ghost view = { λ n. take n.len n.bytes };

    ghost invariant = { λ n. KeepsName n.bytes n.len };

    ghost inverse = { λ text. record { bytes = padded text; len = length text } };

    ghost inverse_ok = { λ n keeps i. record { bytes = keeps.zeros i; len = keeps.size i } };
}

impl Name {
    /// The name that a text is.
    pub fn read(text: &[u8]) -> Option<Name>
        ensures value { result ≡ name_of text.now }
        ensures name { IfSome result (λ name. name ≡ text.now) }
    {
        if !is_name(text) {
            return None;
        }
        let mut bytes = [0; NAME];
        bytes[..text.len()].copy_from_slice(text);
        Some(Name {
            bytes,
            len: text.len(),
        })
    }

    /// The name that 32 bytes have, where zeros follow it.
    pub fn from_padded(bytes: [u8; NAME]) -> Option<Name>
        ensures value { result ≡ name_in bytes }
        ensures name { IfSome result (λ name. padded name ≡ bytes) }
    {
        match Name::read(text_in(&bytes)) {
            Some(name) if name.padded() == bytes => Some(name),
            _ => None,
        }
    }

    pub fn bytes(&self) -> &[u8]
        ensures text { result.now ≡ self.now }
        ensures name { is_name self.now ≡ true }
    {
        &self.bytes[..self.len]
    }

    /// Its bytes, and zeros after them.
    pub fn padded(&self) -> [u8; NAME]
        ensures bytes { result ≡ padded self.now }
        ensures read_back { name_in result ≡ Some self.now }
    {
        self.bytes
    }
}

// The bytes before the first zero.
fn text_in(bytes: &[u8]) -> &[u8]
    ensures { result.now ≡ text_in bytes.now }
{
    match first_zero(bytes) {
        Some(len) => &bytes[..len],
        None => bytes,
    }
}

fn first_zero(bytes: &[u8]) -> Option<usize>
    ensures { result ≡ position (λ c. c == 0) bytes.now }
{
    bytes.iter().position(|c| *c == 0)
}

fn is_name(text: &[u8]) -> bool
    ensures { result ≡ is_name text.now }
{
    !text.is_empty() && text.len() <= NAME && has_name_bytes(text)
}

fn has_name_bytes(text: &[u8]) -> bool
    ensures { result ≡ list_all is_name_byte text.now }
{
    text.iter().all(|c| is_name_byte(*c))
}

fn is_name_byte(c: u8) -> bool
    ensures { result ≡ is_name_byte c }
{
    matches!(c, b'a'..=b'z' | b'0'..=b'9' | b'.' | b'_' | b'-')
}

impl PartialEq for Name {
    ghost eq = { pointwise nat_eq };

    ghost laws = { partial_equiv_from_equiv nat_list_eq_equiv };

    fn eq(&self, other: &Self) -> bool {
        self.bytes() == other.bytes()
    }
}

impl Eq for Name {
    ghost laws = { nat_list_eq_equiv };
}

impl PartialOrd for Name {
    ghost partial_cmp = { λ a b. Some (slice_cmp nat_cmp a b) };

    ghost laws = { texts_po };

    fn partial_cmp(&self, other: &Self) -> Option<Ordering> {
        Some(self.cmp(other))
    }
}

impl Ord for Name {
    ghost cmp = { slice_cmp nat_cmp };

    ghost total = { nat_list_cmp_total };

    ghost matches_partial_cmp = { λ a b. refl };

    ghost matches_eq = { texts_ties };

    fn cmp(&self, other: &Self) -> Ordering {
        self.bytes().cmp(other.bytes())
    }
}
