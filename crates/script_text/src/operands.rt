// What stands behind a command's name.
ghost use Rattle.std.specs.Prelude.{◌≡◌, ℕ, List, option_map};
ghost use Rattle.script_text.specs.Action.{Action, action_of};
ghost use Rattle.script_text.specs.Operands.{bare_action, data_action, name_action, named_action, names_action, number_action, numbered_action, sized_action, span_action, word_action};
ghost use Rattle.script_text.specs.Parsing.{ParsesAs};
ghost use Rattle.script_text.specs.Script.{words_of};

use crate::words::{next_word, only_word, two_words};
use crate::{Command, LineFault};
use nvm_base::{Bytes, MOST, Name, TextFault, read_bytes, read_number};
use std::alloc::Global;

// A number and DATA.
pub(crate) fn read_data(alloc: Global, words: &[u8]) -> Result<(u64, Bytes), LineFault>
    ensures { (make : ℕ → List ℕ → Action) → ParsesAs (λ p. make p.0 p.1.items) (data_action make (words_of words.now)) result }
{
    let Some((number, text)) = two_words(words) else {
        return Err(LineFault::Syntax);
    };
    let Some(number) = read_number(number) else {
        return Err(LineFault::Syntax);
    };
    match read_bytes(alloc, text, MOST) {
        Ok(bytes) => Ok((number, bytes)),
        Err(TextFault::Bad | TextFault::TooLong) => Err(LineFault::Syntax),
        Err(TextFault::Memory) => Err(LineFault::Memory),
    }
}

// A word of any bytes, where it stands alone.
pub(crate) fn read_word(alloc: Global, words: &[u8]) -> Result<Bytes, LineFault>
    ensures { (make : List ℕ → Action) → ParsesAs (λ word. make word.items) (word_action make (words_of words.now)) result }
{
    let Some(text) = only_word(words) else {
        return Err(LineFault::Syntax);
    };
    let mut word = Bytes::new(alloc);
    match word.extend(text) {
        Ok(()) => Ok(word),
        Err(_) => Err(LineFault::Memory),
    }
}

// Two numbers.
pub(crate) fn read_span(words: &[u8]) -> Option<(u64, u64)>
    ensures { (make : ℕ → ℕ → Action)
        → option_map (λ p. make p.0 p.1) result ≡ span_action make (words_of words.now) }
{
    let (start, len) = two_words(words)?;
    Some((read_number(start)?, read_number(len)?))
}

// The command, where no word is left.
pub(crate) fn read_bare(command: Command, words: &[u8]) -> Option<Command>
    ensures { option_map action_of result ≡ bare_action (action_of command) (words_of words.now) }
{
    next_word(words).is_none().then_some(command)
}

// The number, where it stands alone.
pub(crate) fn read_only(words: &[u8]) -> Option<u64>
    ensures { (make : ℕ → Action) → option_map make result ≡ number_action make (words_of words.now) }
{
    read_number(only_word(words)?)
}

// A name and a number.
pub(crate) fn read_sized(words: &[u8]) -> Option<(Name, u64)>
    ensures { (make : List ℕ → ℕ → Action)
        → option_map (λ p. make p.0 p.1) result ≡ sized_action make (words_of words.now) }
{
    let (name, pages) = two_words(words)?;
    Some((Name::read(name)?, read_number(pages)?))
}

// The name, where it stands alone.
pub(crate) fn read_name(words: &[u8]) -> Option<Name>
    ensures { (make : List ℕ → Action) → option_map make result ≡ name_action make (words_of words.now) }
{
    Name::read(only_word(words)?)
}

// Two names.
pub(crate) fn read_names(words: &[u8]) -> Option<(Name, Name)>
    ensures { (make : List ℕ → List ℕ → Action)
        → option_map (λ p. make p.0 p.1) result ≡ names_action make (words_of words.now) }
{
    let (name, to) = two_words(words)?;
    Some((Name::read(name)?, Name::read(to)?))
}

// A name and two numbers.
pub(crate) fn read_part(words: &[u8]) -> Option<(Name, u64, u64)>
    ensures { (make : List ℕ → ℕ → ℕ → Action)
        → option_map (λ p. make p.0 p.1 p.2) result ≡ named_action (λ file. span_action (make file)) (words_of words.now) }
{
    let (name, rest) = next_word(words)?;
    let name = Name::read(name)?;
    let (offset, len) = read_span(rest)?;
    Some((name, offset, len))
}

// A handle and two numbers.
pub(crate) fn read_shown(words: &[u8]) -> Option<(u64, u64, u64)>
    ensures { (make : ℕ → ℕ → ℕ → Action)
        → option_map (λ p. make p.0 p.1 p.2) result ≡ numbered_action (λ handle. span_action (make handle)) (words_of words.now) }
{
    let (handle, rest) = next_word(words)?;
    let handle = read_number(handle)?;
    let (offset, len) = read_span(rest)?;
    Some((handle, offset, len))
}
