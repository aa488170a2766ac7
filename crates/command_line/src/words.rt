ghost use Rattle.std.specs.Prelude.{◌≡◌, ◌↔◌, All, IfOk, IsTrue, Err, map};
ghost use Rattle.std.specs.String.{string_bytes};
ghost use Rattle.command_line.specs.Words.{Form as Named, IsForm, IsPlain, form_of};
ghost use Rattle.command_line.specs.declared.fault.WordsFault.TheVariants.{Usage};

use crate::commands::program;
use crate::{Form, WordsFault};
use std::alloc::Global;

/// The form of the command line that the words are.
pub fn read_words<'a>(alloc: Global, words: &'a [String]) -> Result<Form<'a>, WordsFault>
    ensures form { IfOk result (λ form. IsForm (map (λ word. string_bytes word) words.now) (form_of form)) }
    ensures usage { result ≡ Err Usage → (form : Named)
        → IsForm (map (λ word. string_bytes word) words.now) form → ⊥ }
{
    if !are_plain(words) {
        return Err(WordsFault::Usage);
    }
    let matches = program(alloc)?.try_get_matches_from(words)?;
    match Form::of(&matches) {
        Some(form) => Ok(form),
        None => Err(WordsFault::Usage),
    }
}

// Whether no word is empty or begins with a hyphen.
fn are_plain(words: &[String]) -> bool
    ensures { IsTrue result ↔ All (λ word. IsPlain (string_bytes word)) words.now }
{
    words.iter().all(|word| is_plain(word.as_bytes()))
}

fn is_plain(word: &[u8]) -> bool
    ensures { IsTrue result ↔ IsPlain word.now }
{
    word.first().is_some_and(|first| *first != b'-')
}
