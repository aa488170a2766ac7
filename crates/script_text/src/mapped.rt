// Commands on mappings and on events.
ghost use Rattle.std.specs.Prelude.{◌≡◌, IfErr, option_map};
ghost use Rattle.nvm_base.specs.declared.files.Kind.{Kind as Shows};
ghost use Rattle.script_text.specs.Action.{Action, action_of};
ghost use Rattle.script_text.specs.Action.Action.{Store};
ghost use Rattle.script_text.specs.Operands.{data_action, kind_action, named_action, numbered_action};
ghost use Rattle.script_text.specs.Parsing.{IsLong, ParsesAs};
ghost use Rattle.script_text.specs.Script.{map_action, mapped_action, storing_action, words_of};

use crate::flushing::read_flushing;
use crate::media::read_media;
use crate::operands::{read_bare, read_data, read_only, read_shown};
use crate::words::{next_word, only_word};
use crate::{Command, LineFault};
use nvm_base::{Kind, Name, Span, read_number};
use std::alloc::Global;

// A store to a mapping, or one further.
pub(crate) fn read_storing(alloc: Global, name: &[u8], words: &[u8]) -> Result<Command, LineFault>
    ensures command { ParsesAs action_of (storing_action name.now (words_of words.now)) result }
    ensures memory { IfErr result (λ e. e ≡ LineFault.Memory → IsLong name.now) }
{
    if name == b"store".as_slice() {
        read_mapped_store(alloc, words)
    } else {
        read_flushing(alloc, name, words)
    }
}

// A handle, a number and DATA.
fn read_mapped_store(alloc: Global, words: &[u8]) -> Result<Command, LineFault>
    ensures { ParsesAs action_of (numbered_action (λ handle. data_action (Store handle)) (words_of words.now)) result }
{
    let Some((handle, rest)) = next_word(words) else {
        return Err(LineFault::Syntax);
    };
    let Some(handle) = read_number(handle) else {
        return Err(LineFault::Syntax);
    };
    match read_data(alloc, rest) {
        Ok((offset, bytes)) => Ok(Command::Store {
            handle,
            offset,
            bytes,
        }),
        Err(fault) => Err(fault),
    }
}

// One of these that brings no list, or one further.
pub(crate) fn read_mapped(name: &[u8], words: &[u8]) -> Option<Command>
    ensures { option_map action_of result ≡ mapped_action name.now (words_of words.now) }
{
    if name == b"map".as_slice() {
        read_map(words)
    } else if name == b"unmap".as_slice() {
        read_only(words).map(|handle| Command::Unmap { handle })
    } else if name == b"load".as_slice() {
        read_shown(words).map(|(handle, offset, len)| Command::Load {
            handle,
            offset,
            len,
        })
    } else if name == b"sync".as_slice() {
        read_shown(words).map(|(handle, offset, len)| Command::Sync {
            handle,
            offset,
            len,
        })
    } else if name == b"event".as_slice() {
        read_bare(Command::NextEvent, words)
    } else {
        read_media(name, words)
    }
}

// A name, two numbers and a kind.
fn read_map(words: &[u8]) -> Option<Command>
    ensures { option_map action_of result ≡ named_action map_action (words_of words.now) }
{
    let (name, rest) = next_word(words)?;
    let name = Name::read(name)?;
    let (start, rest) = next_word(rest)?;
    let start = read_number(start)?;
    let (len, rest) = next_word(rest)?;
    let len = read_number(len)?;
    let kind = read_kind(rest)?;
    let span = Span { start, len };
    Some(Command::Map { name, span, kind })
}

// `shared` or `private`, where it stands alone.
fn read_kind(words: &[u8]) -> Option<Kind>
    ensures { (make : Shows → Action) → option_map make result ≡ kind_action make (words_of words.now) }
{
    let word = only_word(words)?;
    if word == b"shared".as_slice() {
        Some(Kind::Shared)
    } else if word == b"private".as_slice() {
        Some(Kind::Private)
    } else {
        None
    }
}
