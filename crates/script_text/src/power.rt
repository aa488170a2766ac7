// Commands on the power, on failures of the device and on its cache.
ghost use Rattle.std.specs.Prelude.{◌≡◌, option_map};
ghost use Rattle.script_text.specs.Action.{action_of};
ghost use Rattle.script_text.specs.Script.{cut_action, fail_action, power_action, restart_action, words_of};

use crate::Command;
use crate::operands::{read_bare, read_only};
use crate::words::next_word;
use line_device::Choice;

pub(crate) fn read_power(name: &[u8], words: &[u8]) -> Option<Command>
    ensures { option_map action_of result ≡ power_action name.now (words_of words.now) }
{
    if name == b"cut".as_slice() {
        read_cut(words)
    } else if name == b"fail".as_slice() {
        read_fail(words)
    } else if name == b"restart".as_slice() {
        read_restart(words)
    } else if name == b"recover".as_slice() {
        read_bare(Command::Recover, words)
    } else if name == b"evict".as_slice() {
        read_only(words).map(|lines| Command::Evict { lines })
    } else {
        None
    }
}

// Nothing, or `in` and a number.
fn read_cut(words: &[u8]) -> Option<Command>
    ensures { option_map action_of result ≡ cut_action (words_of words.now) }
{
    let Some((word, rest)) = next_word(words) else {
        return Some(Command::Cut);
    };
    if word == b"in".as_slice() {
        read_only(rest).map(|calls| Command::CutIn { calls })
    } else {
        None
    }
}

// `in` and a number.
fn read_fail(words: &[u8]) -> Option<Command>
    ensures { option_map action_of result ≡ fail_action (words_of words.now) }
{
    let (word, rest) = next_word(words)?;
    if word == b"in".as_slice() {
        read_only(rest).map(|calls| Command::FailIn { calls })
    } else {
        None
    }
}

// `none`, `all`, or `seed` and a number.
fn read_restart(words: &[u8]) -> Option<Command>
    ensures { option_map action_of result ≡ restart_action (words_of words.now) }
{
    let (word, rest) = next_word(words)?;
    if word == b"none".as_slice() {
        read_bare(
            Command::Restart {
                choice: Choice::Firsts,
            },
            rest,
        )
    } else if word == b"all".as_slice() {
        read_bare(
            Command::Restart {
                choice: Choice::Lasts,
            },
            rest,
        )
    } else if word == b"seed".as_slice() {
        read_only(rest).map(|seed| Command::Restart {
            choice: Choice::Seed(seed),
        })
    } else {
        None
    }
}
