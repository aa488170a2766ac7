// Flushes of a mapping's spans.
ghost use Rattle.std.specs.Prelude.{◌≡◌, IfErr};
ghost use Rattle.script_text.specs.Action.{action_of};
ghost use Rattle.script_text.specs.Action.Action.{DeepFlush, Flush, FlushVerify};
ghost use Rattle.script_text.specs.Operands.{numbered_action, spans_action};
ghost use Rattle.script_text.specs.Parsing.{IsLong, ParsesAs};
ghost use Rattle.script_text.specs.Script.{flushing_action, words_of};

use crate::plain::read_plain;
use crate::spans::read_spans_of;
use crate::{Command, LineFault};
use std::alloc::Global;

// A flush, or a command that brings no list.
pub(crate) fn read_flushing(alloc: Global, name: &[u8], words: &[u8]) -> Result<Command, LineFault>
    ensures command { ParsesAs action_of (flushing_action name.now (words_of words.now)) result }
    ensures memory { IfErr result (λ e. e ≡ LineFault.Memory → IsLong name.now) }
{
    if name == b"flush".as_slice() {
        read_flush(alloc, words)
    } else if name == b"flushv".as_slice() {
        read_flush_verify(alloc, words)
    } else if name == b"deepflush".as_slice() {
        read_deep_flush(alloc, words)
    } else {
        read_plain(name, words).ok_or(LineFault::Syntax)
    }
}

fn read_flush(alloc: Global, words: &[u8]) -> Result<Command, LineFault>
    ensures { ParsesAs action_of (numbered_action (λ handle. spans_action (Flush handle)) (words_of words.now)) result }
{
    match read_spans_of(alloc, words) {
        Ok((handle, spans)) => Ok(Command::Flush { handle, spans }),
        Err(fault) => Err(fault),
    }
}

fn read_flush_verify(alloc: Global, words: &[u8]) -> Result<Command, LineFault>
    ensures { ParsesAs action_of (numbered_action (λ handle. spans_action (FlushVerify handle)) (words_of words.now)) result }
{
    match read_spans_of(alloc, words) {
        Ok((handle, spans)) => Ok(Command::FlushVerify { handle, spans }),
        Err(fault) => Err(fault),
    }
}

fn read_deep_flush(alloc: Global, words: &[u8]) -> Result<Command, LineFault>
    ensures { ParsesAs action_of (numbered_action (λ handle. spans_action (DeepFlush handle)) (words_of words.now)) result }
{
    match read_spans_of(alloc, words) {
        Ok((handle, spans)) => Ok(Command::DeepFlush { handle, spans }),
        Err(fault) => Err(fault),
    }
}
