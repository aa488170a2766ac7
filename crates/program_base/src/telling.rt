// The lines that are written beside the replies.
ghost use Rattle.std.specs.Prelude.{◌≡◌, ◌≤◌, IfErr, IfOk, MatchResult, Err};
ghost use Rattle.nvm_base.specs.Counts.{Rose};
ghost use Rattle.host_io.specs.Writing.{WritesAll};
ghost use Rattle.program_base.specs.Ending.{line as terminated, numbered_line};

use host_io::{Sink, WriteFault, write_all};
use nvm_base::{Bytes, print_number};
use std::alloc::{AllocError, Global};

/// Writes a line, if there was memory for it.
pub fn tell<K: Sink>(line: Result<Bytes, AllocError>, replies: &mut K) -> Result<(), WriteFault>
    ensures bytes { MatchResult line (λ text. WritesAll text.items result (K.written replies.old) (K.written replies.new))
        (λ _. (result ≡ Err WriteFault.Memory) × (K.written replies.new ≡ K.written replies.old)) }
    ensures later { K.count replies.old ≤ K.count replies.new }
    ensures cause { IfErr result (λ e. e ≡ WriteFault.Failed → Rose (K.count replies.old) (K.count replies.new)) }
{
    match line {
        Ok(text) => write_all(replies, text.as_slice()),
        Err(_) => Err(WriteFault::Memory),
    }
}

/// A text as a line.
pub fn plain_line(alloc: Global, text: &[u8]) -> Result<Bytes, AllocError>
    ensures { IfOk result (λ line. line.items ≡ terminated text.now) }
{
    let mut line = Bytes::new(alloc);
    line.extend(text)?;
    line.push(b'\n')?;
    Ok(line)
}

/// A text and a number as a line.
pub fn numbered(alloc: Global, text: &[u8], number: u64) -> Result<Bytes, AllocError>
    ensures { IfOk result (λ line. line.items ≡ numbered_line text.now number) }
{
    let mut line = Bytes::new(alloc);
    line.extend(text)?;
    print_number(number, &mut line)?;
    line.push(b'\n')?;
    Ok(line)
}
