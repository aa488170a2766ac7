// Performing a script line by line, and writing the replies.
ghost use Rattle.std.specs.Prelude.{◌≡◌, ◌≤◌, ◌<◌, ◌++◌, [], true, IfErr, Ok, OnOk, OnErr, MatchResult};
ghost use Rattle.nvm_base.specs.Counts.{Rose};
ghost use Rattle.host_io.specs.Writing.{AppendsSome};
ghost use Rattle.script_text.specs.Script.{line_input};
ghost use Rattle.script_text.specs.Streaming.{IsUnbroken, ahead};
ghost use Rattle.machine_host.specs.Machine.{Machine};
ghost use Rattle.machine_host.specs.Stands.{HostServes, Stands};
ghost use Rattle.host_program.specs.Running.{AnswersNext, IsBroken, Performs, LineGoes, Flushes};
ghost use Rattle.host_program.specs.Whole.{GoesUnanswered};

use host_io::{Sink, Source, WriteFault, write_all};
use line_device::LineDevice;
use machine_host::Host;
use nvm_base::Bytes;
use program_base::Ending;
use reply_text::{Reply, Why, print};
use script_text::{LineFault, LineReader, NextLine, parse};
use std::alloc::{AllocError, Global};

/// Replies are written once they have this number of bytes together.
const PIECE: u64 = 65536;

/// Performs a script as its lines come, and writes its replies.
pub fn run_script<D: LineDevice, T: Source, K: Sink>(
    alloc: Global,
    host: &mut Host,
    device: &mut D,
    script: &mut T,
    replies: &mut K,
) -> Result<(), Ending>
    requires { HostServes host.old (D.state device.old) }
    ensures performs { Performs host.old host.new result (T.left script.old) (T.left script.new) (K.written replies.old) (K.written replies.new)
        (D.state device.old) (D.state device.new) }
    ensures serves { HostServes host.new (D.state device.new) }
    ensures cause { IfErr result (λ e. IsBroken e (T.count script.old) (T.count script.new) (K.count replies.old) (K.count replies.new)) }
{
    let mut reader = LineReader::new(alloc)?;
    let mut out = Bytes::new(alloc);
    while answer_next(alloc, host, device, &mut reader, script, &mut out)? {
        write_waiting(&reader, &mut out, replies)?;
    }
    Ok(())
}

// Performs the next line, and says whether there was one. Its reply is appended, if it has one.
fn answer_next<D: LineDevice, T: Source>(
    alloc: Global,
    host: &mut Host,
    device: &mut D,
    reader: &mut LineReader,
    script: &mut T,
    out: &mut Bytes,
) -> Result<bool, Ending>
    requires { HostServes host.old (D.state device.old) }
    ensures answers { AnswersNext reader.old reader.new (T.left script.old) (T.left script.new) result host.old host.new
        out.old.items out.new.items (D.state device.old) (D.state device.new) }
    ensures serves { HostServes host.new (D.state device.new) }
    ensures fewer { result ≡ Ok true → ahead reader.new < ahead reader.old }
    ensures later { T.count script.old ≤ T.count script.new }
    ensures cause { IfErr result (λ e. e ≡ Ending.Read → Rose (T.count script.old) (T.count script.new)) }
{
    match reader.next(script)? {
        NextLine::Line => perform_line(alloc, host, device, reader.line(), out)?,
        NextLine::TooLong => print(&Reply::Refused(Why::TooLong), out)?,
        NextLine::End => return Ok(false),
    }
    Ok(true)
}

/// Performs one line, and appends its reply if it has one.
pub fn perform_line<D: LineDevice>(
    alloc: Global,
    host: &mut Host,
    device: &mut D,
    line: &[u8],
    out: &mut Bytes,
) -> Result<(), AllocError>
    requires { HostServes host.old (D.state device.old) }
    ensures goes { OnOk result ((h : Machine) → Stands host.old (D.state device.old) h
        → LineGoes h (line_input line.now) out.old.items out.new.items host.new (D.state device.old) (D.state device.new)) }
    ensures err { OnErr result (out.new.items ≡ out.old.items) }
    ensures unanswered { OnErr result (GoesUnanswered (D.state device.old).panel (D.state device.new).panel) }
    ensures serves { HostServes host.new (D.state device.new) }
{
    match parse(alloc, line) {
        Ok(None) => Ok(()),
        Ok(Some(command)) => host.step(device, &command, out),
        Err(LineFault::Syntax) => print(&Reply::Refused(Why::Syntax), out),
        Err(LineFault::TooLong) => print(&Reply::Refused(Why::TooLong), out),
        Err(LineFault::Memory) => Err(AllocError),
    }
}

// Writes the replies that wait, if they are many, or if the source is asked before the next line is there.
fn write_waiting<K: Sink>(
    reader: &LineReader,
    out: &mut Bytes,
    replies: &mut K,
) -> Result<(), WriteFault>
    ensures bytes { MatchResult result (λ _. Flushes out.old.items out.new.items (K.written replies.old) (K.written replies.new))
        (λ _. AppendsSome out.old.items (K.written replies.old) (K.written replies.new)) }
    ensures none { OnOk result (IsUnbroken reader.now.waiting → out.new.items ≡ []) }
    ensures later { K.count replies.old ≤ K.count replies.new }
    ensures cause { IfErr result (λ e. e ≡ WriteFault.Failed → Rose (K.count replies.old) (K.count replies.new)) }
{
    if reader.has_line() && out.len() < PIECE {
        return Ok(());
    }
    write_all(replies, out.as_slice())?;
    out.clear();
    Ok(())
}
