// A loop over a reader of lines: nothing but its contract says what it counts.
ghost use Rattle.std.specs.Prelude.{◌≡◌, IfOk};
ghost use Rattle.script_text.specs.Streaming.{CountsLines, stream_start};

use host_io::{MemSource, Source};
use nvm_base::{Bytes, Words};
use script_text::{InputFault, LineReader, NextLine};
use std::alloc::AllocError;

// How many lines a script has, whatever their length.
fn count_lines<T: Source>(reader: &mut LineReader, source: &mut T) -> Result<u64, InputFault>
    requires { reader.old ≡ stream_start }
    ensures { IfOk result (λ count. CountsLines (T.left source.old) (T.left source.new) count) }
{
    let mut count = 0;
    loop {
        match reader.next(source)? {
            NextLine::Line | NextLine::TooLong => count += 1,
            NextLine::End => return Ok(count),
        }
    }
}

#[test]
fn lines_are_counted(rt: HostRuntime) -> Result<(), AllocError> {
    let alloc = rt.alloc();
    let mut script = Bytes::new(alloc);
    script.repeat(b'a', 70000)?;
    script.extend(b"\nb\n\nc")?;
    let mut source = MemSource::new(script, 7, Words::new(alloc));
    let mut reader = LineReader::new(alloc)?;
    assert_eq!(rt; count_lines(&mut reader, &mut source), Ok(4));
    Ok(())
}
