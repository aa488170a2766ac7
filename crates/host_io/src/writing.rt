// Writing all of some bytes.
ghost use Rattle.std.specs.Prelude.{◌≡◌, ◌≤◌, IfErr};
ghost use Rattle.nvm_base.specs.Counts.{Rose};
ghost use Rattle.host_io.specs.Writing.{WritesAll};

use crate::{Sink, WriteFault};

/// Writes all of the bytes, in as many calls as the sink takes. At an error some of them may be written.
pub fn write_all<K: Sink>(sink: &mut K, bytes: &[u8]) -> Result<(), WriteFault>
    ensures bytes { WritesAll bytes.now result (K.written sink.old) (K.written sink.new) }
    ensures later { K.count sink.old ≤ K.count sink.new }
    ensures cause { IfErr result (λ e. e ≡ WriteFault.Failed → Rose (K.count sink.old) (K.count sink.new)) }
{
    let mut at = 0;
    while at < bytes.len() {
        at += sink.write(&bytes[at..])?;
    }
    Ok(())
}
