// The whole text of a script.
ghost use Rattle.std.specs.Prelude.{MatchResult, ◌<◌, ◌≤◌, length};
ghost use Rattle.std.specs.Io.KnownBytes.{Consumes, IsAtEnd};
ghost use Rattle.explore_program.specs.Calls.{ReadsAll};

use host_io::Source;
use nvm_base::Bytes;
use program_base::Ending;
use std::alloc::Global;

/// A script has fewer bytes than this.
pub const MOST: u64 = 1_073_741_824;

/// The bytes that are taken of the source at a time.
const PIECE: usize = 65536;

/// All that the source gives.
pub fn read_all<T: Source>(alloc: Global, script: &mut T) -> Result<Bytes, Ending>
    ensures { ReadsAll result (T.left script.old) (T.left script.new) (T.count script.old) (T.count script.new) }
{
    let mut text = Bytes::new(alloc);
    let mut piece = vec![in alloc; 0u8; PIECE]?;
    while text.len() < MOST {
        let Ok(taken) = script.read(&mut piece) else {
            return Err(Ending::Read);
        };
        if taken == 0 {
            return Ok(text);
        }
        text.extend(&piece[..taken])?;
    }
    Err(Ending::Script)
}
