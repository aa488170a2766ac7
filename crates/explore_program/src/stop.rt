// Why a call ends before all questions are answered.
ghost use Rattle.std.specs.Prelude.{◌≡◌, ◌≤◌, IfErr, IfOk};
ghost use Rattle.nvm_base.specs.Counts.{Rose};
ghost use Rattle.host_io.specs.Writing.{WritesAll};
ghost use Rattle.program_base.specs.declared.ending.Ending.TheVariants as endings;
ghost use Rattle.explore_program.specs.declared.stop.Stop.TheVariants.{Early};
ghost use Rattle.explore_program.specs.Stops.{of_explore, of_script, of_write, stop_status, stop_text, untaken_text};

use exploration::{Reason, ScriptFault};
use host_io::{Sink, WriteFault};
use nvm_base::{Bytes, print_number};
use outcome_lists::exploring::ExploreFault;
use program_base::{Ending, plain_line, tell};
use std::alloc::{AllocError, Global};

/// Why a call ends early.
#[derive(Clone, Copy, Debug, PartialEq, Eq)]
pub enum Stop {
    /// The words do not name one image.
    Usage,
    /// The script's line of this number is not taken.
    Script(u64, Reason),
    /// End as of a call of `nvmhost`.
    Early(Ending),
}

impl Stop {
    /// The exit status.
    pub fn status(self) -> u8
        ensures { result ≡ stop_status self }
    {
        match self {
            Stop::Usage => 2,
            Stop::Script(..) => 7,
            Stop::Early(ending) => ending.status(),
        }
    }

    /// Writes the status's line, where it has one.
    pub fn tell<K: Sink>(self, alloc: Global, answers: &mut K) -> Result<(), WriteFault>
        ensures bytes { WritesAll (stop_text self) result (K.written answers.old) (K.written answers.new) }
        ensures later { K.count answers.old ≤ K.count answers.new }
        ensures cause { IfErr result (λ e. e ≡ WriteFault.Failed → Rose (K.count answers.old) (K.count answers.new)) }
    {
        tell(self.line(alloc), answers)
    }

    fn line(self, alloc: Global) -> Result<Bytes, AllocError>
        ensures { IfOk result (λ line. line.items ≡ stop_text self) }
    {
        match self {
            Stop::Usage => plain_line(alloc, b"usage: nvmexplore IN < script"),
            Stop::Script(number, reason) => untaken_line(alloc, number, reason),
            Stop::Early(ending) => ending.line(alloc),
        }
    }
}

// What is said of a line that is not taken.
fn untaken_line(alloc: Global, number: u64, reason: Reason) -> Result<Bytes, AllocError>
    ensures { IfOk result (λ line. line.items ≡ untaken_text number reason) }
{
    let mut line = Bytes::new(alloc);
    line.extend(b"error script ")?;
    print_number(number, &mut line)?;
    line.push(b' ')?;
    reason.print(&mut line)?;
    line.push(b'\n')?;
    Ok(line)
}

impl From<Ending> for Stop {
    ghost from_gives = { λ ending stop. stop ≡ Early ending };

    fn from(ending: Ending) -> Self {
        Stop::Early(ending)
    }
}

impl From<AllocError> for Stop {
    ghost from_gives = { λ _ stop. stop ≡ Early endings.Memory };

    fn from(_: AllocError) -> Self {
        Stop::Early(Ending::Memory)
    }
}

impl From<WriteFault> for Stop {
    ghost from_gives = { λ fault stop. stop ≡ of_write fault };

    fn from(fault: WriteFault) -> Self {
        Stop::Early(Ending::from(fault))
    }
}

impl From<ScriptFault> for Stop {
    ghost from_gives = { λ fault stop. stop ≡ of_script fault };

    fn from(fault: ScriptFault) -> Self {
        match fault {
            ScriptFault::Line(number, reason) => Stop::Script(number, reason),
            ScriptFault::Memory => Stop::Early(Ending::Memory),
        }
    }
}

impl From<ExploreFault> for Stop {
    ghost from_gives = { λ fault stop. stop ≡ of_explore fault };

    fn from(fault: ExploreFault) -> Self {
        match fault {
            ExploreFault::Device => Stop::Early(Ending::Device),
            ExploreFault::Memory => Stop::Early(Ending::Memory),
        }
    }
}
