// What a summary of lines and their replies counts.
ghost use Rattle.std.specs.Prelude.{◌≡◌};
ghost use Rattle.workload.specs.Summary.{is_ok, raised_if};

use crate::totals::told;
use nvm_base::raise;

/// How many commands there were, how many of them were done, read or cut the power, and the sum of the bytes read.
#[derive(Clone, Copy, Debug, Default, PartialEq, Eq)]
pub struct Summary {
    pub commands: u64,
    pub oks: u64,
    pub reads: u64,
    pub cuts: u64,
    pub sum: u64,
}

impl Summary {
    ghost use Rattle.workload.specs.Summary.{added};

    /// Counts a line and its reply.
    pub fn add(&mut self, line: &[u8], reply: &[u8])
        ensures { self.new ≡ added self.old line.now reply.now }
    {
        raise(&mut self.commands);
        raise_if(is_ok(reply), &mut self.oks);
        raise_if(reply.strip_prefix(b"data ").is_some(), &mut self.reads);
        raise_if(line == b"cut".as_slice(), &mut self.cuts);
        self.sum = self.sum.wrapping_add(told(reply));
    }
}

fn raise_if(holds: bool, count: &mut u64)
    ensures { count.new ≡ raised_if holds count.old }
{
    if holds {
        raise(count);
    }
}

fn is_ok(reply: &[u8]) -> bool
    ensures { result ≡ is_ok reply.now }
{
    reply == b"ok".as_slice() || reply.strip_prefix(b"ok ").is_some()
}
