ghost use Rattle.std.specs.Prelude.{◌≡◌, ◌≤◌, ◌++◌, IsOk, OnErr, OnOk};
ghost use Rattle.reply_text.specs.Answer.{IsPrintable, answer_line};
ghost use Rattle.reply_text.specs.Room.{most_of};
ghost use Rattle.machine_host.specs.Responding.{IsWithin, outcome_answer};

use nvm_base::Bytes;
use reply_text::{Reply, print, print_data};
use std::alloc::AllocError;

/// What a command comes to.
#[derive(Debug, Drop)]
pub enum Outcome {
    /// Number of bytes that were read. They stand at the head of the work buffer.
    Read(usize),
    Reply(Reply),
}

impl Outcome {
    /// Appends its line, all of it or nothing.
    pub(crate) fn print(&self, work: &[u8], out: &mut Bytes) -> Result<(), AllocError>
        requires printable { IsPrintable (outcome_answer work.now self.now) }
        requires within { IsWithin work.now self.now }
        ensures ok { OnOk result (out.new.items ≡ out.old.items ++ answer_line (outcome_answer work.now self.now)) }
        ensures err { OnErr result (out.new.items ≡ out.old.items) }
        ensures succeeds { most_of (outcome_answer work.now self.now) ≤ out.old.spare → IsOk result }
    {
        match self {
            Outcome::Read(n) => print_data(&work[..*n], out),
            Outcome::Reply(reply) => print(reply, out),
        }
    }
}
