// What a command of the program came to, as far as an exploration asks.
ghost use Rattle.std.specs.Prelude.{◌≡◌, ℕ, List};
ghost use Rattle.reply_text.specs.Answer.{answer_of};
ghost use Rattle.machine_host.specs.Responding.{outcome_answer};
ghost use Rattle.explorer.specs.Coming.{came_of};

use machine_host::Outcome;
use reply_text::Reply;

/// What an answer means for the command.
#[derive(Clone, Copy, Debug, PartialEq, Eq)]
pub enum Came {
    /// Command that was done.
    Done,
    /// Command that was refused, and changed nothing.
    Refused,
    /// The device stopped it.
    Stopped,
}

impl Came {
    pub fn of(outcome: &Outcome) -> Came
        ensures { (work : List ℕ) → result ≡ came_of (outcome_answer work outcome.now) }
    {
        match outcome {
            Outcome::Read(_) => Came::Done,
            Outcome::Reply(reply) => told_by(reply),
        }
    }
}

fn told_by(reply: &Reply) -> Came
    ensures { result ≡ came_of (answer_of reply.now) }
{
    match reply {
        Reply::Done
        | Reply::DoneBad(_)
        | Reply::Ranges(_)
        | Reply::Files(_)
        | Reply::Yes
        | Reply::No
        | Reply::Handle(_)
        | Reply::Happened(_)
        | Reply::NoEvent
        | Reply::BadLines(_)
        | Reply::Attribute(_)
        | Reply::VerifyFile(_, _) => Came::Done,
        Reply::Scarred(_)
        | Reply::PoisonBlock(_, _)
        | Reply::PoisonVolume(_)
        | Reply::PoisonFile(_, _)
        | Reply::Refused(_)
        | Reply::RefusedMeta(_) => Came::Refused,
        Reply::DeviceFailed | Reply::PowerLost | Reply::Stopped(_) => Came::Stopped,
    }
}
