// What is said of a line that is not taken.
ghost use Rattle.std.specs.Prelude.{◌≡◌, ◌++◌, OnOk};
ghost use Rattle.exploration.specs.Telling.{numbered_text, reason_text, replies_text};

use crate::reason::Reason;
use nvm_base::{Bytes, print_number};
use std::alloc::AllocError;

impl Reason {
    /// Adds its text.
    pub fn print(self, text: &mut Bytes) -> Result<(), AllocError>
        ensures { OnOk result (text.new.items ≡ text.old.items ++ reason_text self) }
    {
        match self {
            Reason::TooLong => text.extend(b"toolong"),
            Reason::Spelling => text.extend(b"spelling"),
            Reason::Command => text.extend(b"command"),
            Reason::NotInAProgram => text.extend(b"not-in-a-program"),
            Reason::NotInALook => text.extend(b"not-in-a-look"),
            Reason::BeforeTheLook => text.extend(b"before-the-look"),
            Reason::ReadAfterAQuestion => text.extend(b"read-after-a-question"),
            Reason::Again => text.extend(b"again"),
            Reason::NoCommand => text.extend(b"no-command"),
            Reason::Reply(k) => print_numbered(k, b"", text),
            Reason::Replies { given, reads } => print_replies(given, reads, text),
            Reason::Kind(k) => print_numbered(k, b" kind", text),
            Reason::Length(k) => print_numbered(k, b" length", text),
            Reason::Place(k) => print_numbered(k, b" place", text),
            Reason::Refusal(k) => print_numbered(k, b" refusal", text),
            Reason::NothingAsked => text.extend(b"nothing-asked"),
        }
    }
}

// The reply of that number, and what is wrong with it.
fn print_numbered(k: u64, what: &[u8], text: &mut Bytes) -> Result<(), AllocError>
    ensures { OnOk result (text.new.items ≡ text.old.items ++ numbered_text k what.now) }
{
    text.extend(b"reply ")?;
    print_number(k, text)?;
    text.extend(what)
}

fn print_replies(given: u64, reads: u64, text: &mut Bytes) -> Result<(), AllocError>
    ensures { OnOk result (text.new.items ≡ text.old.items ++ replies_text given reads) }
{
    text.extend(b"replies ")?;
    print_number(given, text)?;
    text.extend(b" of ")?;
    print_number(reads, text)
}
