ghost use Rattle.std.specs.Prelude.{◌≡◌};

use file_pages::PageFault;
use line_words::Interruption;
use nvm_base::LineNo;

/// Why an action on a file was not done, or not wholly.
#[derive(Clone, Copy, Debug, PartialEq, Eq)]
pub enum ActionFault {
    /// The file has not all of these bytes or pages.
    Range,
    /// A range has no bytes, or a span no pages.
    Length,
    /// More than 8 ranges, or more than 16 pages.
    Limit,
    /// Two ranges share a byte.
    Overlap,
    /// Too few units would be left.
    Full,
    /// Lowest line of metadata that is bad.
    Meta(LineNo),
    /// The line at this offset of the file, in bytes, is bad, the lowest one.
    Poison(u64),
    /// The device failed.
    Device,
    /// The power went.
    PowerLost,
}

impl From<Interruption> for ActionFault {
    ghost use Rattle.line_words.specs.Told.Told.{Stops};
    ghost use Rattle.file_actions.specs.Refusals.{action_says};

    ghost from_gives = { λ stop fault. action_says fault ≡ Stops stop };

    fn from(stop: Interruption) -> ActionFault {
        match stop {
            Interruption::Failed => ActionFault::Device,
            Interruption::PowerLost => ActionFault::PowerLost,
        }
    }
}

impl From<PageFault> for ActionFault {
    ghost use Rattle.file_pages.specs.Refusals.{page_says};
    ghost use Rattle.file_actions.specs.Refusals.{action_says, told_of_pages};

    ghost from_gives = { λ call fault. action_says fault ≡ told_of_pages (page_says call) };

    fn from(call: PageFault) -> ActionFault {
        match call {
            PageFault::Range => ActionFault::Range,
            PageFault::Length => ActionFault::Length,
            PageFault::Full => ActionFault::Full,
            PageFault::Meta(line) => ActionFault::Meta(line),
            PageFault::Poison(offset) => ActionFault::Poison(offset),
            PageFault::Device => ActionFault::Device,
            PageFault::PowerLost => ActionFault::PowerLost,
        }
    }
}
