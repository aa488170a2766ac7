ghost use Rattle.std.specs.Prelude.{◌≡◌};

use line_words::Interruption;
use nvm_base::LineNo;

/// Why a call on a file's bytes was not done, or not wholly.
#[derive(Clone, Copy, Debug, PartialEq, Eq)]
pub enum PageFault {
    /// The file has no such bytes.
    Range,
    /// No bytes.
    Length,
    /// Too few units would be left.
    Full,
    /// Lowest line of metadata that is bad.
    Meta(LineNo),
    /// The line at this offset of the file, in bytes, is bad.
    Poison(u64),
    /// The device failed.
    Device,
    /// The power went.
    PowerLost,
}

impl From<Interruption> for PageFault {
    ghost use Rattle.line_words.specs.Told.Told.{Stops};
    ghost use Rattle.file_pages.specs.Refusals.{page_says};

    ghost from_gives = { λ stop fault. page_says fault ≡ Stops stop };

    fn from(stop: Interruption) -> PageFault {
        match stop {
            Interruption::Failed => PageFault::Device,
            Interruption::PowerLost => PageFault::PowerLost,
        }
    }
}
