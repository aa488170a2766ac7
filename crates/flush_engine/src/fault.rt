ghost use Rattle.std.specs.Prelude.{◌≡◌};

use line_words::Interruption;

/// Why spans of a file were not made durable, or not wholly. Lines are named by their offsets in the file, in bytes.
#[derive(Clone, Copy, Debug, PartialEq, Eq)]
pub enum FlushFault {
    /// The file has not all of these bytes.
    Range,
    /// A span has no bytes.
    Length,
    /// There are no spans, or more than 8.
    Limit,
    /// Lowest line that is bad. Nothing was done.
    Poison(u64),
    /// Lowest line that was lost as it was made durable. The others are durable.
    Verify(u64),
    /// The device failed.
    Device,
    /// The power went.
    PowerLost,
}

impl From<Interruption> for FlushFault {
    ghost use Rattle.line_words.specs.Told.Told.{Stops};
    ghost use Rattle.flush_engine.specs.Refusals.{flush_says};

    ghost from_gives = { λ stop fault. flush_says fault ≡ Stops stop };

    fn from(stop: Interruption) -> FlushFault {
        match stop {
            Interruption::Failed => FlushFault::Device,
            Interruption::PowerLost => FlushFault::PowerLost,
        }
    }
}
