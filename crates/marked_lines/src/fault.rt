ghost use Rattle.std.specs.Prelude.{◌≡◌};

use std::alloc::AllocError;

/// Why bad lines were not reported.
#[derive(Clone, Copy, Debug, PartialEq, Eq)]
pub enum LinesFault {
    /// The file has no such bytes.
    Range,
    /// No bytes.
    Length,
    /// There is no memory.
    Memory,
}

impl From<AllocError> for LinesFault {
    ghost use Rattle.line_words.specs.Told.Told.{Starves};
    ghost use Rattle.marked_lines.specs.Spans.{lines_says};

    ghost from_gives = { λ _ fault. lines_says fault ≡ Starves };

    fn from(_fault: AllocError) -> LinesFault {
        LinesFault::Memory
    }
}
