ghost use Rattle.std.specs.Prelude.{◌≡◌};

use file_pages::PageFault;
use std::alloc::AllocError;

/// Why a mapping was not made, or not ended.
#[derive(Clone, Copy, Debug, PartialEq, Eq)]
pub enum MapFault {
    /// There is no such file.
    Missing,
    /// No mapping has that handle.
    Handle,
    /// The file has no such bytes.
    Range,
    /// No bytes.
    Length,
    /// There are 256 mappings, or no more handles.
    Limit,
    /// The line at this offset of the file, in bytes, is bad, the lowest that a copy would have.
    Poison(u64),
    /// The device failed.
    Device,
    /// The power went.
    PowerLost,
    /// There is no memory.
    Memory,
}

// A load is refused neither for room nor for metadata.
impl From<PageFault> for MapFault {
    ghost use Rattle.file_pages.specs.Refusals.{page_says};
    ghost use Rattle.mappings.specs.Refusals.{map_says, told_of_load};

    ghost from_gives = { λ load fault. map_says fault ≡ told_of_load (page_says load) };

    fn from(load: PageFault) -> MapFault {
        match load {
            PageFault::Range => MapFault::Range,
            PageFault::Length => MapFault::Length,
            PageFault::Full => MapFault::Limit,
            PageFault::Meta(_) => MapFault::Limit,
            PageFault::Poison(offset) => MapFault::Poison(offset),
            PageFault::Device => MapFault::Device,
            PageFault::PowerLost => MapFault::PowerLost,
        }
    }
}

impl From<AllocError> for MapFault {
    ghost use Rattle.line_words.specs.Told.Told.{Starves};
    ghost use Rattle.mappings.specs.Refusals.{map_says};

    ghost from_gives = { λ _ fault. map_says fault ≡ Starves };

    fn from(_fault: AllocError) -> MapFault {
        MapFault::Memory
    }
}
