ghost use Rattle.std.specs.Prelude.{◌≡◌};
ghost use Rattle.image_file.specs.declared.fault.ImageFault.TheVariants.{Memory};
ghost use Rattle.image_file.specs.declared.fault.ExtractFault.TheVariants as extracting;

use std::alloc::AllocError;
use thiserror::Error;

/// Why bytes were not read as an image.
#[derive(Clone, Copy, Debug, PartialEq, Eq, Error)]
pub enum ImageFault {
    /// Bytes that are no image. The number is the offset of the first field that is missing, cut short or not allowed, or of the first byte
    /// past the end.
    #[error("no image, from byte {0} on")]
    Bad(u64),
    #[error("no memory for the image")]
    Memory,
}

impl From<AllocError> for ImageFault {
    ghost from_gives = { λ _ e. e ≡ Memory };

    fn from(_e: AllocError) -> ImageFault {
        ImageFault::Memory
    }
}

/// Why a device was not read out.
#[derive(Clone, Copy, Debug, PartialEq, Eq, Error)]
pub enum ExtractFault {
    /// The device failed, and may be used on.
    #[error("the device failed")]
    Failed,
    /// The power went.
    #[error("the power went")]
    PowerLost,
    #[error("no memory for the image")]
    Memory,
}

impl From<AllocError> for ExtractFault {
    ghost from_gives = { λ _ e. e ≡ extracting.Memory };

    fn from(_e: AllocError) -> ExtractFault {
        ExtractFault::Memory
    }
}
