// How the faults of the crates below end a call.
ghost use Rattle.std.specs.Prelude.{◌≡◌};
ghost use Rattle.program_base.specs.Ending.{of_extract, of_fetch, of_image, of_input, of_mount, of_reset, of_words, of_write};
ghost use Rattle.program_base.specs.declared.ending.Ending.TheVariants.{Memory};

use crate::ending::Ending;
use crate::opening::MOST_BYTES;
use command_line::WordsFault;
use host_io::{FetchFault, WriteFault};
use image_file::{ExtractFault, ImageFault};
use line_device::ResetFault;
use recovery::MountFault;
use script_text::InputFault;
use std::alloc::AllocError;

impl From<WordsFault> for Ending {
    ghost from_gives = { λ fault e. e ≡ of_words fault };

    fn from(fault: WordsFault) -> Self {
        match fault {
            WordsFault::Usage => Ending::Usage,
            WordsFault::Memory => Ending::Memory,
        }
    }
}

impl From<AllocError> for Ending {
    ghost from_gives = { λ _ e. e ≡ Memory };

    fn from(_: AllocError) -> Self {
        Ending::Memory
    }
}

impl From<FetchFault> for Ending {
    ghost from_gives = { λ fault e. e ≡ of_fetch fault };

    fn from(fault: FetchFault) -> Self {
        match fault {
            FetchFault::Missing | FetchFault::Failed => Ending::Read,
            FetchFault::TooLong => Ending::Image(MOST_BYTES),
            FetchFault::Memory => Ending::Memory,
        }
    }
}

impl From<ImageFault> for Ending {
    ghost from_gives = { λ fault e. e ≡ of_image fault };

    fn from(fault: ImageFault) -> Self {
        match fault {
            ImageFault::Bad(offset) => Ending::Image(offset),
            ImageFault::Memory => Ending::Memory,
        }
    }
}

impl From<InputFault> for Ending {
    ghost from_gives = { λ fault e. e ≡ of_input fault };

    fn from(fault: InputFault) -> Self {
        match fault {
            InputFault::Failed => Ending::Read,
            InputFault::TooLarge => Ending::Script,
        }
    }
}

impl From<WriteFault> for Ending {
    ghost from_gives = { λ fault e. e ≡ of_write fault };

    fn from(fault: WriteFault) -> Self {
        match fault {
            WriteFault::Failed => Ending::Write,
            WriteFault::Memory => Ending::Memory,
        }
    }
}

impl From<ResetFault> for Ending {
    ghost from_gives = { λ fault e. e ≡ of_reset fault };

    fn from(fault: ResetFault) -> Self {
        match fault {
            ResetFault::Failed => Ending::Device,
            ResetFault::Memory => Ending::Memory,
        }
    }
}

impl From<ExtractFault> for Ending {
    ghost from_gives = { λ fault e. e ≡ of_extract fault };

    fn from(fault: ExtractFault) -> Self {
        match fault {
            ExtractFault::Failed | ExtractFault::PowerLost => Ending::Device,
            ExtractFault::Memory => Ending::Memory,
        }
    }
}

impl From<MountFault> for Ending {
    ghost from_gives = { λ fault e. e ≡ of_mount fault };

    fn from(fault: MountFault) -> Self {
        match fault {
            MountFault::Meta(line) => Ending::Meta(line.0),
            MountFault::Layout(place) => Ending::Layout(place),
            MountFault::Device | MountFault::PowerLost => Ending::Device,
            MountFault::Memory => Ending::Memory,
        }
    }
}
