use crate::WriteFault;
use nvm_base::Bytes;
use thiserror::Error;

/// What was asked of images and what failed. No count falls, and each stands still at its last value.
#[derive(Clone, Copy, Debug, PartialEq, Eq)]
pub struct ImageCounts {
    pub fetch_faults: u64,
    pub replace_faults: u64,
    /// Calls of `fetch`.
    pub fetches: u64,
    /// Calls of `replace`.
    pub replaces: u64,
}

/// Why an image was not fetched.
#[derive(Clone, Copy, Debug, PartialEq, Eq, Error)]
pub enum FetchFault {
    #[error("no image has this name")]
    Missing,
    #[error("the image could not be read")]
    Failed,
    #[error("the image is too long")]
    TooLong,
    #[error("no memory for the image")]
    Memory,
}

/// Where images are kept, by name.
pub trait Images {
    ghost use Rattle.std.specs.Prelude.{◌≡◌, ◌≢◌, Option, Some, IfSome, IfErr, OnOk, ⊤};
    ghost use Rattle.host_io.specs.declared.images.ImageCounts.{ImageCounts};
    ghost use Rattle.host_io.specs.Images.{Held, Fetches, KeepsHeld, CountsFetch, CountsReplace};

    /// The bytes held under each name, where they are reported.
    ghost held: { Self → Option Held };

    ghost count: { Self → ImageCounts };

    /// The bytes held under the name, if they are at most that many.
    fn fetch(&mut self, name: &str, most: u64) -> Result<Bytes, FetchFault>
        ensures answer { Fetches (held self.old) name.now most result }
        ensures held { KeepsHeld (λ _. ⊤) (held self.old) (held self.new) }
        ensures counts { CountsFetch (result ≡ Err FetchFault.Failed) (count self.old) (count self.new) };

    /// Holds the bytes under the name, in place of what was there.
    fn replace(&mut self, name: &str, bytes: &[u8]) -> Result<(), WriteFault>
        ensures ok { OnOk result (IfSome (held self.new) (λ look. look name.now ≡ Some bytes.now)) }
        ensures memory { IfErr result
            (λ e. e ≡ WriteFault.Memory → KeepsHeld (λ _. ⊤) (held self.old) (held self.new)) }
        ensures others { KeepsHeld (λ other. other ≢ name.now) (held self.old) (held self.new) }
        ensures counts { CountsReplace (result ≡ Err WriteFault.Failed) (count self.old) (count self.new) };

    fn counts(&self) -> ImageCounts
        ensures { result ≡ count self.now };
}
