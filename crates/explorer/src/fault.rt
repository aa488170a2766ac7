use std::alloc::AllocError;

/// Why a program was not explored to its end.
#[derive(Clone, Copy, Debug, PartialEq, Eq)]
pub enum ExploreFault {
    /// A call of the device failed, or its power went.
    Device,
    Memory,
}

impl From<AllocError> for ExploreFault {
    ghost use Rattle.std.specs.Prelude.{◌≡◌};
    ghost use Rattle.explorer.specs.declared.fault.ExploreFault.TheVariants.{Memory};

    ghost from_gives = { λ _ fault. fault ≡ Memory };

    fn from(_: AllocError) -> Self {
        ExploreFault::Memory
    }
}
