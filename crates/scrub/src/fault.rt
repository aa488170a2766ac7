ghost use Rattle.std.specs.Prelude.{◌≡◌};

use line_words::Interruption;
use std::alloc::AllocError;

/// Why a place has no line.
#[derive(Clone, Copy, Debug, PartialEq, Eq)]
pub enum PlaceFault {
    /// There is no such place.
    Range,
    /// No storage stands for it.
    Nothing,
}

/// Why a line was not made weak.
#[derive(Clone, Copy, Debug, PartialEq, Eq)]
pub enum WeakenFault {
    /// There is no such byte.
    Range,
    /// No storage stands for it.
    Nothing,
    /// There is no memory.
    Memory,
}

/// Why a line was not cleared.
#[derive(Clone, Copy, Debug, PartialEq, Eq)]
pub enum ScrubFault {
    /// There is no such byte.
    Range,
    /// No storage stands for it.
    Nothing,
    /// Its line is not bad.
    NotPoisoned,
    /// The device failed.
    Device,
    /// The power went.
    PowerLost,
}

impl From<PlaceFault> for WeakenFault {
    ghost use Rattle.scrub.specs.Refusals.{place_says, weaken_says};

    ghost from_gives = { λ place fault. weaken_says fault ≡ place_says place };

    fn from(place: PlaceFault) -> WeakenFault {
        match place {
            PlaceFault::Range => WeakenFault::Range,
            PlaceFault::Nothing => WeakenFault::Nothing,
        }
    }
}

impl From<AllocError> for WeakenFault {
    ghost use Rattle.line_words.specs.Told.Told.{Starves};
    ghost use Rattle.scrub.specs.Refusals.{weaken_says};

    ghost from_gives = { λ _ fault. weaken_says fault ≡ Starves };

    fn from(_fault: AllocError) -> WeakenFault {
        WeakenFault::Memory
    }
}

impl From<PlaceFault> for ScrubFault {
    ghost use Rattle.scrub.specs.Refusals.{place_says, scrub_says};

    ghost from_gives = { λ place fault. scrub_says fault ≡ place_says place };

    fn from(place: PlaceFault) -> ScrubFault {
        match place {
            PlaceFault::Range => ScrubFault::Range,
            PlaceFault::Nothing => ScrubFault::Nothing,
        }
    }
}

impl From<Interruption> for ScrubFault {
    ghost use Rattle.line_words.specs.Told.Told.{Stops};
    ghost use Rattle.scrub.specs.Refusals.{scrub_says};

    ghost from_gives = { λ stop fault. scrub_says fault ≡ Stops stop };

    fn from(stop: Interruption) -> ScrubFault {
        match stop {
            Interruption::Failed => ScrubFault::Device,
            Interruption::PowerLost => ScrubFault::PowerLost,
        }
    }
}
