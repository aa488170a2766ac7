// Draws of a linear congruential generator.
ghost use Rattle.std.specs.Prelude.{◌≡◌};
ghost use Rattle.workload.specs.Lines.{drawn, stepped};

/// Where the draws have come to.
#[derive(Clone, Copy, Debug)]
pub(crate) struct Draws {
    pub(crate) state: u64,
}

impl Draws {
    // The low bits of such a state repeat soon, so a draw gives the high ones.
    pub(crate) fn draw(&mut self) -> u64
        ensures state { self.new.state ≡ stepped self.old.state }
        ensures value { result ≡ drawn self.new.state }
    {
        self.state = self
            .state
            .wrapping_mul(6364136223846793005)
            .wrapping_add(1442695040888963407);
        self.state >> 33
    }
}
