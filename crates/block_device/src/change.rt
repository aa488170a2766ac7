ghost use Rattle.std.specs.Prelude.{◌≡◌};
ghost use Rattle.block_map.specs.declared.state.BlockState.TheVariants.{Absent};

use block_map::BlockState;

/// A block and the state that it gets.
#[derive(Clone, Copy, Debug)]
pub struct Change {
    pub block: u64,
    pub state: BlockState,
}

impl Default for Change {
    fn default() -> Self
        ensures { result ≡ record { block = 0; state = Absent } }
    {
        Change {
            block: 0,
            state: BlockState::Absent,
        }
    }
}
