ghost use Rattle.std.specs.Prelude.{◌≡◌};
ghost use Rattle.block_map.specs.States.{IsBelow, state_of, word_of};

/// Where the bytes of a block are.
#[derive(Clone, Copy, Debug, PartialEq, Eq)]
pub enum BlockState {
    /// Nowhere: it was never written, or is discarded.
    Absent,
    /// Its bytes are lost.
    Scarred,
    /// On that physical block.
    At(u64),
}

pub(crate) fn state_of(word: u64) -> BlockState
    ensures { result ≡ state_of word }
{
    match word {
        0 => BlockState::Absent,
        1 => BlockState::Scarred,
        _ => BlockState::At(word - 2),
    }
}

pub(crate) fn word_of(state: BlockState) -> u64
    requires { IsBelow 4160 state }
    ensures word { result ≡ word_of state }
    ensures inverse { state_of result ≡ state }
{
    match state {
        BlockState::Absent => 0,
        BlockState::Scarred => 1,
        BlockState::At(unit) => unit + 2,
    }
}
