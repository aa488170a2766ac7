// What a cut may leave of a block.
ghost use Rattle.std.specs.Prelude.{◌<◌, ◌^◌};

use block_sights::HeldBlock;

/// The block of that number, as it is left.
#[derive(Drop)]
pub struct BlockKept {
    pub number: u64,
    pub block: HeldBlock,
    /// Whether the cut could have left it otherwise.
    pub free: bool,
    pub ghost reach: { number < 2 ^ 32 },
}
