// What is known of blocks without the device.
ghost use Rattle.std.specs.Prelude.{◌≡◌, ◌<◌, IfOk, IfSome, IsNone, IsTrue, IsErr, OnErr, ◌↔◌, ◌≢◌, ◌≤◌, Some, slice_get, slice_index_or, Err, false};
ghost use Rattle.word_tables.specs.Bounds.{IsValid};
ghost use Rattle.word_tables.specs.Layout.{block_line};
ghost use Rattle.block_map.specs.declared.state.BlockState.TheVariants.{Absent};
ghost use Rattle.block_map.specs.States.{IsAt};
ghost use Rattle.block_device.specs.declared.fault.BlockFault.TheVariants.{Range};
ghost use Rattle.block_device.specs.Object.{is_at};

use crate::{BlockFault, Blocks};
use block_map::BlockState;
use nvm_base::LineNo;

impl Blocks {
    /// Whether nothing stopped the last call. Blocks that are not settled have to be mounted again.
    pub fn settled(&self) -> bool
        ensures { result ≡ self.now.settled }
    {
        self.settled
    }

    /// How many blocks there are.
    pub fn count(&self) -> u64
        ensures count { result ≡ self.now.geo.blocks }
        ensures valid { IsValid self.now.geo }
    {
        self.geo.blocks
    }

    /// Whether a block exists, scarred or not.
    pub fn exists(&self, block: u64) -> Result<bool, BlockFault>
        ensures ok { IfOk result (λ there. (block < self.now.geo.blocks)
            × (IsTrue there ↔ (slice_get self.now.map block ≢ Some Absent))) }
        ensures refused { IsErr result → (result ≡ Err Range) × (self.now.geo.blocks ≤ block) }
    {
        if block >= self.geo.blocks {
            return Err(BlockFault::Range);
        }
        Ok(self.map.get(block) != BlockState::Absent)
    }

    /// The first of the eight lines of a block, None where it is absent or scarred.
    pub fn line_of(&self, block: u64) -> Option<LineNo>
        requires { block < self.now.geo.blocks }
        ensures line { IfSome result (λ line. (unit : _) × IsAt self.now.map block unit × (line.0 ≡ block_line self.now.geo unit)) }
        ensures none { IsNone result ↔ (is_at (slice_index_or self.now.map block Absent) ≡ false) }
    {
        match self.map.get(block) {
            BlockState::At(unit) => Some(LineNo(self.geo.block_line(unit))),
            BlockState::Absent | BlockState::Scarred => None,
        }
    }
}
