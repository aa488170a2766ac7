// The text of a block that is kept.
ghost use Rattle.std.specs.Prelude.{◌≡◌, ◌++◌, OnOk};
ghost use Rattle.witnesses.specs.Texts.{block_text, whole_text};

use crate::block_kept::BlockKept;
use block_sights::HeldBlock;
use cut_places::sights_seen::print_sight;
use nvm_base::{Bytes, print_number};
use std::alloc::AllocError;

/// Appends the block, where it could be otherwise.
pub fn print_block(kept: &BlockKept, out: &mut Bytes) -> Result<(), AllocError>
    ensures { OnOk result (out.new.items ≡ out.old.items ++ block_text kept.now) }
{
    if kept.free {
        print_whole(kept.number, &kept.block, out)?;
    }
    Ok(())
}

fn print_whole(b: u64, block: &HeldBlock, out: &mut Bytes) -> Result<(), AllocError>
    ensures { OnOk result (out.new.items ≡ out.old.items ++ whole_text b block.now) }
{
    out.extend(b" | block ")?;
    print_number(b, out)?;
    print_sight(block, out)
}
