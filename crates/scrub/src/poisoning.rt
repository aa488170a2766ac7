// Media errors that take a line. No call of this makes a counted one, and none needs the power.
ghost use Rattle.std.specs.Prelude.{◌≡◌, ◌<◌, OnOk};
ghost use Rattle.line_words.specs.Told.{Answers, OnRefused};
ghost use Rattle.nvm_model.specs.Blocks.{lose};
ghost use Rattle.nvm_model.specs.Cell.{lose_cell};
ghost use Rattle.block_device.specs.Object.{BlocksServe, blocks_of};
ghost use Rattle.file_pages.specs.Object.{PagesServe};
ghost use Rattle.pm_volume.specs.Object.{VolumeServes};
ghost use Rattle.scrub.specs.Calls.{MarksFile, MarksVolume};
ghost use Rattle.scrub.specs.Lines.{IsLineOf};
ghost use Rattle.scrub.specs.Others.{WritesBackBut};
ghost use Rattle.marked_lines.specs.Refusals.{block_refusal};
ghost use Rattle.scrub.specs.Refusals.{place_says};

use crate::PlaceFault;
use crate::places::{line_in_file, line_of_block, line_of_byte};
use block_device::Blocks;
use file_pages::FilePages;
use line_device::Lines;
use pm_volume::Volume;

/// A media error takes the line of a byte of the volume. One that is bad stays so.
pub fn poison_volume<L: Lines>(dev: &mut L, volume: &Volume, offset: u64) -> Result<(), PlaceFault>
    requires serves { VolumeServes volume.now (L.state dev.old).medium }
    ensures marks { MarksVolume L.state volume.now dev.old dev.new result place_says lose_cell offset }
{
    let line = line_of_byte(volume, offset)?;
    dev.poison(line);
    Ok(())
}

/// A media error takes the line of a byte of a file. One that is bad stays so.
pub fn poison_file<L: Lines>(
    dev: &mut L,
    files: &FilePages,
    inode: u64,
    offset: u64,
) -> Result<(), PlaceFault>
    requires serves { PagesServe files.now (L.state dev.old).medium }
    requires inode { inode < 64 }
    ensures marks { MarksFile L.state files.now dev.old dev.new result place_says lose_cell inode offset }
{
    let line = line_in_file(files, inode, offset)?;
    dev.poison(line);
    Ok(())
}

/// A media error takes a line, 0 to 7, of a block. One that is bad stays so.
pub fn poison_block<L: Lines>(
    dev: &mut L,
    blocks: &Blocks,
    block: u64,
    line: u64,
) -> Result<(), PlaceFault>
    requires serves { BlocksServe blocks.now (L.state dev.old).medium }
    ensures refused { Answers place_says (block_refusal blocks.now.geo.blocks (blocks_of blocks.now (L.state dev.old).medium) block line) result }
    ensures untouched { OnRefused place_says result (dev.new ≡ dev.old) }
    ensures ok { OnOk result (blocks_of blocks.now (L.state dev.new).medium ≡ lose block line (blocks_of blocks.now (L.state dev.old).medium)) }
    ensures outside { WritesBackBut (IsLineOf blocks.now block line) (L.state dev.old).medium (L.state dev.new).medium }
    ensures serves { BlocksServe blocks.now (L.state dev.new).medium }
    ensures panel { (L.state dev.new).panel ≡ (L.state dev.old).panel }
{
    let found = line_of_block(blocks, block, line)?;
    dev.poison(found);
    Ok(())
}
