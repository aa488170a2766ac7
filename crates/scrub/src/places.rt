// Where lines of the volume, of files and of blocks lie on the device.
ghost use Rattle.std.specs.Prelude.{◌≡◌, ◌/◌, ◌<◌, IfOk, List, Some, length, true};
ghost use Rattle.line_device.specs.Medium.{Medium};
ghost use Rattle.line_words.specs.Told.{Checks};
ghost use Rattle.word_tables.specs.Bounds.{IsValid};
ghost use Rattle.block_map.specs.States.{IsMap};
ghost use Rattle.nvm_model.specs.Page.{Page};
ghost use Rattle.nvm_model.specs.Storage.{File};
ghost use Rattle.block_device.specs.Object.{blocks_of};
ghost use Rattle.file_journal.specs.Tables.{AreTables};
ghost use Rattle.file_pages.specs.Object.{IsFileAt, file_place};
ghost use Rattle.pm_volume.specs.Object.{VolumeHolds, volume_place};
ghost use Rattle.scrub.specs.Lines.{IsLineOf};
ghost use Rattle.marked_lines.specs.Refusals.{block_refusal, file_refusal, place_refusal};
ghost use Rattle.scrub.specs.Refusals.{place_says};

use crate::PlaceFault;
use block_device::Blocks;
use file_pages::FilePages;
use nvm_base::{BLOCK, LINE, LineNo, PAGE};
use pm_volume::Volume;

/// The line of the device that a byte of the volume lies on.
pub fn line_of_byte(volume: &Volume, offset: u64) -> Result<LineNo, PlaceFault>
    requires { length volume.now.present ≡ volume.now.geo.vpages }
    ensures refused { (m : Medium) (pages : List Page) → VolumeHolds volume.now m pages
        → Checks place_says (place_refusal volume.now.geo pages offset) result }
    ensures place { IfOk result (λ line. volume_place volume.now.geo volume.now.present true (offset / 64) ≡ Some line.0) }
{
    if offset >= PAGE * volume.count() {
        return Err(PlaceFault::Range);
    }
    let Some(first) = volume.line_of(offset / PAGE) else {
        return Err(PlaceFault::Nothing);
    };
    Ok(LineNo(first.0 + offset % PAGE / LINE))
}

/// The line of the device that a byte of a file lies on.
pub fn line_in_file(files: &FilePages, inode: u64, offset: u64) -> Result<LineNo, PlaceFault>
    requires inode { inode < 64 }
    ensures refused { (m : Medium) (all : List File) (file : File) → IsFileAt files.now.journal m inode all file
        → Checks place_says (file_refusal file.pages offset) result }
    ensures place { IfOk result (λ line. file_place files.now.journal inode (offset / 64) ≡ Some line.0) }
    ensures tables { AreTables files.now.journal.geo.fpages files.now.journal.tables }
    ensures valid { IsValid files.now.journal.geo }
{
    let journal = files.journal();
    let _sizes = journal.geometry();
    if offset >= PAGE * journal.pages(inode) {
        return Err(PlaceFault::Range);
    }
    match files.line_of(inode, offset) {
        Some(line) => Ok(line),
        None => Err(PlaceFault::Nothing),
    }
}

/// The line of the device that is this one of a block's eight.
pub fn line_of_block(blocks: &Blocks, block: u64, line: u64) -> Result<LineNo, PlaceFault>
    requires all { length blocks.now.map ≡ blocks.now.geo.blocks }
    requires is_map { IsMap blocks.now.map }
    ensures refused { (m : Medium) → Checks place_says (block_refusal blocks.now.geo.blocks (blocks_of blocks.now m) block line) result }
    ensures place { IfOk result (λ found. (line < 8) × IsLineOf blocks.now block line found.0) }
{
    if block >= blocks.count() || line >= BLOCK / LINE {
        return Err(PlaceFault::Range);
    }
    let Some(first) = blocks.line_of(block) else {
        return Err(PlaceFault::Nothing);
    };
    Ok(LineNo(first.0 + line))
}
