// How many lines are bad. None of this makes a counted call.
ghost use Rattle.std.specs.Prelude.{◌≡◌, ◌+◌, ◌<◌, ◌≤◌, List, count_by};
ghost use Rattle.std.specs.List.{range_with_len};
ghost use Rattle.nvm_model.specs.Blocks.{bad_block_lines, bad_lines_in, nth};
ghost use Rattle.nvm_model.specs.Files.{bad_file_lines};
ghost use Rattle.nvm_model.specs.Page.{Page, bad_lines};
ghost use Rattle.nvm_model.specs.Storage.{File};
ghost use Rattle.block_device.specs.Object.{BlocksServe, blocks_of};
ghost use Rattle.file_journal.specs.Standing.{FilesStand};
ghost use Rattle.file_pages.specs.Object.{PagesServe};
ghost use Rattle.pm_volume.specs.Object.{VolumeHolds, VolumeServes};
ghost use Rattle.marked_lines.specs.Counting.{bad_in_page, has_mark, nth_page};

use block_device::Blocks;
use file_pages::FilePages;
use line_device::Lines;
use marked_lines::{Mark, bad_in_files, count_among};
use nvm_base::{BLOCK, LINE, PAGE};
use pm_volume::Volume;

/// How many lines of all that exists are bad.
pub fn bad_count<L: Lines>(dev: &L, blocks: &Blocks, volume: &Volume, files: &FilePages) -> u64
    requires blocks { BlocksServe blocks.now (L.state dev.now).medium }
    requires volume { VolumeServes volume.now (L.state dev.now).medium }
    requires files { PagesServe files.now (L.state dev.now).medium }
    ensures count { (pages : List Page) → VolumeHolds volume.now (L.state dev.now).medium pages
        → (all : List File) → FilesStand files.now.journal.geo (L.state dev.now).medium files.now.journal.tables all
        → result ≡ bad_block_lines (blocks_of blocks.now (L.state dev.now).medium) + bad_lines pages + bad_file_lines all }
    ensures few { result ≤ 114_688 }
{
    bad_in_blocks(dev, blocks) + bad_in_volume(dev, volume) + bad_in_files(dev, files.journal())
}

/// How many lines of blocks that have lines are bad: a scarred block has none.
pub fn bad_in_blocks<L: Lines>(dev: &L, blocks: &Blocks) -> u64
    requires serves { BlocksServe blocks.now (L.state dev.now).medium }
    ensures count { result ≡ bad_block_lines (blocks_of blocks.now (L.state dev.now).medium) }
    ensures few { result ≤ 32_768 }
{
    let mut bad = 0;
    for block in 0..blocks.count() {
        bad += count_in_block(dev, blocks, block);
    }
    bad
}

fn count_in_block<L: Lines>(dev: &L, blocks: &Blocks, block: u64) -> u64
    requires serves { BlocksServe blocks.now (L.state dev.now).medium }
    requires block { block < blocks.now.geo.blocks }
    ensures count { result ≡ bad_lines_in (nth (blocks_of blocks.now (L.state dev.now).medium) block) }
    ensures few { result ≤ 8 }
{
    let Some(line) = blocks.line_of(block) else {
        return 0;
    };
    count_among(dev, Mark::Bad, line.0, BLOCK / LINE)
}

/// How many lines of the pages that exist are bad: the lines of an absent page hold nothing that counts.
pub fn bad_in_volume<L: Lines>(dev: &L, volume: &Volume) -> u64
    requires serves { VolumeServes volume.now (L.state dev.now).medium }
    ensures count { (pages : List Page) → VolumeHolds volume.now (L.state dev.now).medium pages → result ≡ bad_lines pages }
    ensures few { result ≤ 16_384 }
{
    let mut bad = 0;
    for page in 0..volume.count() {
        bad += count_in_page(dev, volume, page);
    }
    bad
}

fn count_in_page<L: Lines>(dev: &L, volume: &Volume, page: u64) -> u64
    requires serves { VolumeServes volume.now (L.state dev.now).medium }
    requires page { page < volume.now.geo.vpages }
    ensures count { (pages : List Page) → VolumeHolds volume.now (L.state dev.now).medium pages
        → result ≡ bad_in_page (nth_page pages page) }
    ensures few { result ≤ 64 }
{
    let Some(line) = volume.line_of(page) else {
        return 0;
    };
    count_among(dev, Mark::Bad, line.0, PAGE / LINE)
}
