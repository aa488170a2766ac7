// The superblock: loaded by one call, and compared with the layout.
ghost use Rattle.std.specs.Prelude.{◌≡◌, ◌≤◌, ◌%◌, ◌==◌, ◌&&◌, IsTrue, IfOk, option_map, slice_index};
ghost use Rattle.line_device.specs.Medium.{WritesBack};
ghost use Rattle.line_device.specs.Panel.{Runs};
ghost use Rattle.line_device.specs.Panel.Outcome.{went};
ghost use Rattle.word_tables.specs.Superblock.{geometry_of, first_wrong_word, is_within};
ghost use Rattle.recovery.specs.Findings.{geometry_told, superblock_finding};
ghost use Rattle.word_log.specs.Mount.Finding.{wrong_word};
ghost use Rattle.recovery.specs.Mounting.{Finds, mount_outcome};

use crate::MountFault;
use line_device::Lines;
use line_words::load_words;
use nvm_base::LineNo;
use word_tables::{
    Geometry, LAYOUT, LEAST_BLOCKS, LEAST_FPAGES, LEAST_VPAGES, MARK, MOST_BLOCKS, MOST_FPAGES,
    MOST_VPAGES, WORD_BYTES,
};

/// The sizes that the superblock has, where it is as it has to be.
pub fn read_superblock<L: Lines>(dev: &mut L) -> Result<Geometry, MountFault>
    requires some { 1 ≤ (L.state dev.old).medium.count }
    requires on { IsTrue (L.state dev.old).panel.power }
    ensures geo { IfOk result (λ geo. geo ≡ geometry_told (L.state dev.old).medium) }
    ensures finds { Finds (superblock_finding (L.state dev.old).medium) result }
    ensures lines { WritesBack (L.state dev.old).medium (L.state dev.new).medium }
    ensures runs { Runs 1 0 (mount_outcome result) (L.state dev.old).panel (L.state dev.new).panel }
{
    if dev.is_bad(LineNo(0)) {
        return Err(MountFault::Meta(LineNo(0)));
    }
    let words = load_words(dev, 0)?;
    check_words(&words, dev.lines())
}

// The sizes that words tell, or the lowest word that is wrong on a device of so many lines.
fn check_words(words: &[u64; 8], lines: u64) -> Result<Geometry, MountFault>
    ensures geo { IfOk result (λ geo. geo ≡ geometry_of (slice_index words.now)) }
    ensures finds { Finds (option_map wrong_word (first_wrong_word lines (slice_index words.now))) result }
    ensures went { mount_outcome result ≡ went }
{
    if words[0] != MARK {
        return Err(MountFault::Layout(0));
    }
    if words[1] != LAYOUT {
        return Err(MountFault::Layout(1));
    }
    if !are_blocks(words[2]) {
        return Err(MountFault::Layout(2));
    }
    if !is_within(LEAST_VPAGES, MOST_VPAGES, words[3]) {
        return Err(MountFault::Layout(3));
    }
    if !is_within(LEAST_FPAGES, MOST_FPAGES, words[4]) {
        return Err(MountFault::Layout(4));
    }
    let geo = Geometry {
        blocks: words[2],
        vpages: words[3],
        fpages: words[4],
    };
    if words[5] != geo.meta_lines() {
        return Err(MountFault::Layout(5));
    }
    if words[6] != geo.total_lines() || words[6] != lines {
        return Err(MountFault::Layout(6));
    }
    if words[7] != WORD_BYTES {
        return Err(MountFault::Layout(7));
    }
    Ok(geo)
}

// Whether a device may have so many blocks.
fn are_blocks(count: u64) -> bool
    ensures { result ≡ (is_within 8 4096 count && count % 8 == 0) }
{
    is_within(LEAST_BLOCKS, MOST_BLOCKS, count) && count % 8 == 0
}

fn is_within(least: u64, most: u64, count: u64) -> bool
    ensures { result ≡ is_within least most count }
{
    least <= count && count <= most
}
