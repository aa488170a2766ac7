// Attributes by name, mode by mode.
ghost use Rattle.std.specs.Prelude.{◌≡◌};
ghost use Rattle.word_tables.specs.Bounds.{IsValid};
ghost use Rattle.attributes.specs.Attributes.{attribute, block_attributes, file_attributes, mapping_attributes, value_in, volume_attributes};

use nvm_base::{BLOCK, LINE, PAGE};
use word_tables::Geometry;

/// Pages that stay free of files: the most that one write of all or nothing replaces.
const SPARE_PAGES: u64 = 16;

/// What the attribute of that name is of a medium of these sizes and this survival unit, None where no attribute has it.
pub fn value(name: &[u8], geo: Geometry, unit: u64) -> Option<u64>
    requires { IsValid geo }
    ensures { result ≡ attribute name.now geo unit }
{
    block_value(name, geo)
        .or(volume_value(name, geo))
        .or(file_value(name, geo))
        .or(mapping_value(name, unit))
}

fn block_value(name: &[u8], geo: Geometry) -> Option<u64>
    ensures { result ≡ value_in (block_attributes geo) name.now }
{
    if name == b"block.size".as_slice() {
        Some(BLOCK)
    } else if name == b"block.count".as_slice() {
        Some(geo.blocks)
    } else if name == b"block.write_atomicity".as_slice() {
        Some(BLOCK)
    } else if name == b"block.atomic_blocks".as_slice() {
        Some(64)
    } else if name == b"block.atomic_ranges".as_slice() {
        Some(8)
    } else if name == b"block.discard_zeros".as_slice() {
        Some(1)
    } else {
        None
    }
}

fn volume_value(name: &[u8], geo: Geometry) -> Option<u64>
    requires { IsValid geo }
    ensures { result ≡ value_in (volume_attributes geo) name.now }
{
    if name == b"volume.size".as_slice() {
        Some(geo.vpages * PAGE)
    } else if name == b"volume.ranges".as_slice() {
        Some(2)
    } else if name == b"volume.sync_unit".as_slice() {
        Some(LINE)
    } else {
        None
    }
}

fn file_value(name: &[u8], geo: Geometry) -> Option<u64>
    requires { IsValid geo }
    ensures { result ≡ value_in (file_attributes geo) name.now }
{
    if name == b"file.pages".as_slice() {
        Some(geo.fpages - SPARE_PAGES)
    } else if name == b"file.max_pages".as_slice() {
        Some(256)
    } else if name == b"file.max_files".as_slice() {
        Some(64)
    } else if name == b"file.atomic_pages".as_slice() {
        Some(SPARE_PAGES)
    } else if name == b"file.atomic_ranges".as_slice() {
        Some(8)
    } else {
        None
    }
}

fn mapping_value(name: &[u8], unit: u64) -> Option<u64>
    ensures { result ≡ value_in (mapping_attributes unit) name.now }
{
    if name == b"pm.store_atomicity".as_slice() {
        Some(unit)
    } else if name == b"pm.interrupted_store_atomicity".as_slice() {
        Some(if unit == 8 { 1 } else { 0 })
    } else if name == b"pm.error_range".as_slice() {
        Some(LINE)
    } else if name == b"pm.error_offset".as_slice() {
        Some(0)
    } else if name == b"pm.flush_ranges".as_slice() {
        Some(8)
    } else if name == b"pm.domains".as_slice() {
        Some(1)
    } else {
        None
    }
}
