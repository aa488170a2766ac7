// The image of a medium that was never used.
ghost use Rattle.std.specs.Prelude.{◌≡◌, IfOk};
ghost use Rattle.word_tables.specs.Bounds.{IsValid};
ghost use Rattle.line_device.specs.Panel.{IsUnit};
ghost use Rattle.image_file.specs.Text.{IsSnapshot, fresh_snapshot, snapshot_of, superblock_text};

use crate::Image;
use byteorder::{ByteOrder, LittleEndian};
use line_device::{BYTE_UNIT, LineList, LineState, WORD_UNIT};
use std::alloc::{AllocError, Global};
use word_tables::Geometry;

/// The image of a fresh device of these sizes, of survival unit 8: its superblock, and then zeros.
pub fn fresh(alloc: Global, geo: Geometry) -> Result<Image, AllocError>
    requires { IsValid geo }
    ensures image { IfOk result (λ image. snapshot_of image ≡ fresh_snapshot 8 geo) }
    ensures right { IsSnapshot (fresh_snapshot 8 geo) }
{
    fresh_of(alloc, geo, WORD_UNIT)
}

/// The image of a fresh device of these sizes, of survival unit 1: its superblock, and then zeros.
pub fn fresh_byte(alloc: Global, geo: Geometry) -> Result<Image, AllocError>
    requires { IsValid geo }
    ensures image { IfOk result (λ image. snapshot_of image ≡ fresh_snapshot 1 geo) }
    ensures right { IsSnapshot (fresh_snapshot 1 geo) }
{
    fresh_of(alloc, geo, BYTE_UNIT)
}

fn fresh_of(alloc: Global, geo: Geometry, unit: u64) -> Result<Image, AllocError>
    requires unit { IsUnit unit }
    requires sizes { IsValid geo }
    ensures image { IfOk result (λ image. snapshot_of image ≡ fresh_snapshot unit geo) }
    ensures right { IsSnapshot (fresh_snapshot unit geo) }
{
    let mut lines = LineList::new(alloc);
    lines.reserve(geo.total_lines())?;
    lines.push(LineState::Healthy(superblock_line(geo)))?;
    lines.repeat(LineState::Healthy([0; 64]), geo.total_lines() - 1)?;
    Ok(Image { unit, lines })
}

fn superblock_line(geo: Geometry) -> [u8; 64]
    requires { IsValid geo }
    ensures { result ≡ superblock_text geo }
{
    let mut bytes = [0; 64];
    LittleEndian::write_u64_into(&geo.superblock(), &mut bytes);
    bytes
}
