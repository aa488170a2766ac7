// Making a fresh device: all zeros, and then its superblock.
ghost use Rattle.std.specs.Prelude.{◌≡◌, ◌<◌, ℕ, IsTrue, OnOk};
ghost use Rattle.line_device.specs.Word.{word_at};
ghost use Rattle.line_device.specs.Panel.{SetsUp, with_unit};
ghost use Rattle.line_device.specs.Device.{setup_outcome};
ghost use Rattle.word_tables.specs.Bounds.{IsValid};
ghost use Rattle.word_tables.specs.Superblock.{superblock_word};
ghost use Rattle.recovery.specs.Fresh.{IsFresh};

use byteorder::{ByteOrder, LittleEndian};
use line_device::{LineDevice, LineState, ResetFault, WORD_UNIT};
use nvm_base::LineNo;
use word_tables::Geometry;

/// Makes a device one of zeros with the superblock of these sizes, durably.
pub fn format<D: LineDevice>(device: &mut D, geo: Geometry) -> Result<(), ResetFault>
    requires { IsValid geo }
    ensures ok { OnOk result (IsFresh geo (D.state device.new).medium) }
    ensures on { OnOk result (IsTrue (D.state device.new).panel.power) }
    ensures stays_on { IsTrue (D.state device.old).panel.power → IsTrue (D.state device.new).panel.power }
    ensures unit { OnOk result ((D.state device.new).panel.unit ≡ 8) }
    ensures sets_up { SetsUp (setup_outcome result) (with_unit (D.state device.old).panel (D.state device.new).panel.unit) (D.state device.new).panel }
{
    device.reset(geo.total_lines(), WORD_UNIT)?;
    device.install(LineNo(0), &LineState::Healthy(superblock_line(geo)))
}

// The bytes of the superblock's words, the lowest of each first.
fn superblock_line(geo: Geometry) -> [u8; 64]
    requires { IsValid geo }
    ensures { (w : ℕ) → w < 8 → word_at result w ≡ superblock_word geo w }
{
    let mut bytes = [0; 64];
    LittleEndian::write_u64_into(&geo.superblock(), &mut bytes);
    bytes
}
