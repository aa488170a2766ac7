// Single lines of the volume: loaded, tested for their marks, and written durably.
ghost use Rattle.std.specs.Prelude.{◌≡◌, ◌*◌, ◌<◌, IfOk, List, Some, length, slice_index, ℕ};
ghost use Rattle.line_device.specs.Medium.{WritesBack};
ghost use Rattle.line_words.specs.Told.{Answers, Checks, OnRefused, is_done, outcome_by};
ghost use Rattle.nvm_model.specs.Page.{Page, cell_of};
ghost use Rattle.pm_volume.specs.Calls.{ChangesVolume, IsReady};
ghost use Rattle.pm_volume.specs.Object.{VolumeHolds, VolumeServes};
ghost use Rattle.pm_volume.specs.Refusals.{volume_says};
ghost use Rattle.append_log.specs.Lines.{write_calls, write_persists};
ghost use Rattle.append_log.specs.Refusals.{load_refusal, log_says, mark_refusal, write_refusal};
ghost use Rattle.pm_volume.specs.Left.{IsSoundLine};
ghost use Rattle.pm_volume.specs.Line.{MayWrite, line_in, written_line};

use crate::LogFault;
use line_device::Lines;
use nvm_base::{LINE, LineNo, PAGE, Span};
use pm_volume::{Volume, VolumeFault};

// The bytes of a line.
pub(crate) fn load_line<L: Lines>(
    volume: &mut Volume,
    dev: &mut L,
    line: u64,
) -> Result<[u8; 64], VolumeFault>
    requires ready { IsReady volume.old (L.state dev.old) }
    requires within { line < 64 * volume.old.geo.vpages }
    ensures refused { (pages : List Page) → VolumeHolds volume.old (L.state dev.old).medium pages
        → Answers volume_says (load_refusal line (cell_of pages line)) result }
    ensures ok { IfOk result (λ bytes. (pages : List Page) → VolumeHolds volume.old (L.state dev.old).medium pages
        → line_in (cell_of pages line) ≡ Some bytes) }
    ensures length { IfOk result (λ bytes. length bytes ≡ 64) }
    ensures untouched { OnRefused volume_says result (dev.new ≡ dev.old) }
    ensures lines { WritesBack (L.state dev.old).medium (L.state dev.new).medium }
    ensures serves { VolumeServes volume.new (L.state dev.new).medium }
    ensures object { volume.new ≡ record volume.old { settled = is_done (outcome_by volume_says result) } }
{
    let mut bytes = [0; 64];
    volume.load_into(dev, LINE * line, &mut bytes)?;
    Ok(bytes)
}

// Whether a line can be stored and synced and is not lost by that.
pub(crate) fn check_line<L: Lines>(volume: &Volume, dev: &L, line: u64) -> Result<(), LogFault>
    requires serves { VolumeServes volume.now (L.state dev.now).medium }
    requires within { line < 64 * volume.now.geo.vpages }
    ensures { (pages : List Page) → VolumeHolds volume.now (L.state dev.now).medium pages
        → Checks log_says (mark_refusal line (cell_of pages line)) result }
{
    let Some(first) = volume.line_of(line / (PAGE / LINE)) else {
        return Ok(());
    };
    let place = LineNo(first.0 + line % (PAGE / LINE));
    if dev.is_bad(place) {
        return Err(LogFault::Volume(VolumeFault::Poison(LINE * line)));
    }
    if dev.is_weak(place) {
        return Err(LogFault::Weak(LINE * line));
    }
    Ok(())
}

// Stores a line that passed the check, and makes it durable.
pub(crate) fn write_line<L: Lines>(
    volume: &mut Volume,
    dev: &mut L,
    line: u64,
    bytes: &[u8],
) -> Result<(), VolumeFault>
    requires ready { IsReady volume.old (L.state dev.old) }
    requires within { line < 64 * volume.old.geo.vpages }
    requires whole { length bytes.now ≡ 64 }
    requires sound { (pages : List Page) → VolumeHolds volume.old (L.state dev.old).medium pages → IsSoundLine (cell_of pages line) }
    ensures refused { Answers volume_says (write_refusal volume.old (L.state dev.old).medium line) result }
    ensures changes { ChangesVolume L.state volume.old volume.new dev.old dev.new result (written_line line bytes.now) (MayWrite line bytes.now)
        (write_calls volume.old.present line) (write_persists volume.old.present line) }
    ensures bytes { (k : ℕ) → slice_index bytes.now k < 256 }
{
    let start = LINE * line;
    volume.store(dev, start, bytes)?;
    volume.sync(dev, Span { start, len: LINE })
}
