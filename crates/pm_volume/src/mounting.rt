// Mounting.
ghost use Rattle.std.specs.Prelude.{◌≡◌, ◌+◌, ◌/◌, ◌≤◌, ◌*◌, ◌<◌, ◌==◌, IfOk, IfSome, IsTrue, length, map, true};
ghost use Rattle.line_device.specs.Medium.{last_image};
ghost use Rattle.line_device.specs.Panel.{Runs};
ghost use Rattle.line_device.specs.Panel.Outcome.{went};
ghost use Rattle.line_words.specs.Told.{outcome_by};
ghost use Rattle.nvm_model.specs.Lines.{AreStrong};
ghost use Rattle.word_log.specs.Leaving.{LeavesLog};
ghost use Rattle.word_tables.specs.Bounds.{IsValid};
ghost use Rattle.word_tables.specs.Layout.{meta_lines, total_lines};
ghost use Rattle.pm_volume.specs.Area.{volume_area, volume_ranges};
ghost use Rattle.pm_volume.specs.Mounting.{FindsPresence, FindsVolume, volume_mount_says};
ghost use Rattle.pm_volume.specs.Object.{VolumeServes};
ghost use Rattle.pm_volume.specs.Presence.{first_wrong_page, presence_read, presence_word};

use crate::area::volume_area;
use crate::{MountFault, Volume};
use line_device::Lines;
use range_sets::{RangeFault, RangeSet};
use std::alloc::{AllocError, Global};
use word_log::{Log, mount_words};
use word_tables::Geometry;

impl Volume {
    /// Mounts the volume of a device: replays its log where it is open, and reads which pages exist.
    pub fn mount<L: Lines>(alloc: Global, dev: &mut L, geo: Geometry) -> Result<Self, MountFault>
        requires valid { IsValid geo }
        requires lines { (L.state dev.old).medium.count ≡ total_lines geo }
        requires strong { AreStrong (L.state dev.old).medium (meta_lines geo) }
        requires on { IsTrue (L.state dev.old).panel.power }
        ensures ok { IfOk result (λ volume. (volume.geo ≡ geo)
            × (volume.present ≡ presence_read geo (last_image (L.state dev.old).medium))) }
        ensures finds { FindsVolume geo (L.state dev.old).medium result }
        ensures leaves { LeavesLog (volume_area geo) (L.state dev.old).medium (L.state dev.new).medium }
        ensures serves { IfOk result (λ volume. VolumeServes volume (L.state dev.new).medium) }
        ensures settled { IfOk result (λ volume. IsTrue volume.settled) }
        ensures runs { Runs (1095 + 2 * ((geo.vpages + 7) / 8)) (324 + (geo.vpages + 7) / 8) (outcome_by volume_mount_says result)
            (L.state dev.old).panel (L.state dev.new).panel }
    {
        let (log, words) = mount_words(alloc, dev, volume_area(geo))?;
        Volume::judge(alloc, geo, log, words.as_slice())
    }

    /// The volume of a log at rest and of its presence words, or what is wrong with these. So a device of several logs replays
    /// all of them before any table is judged.
    pub fn judge(alloc: Global, geo: Geometry, log: Log, words: &[u64]) -> Result<Self, MountFault>
        requires valid { IsValid geo }
        requires log { log ≡ record { area = volume_area geo; settled = true } }
        requires length { length words.now ≡ geo.vpages }
        ensures volume { IfOk result (λ volume. (volume.geo ≡ geo) × (map presence_word volume.present ≡ words.now)) }
        ensures settled { IfOk result (λ volume. IsTrue volume.settled) }
        ensures finds { FindsPresence geo words.now result }
        ensures went { outcome_by volume_mount_says result ≡ went }
    {
        let present = read_presence(alloc, geo, words)?;
        let ranges = make_ranges(alloc, geo)?;
        Ok(Volume {
            geo,
            ranges,
            log,
            present,
            settled: true,
        })
    }
}

// Which pages are there by these words, or the place of the first that is wrong.
fn read_presence(alloc: Global, geo: Geometry, words: &[u64]) -> Result<Vec<bool>, MountFault>
    requires valid { IsValid geo }
    requires length { length words.now ≡ geo.vpages }
    ensures ok { IfOk result (λ present. map presence_word present.items ≡ words.now) }
    ensures finds { FindsPresence geo words.now result }
    ensures went { outcome_by volume_mount_says result ≡ went }
{
    if let Some(page) = first_wrong(words) {
        return Err(MountFault::Bad(geo.presence_word(page as u64)));
    }
    let present = are_set(alloc, words)?;
    Ok(present)
}

// The first word that is neither 0 nor 1.
fn first_wrong(words: &[u64]) -> Option<usize>
    ensures page { result ≡ first_wrong_page words.now }
    ensures within { IfSome result (λ page. page < length words.now) }
{
    words.iter().position(|word| *word > 1)
}

// Of each word whether it is 1.
fn are_set(alloc: Global, words: &[u64]) -> Result<Vec<bool>, AllocError>
    ensures { IfOk result (λ set. set.items ≡ map (λ w. w == 1) words.now) }
{
    let mut set = Vec::new(alloc);
    for word in words {
        set.push(*word == 1)?;
    }
    Ok(set)
}

// The volume's two ranges.
fn make_ranges(alloc: Global, geo: Geometry) -> Result<RangeSet, AllocError>
    requires { IsValid geo }
    ensures { IfOk result (λ ranges. ranges ≡ volume_ranges geo) }
{
    match RangeSet::make(alloc, &geo.volume_ranges()) {
        Ok(ranges) => Ok(ranges),
        Err(RangeFault::Memory) => Err(AllocError),
        Err(RangeFault::Empty(_)) => unreachable!(),
        Err(RangeFault::Overlap(_)) => unreachable!(),
    }
}
