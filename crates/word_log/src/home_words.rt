// The home words as lists: those that a mount of the log leaves.
ghost use Rattle.std.specs.Prelude.{◌≡◌, ◌+◌, ◌*◌, ◌/◌, ◌%◌, true, IfErr, IfOk, IsTrue, OnOk};
ghost use Rattle.line_device.specs.Medium.{WritesBack, last_image};
ghost use Rattle.line_device.specs.Panel.{Runs};
ghost use Rattle.line_words.specs.Told.{IsStop};
ghost use Rattle.word_log.specs.Area.{AreHomeWords, Fits, IsReadable, IsStrong};
ghost use Rattle.word_log.specs.Leaving.{LeavesLog};
ghost use Rattle.word_log.specs.Mount.{LogFinds, says};
ghost use Rattle.word_log.specs.Outcomes.{log_outcome};
ghost use Rattle.word_log.specs.Replay.{replayed};
ghost use Rattle.word_log.specs.Rest.{IsAtRest};

use crate::{Log, LogArea, LogFault, mount};
use line_device::Lines;
use line_words::load_words;
use nvm_base::Words;
use std::alloc::Global;

/// Mounts a log, and loads the home words then, a line at a time. They begin with a line's first word.
pub fn mount_words<L: Lines>(
    alloc: Global,
    dev: &mut L,
    area: LogArea,
) -> Result<(Log, Words), LogFault>
    requires on { IsTrue (L.state dev.old).panel.power }
    requires fits { Fits area (L.state dev.old).medium }
    requires strong { IsStrong area (L.state dev.old).medium }
    requires line { area.home.start % 8 ≡ 0 }
    ensures log { IfOk result (λ found. found.0 ≡ record { area = area; settled = true }) }
    ensures words { IfOk result (λ found. AreHomeWords area (replayed area (last_image (L.state dev.old).medium)) found.1.items) }
    ensures rest { OnOk result (IsAtRest area (L.state dev.new).medium
        (replayed area (last_image (L.state dev.old).medium))) }
    ensures finds { LogFinds area (L.state dev.old).medium result }
    ensures leaves { LeavesLog area (L.state dev.old).medium (L.state dev.new).medium }
    ensures runs { Runs (area.log.len + area.home.len / 8 + 4 * area.cap + 6 + (area.home.len + 7) / 8)
        (area.log.len + area.home.len / 8 + area.cap + 3) (log_outcome result)
        (L.state dev.old).panel (L.state dev.new).panel }
{
    let log = mount(alloc, dev, area)?;
    let words = load_home(alloc, dev, area)?;
    Ok((log, words))
}

// The home words, as last stored.
fn load_home<L: Lines>(alloc: Global, dev: &mut L, area: LogArea) -> Result<Words, LogFault>
    requires readable { IsReadable area (L.state dev.old) }
    requires line { area.home.start % 8 ≡ 0 }
    ensures words { IfOk result (λ words. AreHomeWords area (last_image (L.state dev.old).medium) words.items) }
    ensures stop { IfErr result (IsStop says) }
    ensures lines { WritesBack (L.state dev.old).medium (L.state dev.new).medium }
    ensures runs { Runs ((area.home.len + 7) / 8) 0 (log_outcome result) (L.state dev.old).panel (L.state dev.new).panel }
{
    let first = area.home.start / 8;
    let mut words = Words::new(alloc);
    words.reserve(area.home.len)?;
    for k in 0..area.home.len.div_ceil(8) {
        let eight = load_words(dev, first + k)?;
        words.extend(&eight)?;
    }
    // The last line may have other words behind them.
    words.truncate(area.home.len);
    Ok(words)
}
