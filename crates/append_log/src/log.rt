ghost use Rattle.std.specs.Prelude.{◌≡◌, ◌⊎◌, ◌+◌, ◌*◌, ◌<◌, ◌≤◌, ◌∷◌, ◌++◌, [], ℕ, IfOk, IsTrue, List, None, OnOk, Option, Some, length, option_map, slice_get};
ghost use Rattle.line_device.specs.Medium.{WritesBack};
ghost use Rattle.line_words.specs.Told.{Answers, Checks, Finds, OnRefused, OnWorked, is_done, outcome_by};
ghost use Rattle.nvm_model.specs.Page.{Page};
ghost use Rattle.page_lines.specs.Turns.{WritesBackOthers};
ghost use Rattle.pm_volume.specs.Area.{IsOfVolume};
ghost use Rattle.pm_volume.specs.Calls.{IsReady};
ghost use Rattle.pm_volume.specs.Object.{VolumeHolds};
ghost use Rattle.append_log.specs.Lines.{log_of};
ghost use Rattle.pm_volume.specs.Left.{EachLeft};
ghost use Rattle.append_log.specs.Log.{HoldsLog, IsOpen, LogServes, LogStands};
ghost use Rattle.append_log.specs.Refusals.{append_refusal, check_refusal, get_refusal, log_says, open_refusal};

use crate::LogFault;
use crate::lines::{check_line, load_line, write_line};
use crate::records::{MOST_BYTES, Record, count_in, count_line, record_in, record_line};
use line_device::Lines;
use nvm_base::{LINE, PAGE};
use pm_volume::Volume;
use std::marker::Model;

/// A log of records in a volume.
#[derive(Debug, Drop)]
pub struct AppendLog {
    volume: Volume,
    len: u64,
}

impl Model for AppendLog {
    ghost use Rattle.append_log.specs.Log.{LogState};

    ghost Value = { LogState };

    ghost view = { λ log. record { volume = log.volume; len = log.len } };
}

impl AppendLog {
    /// The log of a volume. One whose line 0 is bad, or has a count that is too high, is none.
    pub fn open<L: Lines>(mut volume: Volume, dev: &mut L) -> Result<Self, LogFault>
        requires ready { IsReady volume (L.state dev.old) }
        ensures refused { (pages : List Page) → VolumeHolds volume (L.state dev.old).medium pages
            → Finds log_says (open_refusal pages) result }
        ensures ok { IfOk result (λ log. (pages : List Page) → VolumeHolds volume (L.state dev.old).medium pages
            → option_map length (log_of pages) ≡ Some log.len) }
        ensures lines { WritesBack (L.state dev.old).medium (L.state dev.new).medium }
        ensures serves { IfOk result (λ log. LogServes log (L.state dev.new).medium) }
        ensures volume { IfOk result (λ log. log.volume ≡ volume) }
    {
        let line = load_line(&mut volume, dev, 0)?;
        let len = count_in(&line);
        if len >= volume.count() * (PAGE / LINE) {
            return Err(LogFault::Wrong(0));
        }
        Ok(AppendLog { volume, len })
    }

    /// How many records there are.
    pub fn len(&self) -> u64
        ensures { result ≡ self.now.len }
    {
        self.len
    }

    /// Whether nothing stopped the last call. A log that is not settled has to be opened again.
    pub fn settled(&self) -> bool
        ensures { result ≡ self.now.volume.settled }
    {
        self.volume.settled()
    }

    /// The record of a number, from 0.
    pub fn get<L: Lines>(&mut self, dev: &mut L, index: u64) -> Result<Record, LogFault>
        requires open { IsOpen self.old (L.state dev.old) }
        ensures refused { (pages : List Page) → VolumeHolds self.old.volume (L.state dev.old).medium pages
            → Finds log_says (get_refusal self.old pages index) result }
        ensures ok { IfOk result (λ found. (log : List (Option (List ℕ))) → HoldsLog self.old (L.state dev.old).medium log
            → slice_get log index ≡ Some (Some found.items)) }
        ensures lines { WritesBack (L.state dev.old).medium (L.state dev.new).medium }
        ensures serves { LogServes self.new (L.state dev.new).medium }
        ensures object { self.new ≡ record self.old { volume = record self.old.volume { settled = is_done (outcome_by log_says result) } } }
    {
        if index >= self.len {
            return Err(LogFault::NoRecord);
        }
        let line = load_line(&mut self.volume, dev, index + 1)?;
        match record_in(&line) {
            Some(record) => Ok(record),
            None => Err(LogFault::Wrong(LINE * (index + 1))),
        }
    }

    /// Appends a record. At Ok it is durable. However the call ends, a restart finds the log as it was or with this record.
    pub fn append<L: Lines>(&mut self, dev: &mut L, record: &[u8]) -> Result<(), LogFault>
        requires open { IsOpen self.old (L.state dev.old) }
        ensures refused { (pages : List Page) → VolumeHolds self.old.volume (L.state dev.old).medium pages
            → Answers log_says (append_refusal self.old (L.state dev.old).medium pages (length record.now)) result }
        ensures untouched { OnRefused log_says result ((self.new ≡ self.old) × (dev.new ≡ dev.old)) }
        ensures ok { OnOk result ((log : List (Option (List ℕ))) → HoldsLog self.old (L.state dev.old).medium log
            → HoldsLog self.new (L.state dev.new).medium (log ++ Some record.now ∷ [])) }
        ensures images { OnWorked log_says result ((log : List (Option (List ℕ))) → HoldsLog self.old (L.state dev.old).medium log
            → EachLeft 8 self.old.volume.geo (L.state dev.new).medium (λ left. LogStands left log ⊎ LogStands left (log ++ Some record.now ∷ []))) }
        ensures outside { WritesBackOthers (IsOfVolume self.old.volume.geo) (L.state dev.old).medium (L.state dev.new).medium }
        ensures serves { IsTrue self.new.volume.settled → LogServes self.new (L.state dev.new).medium }
        ensures object { (self.new.volume.geo ≡ self.old.volume.geo) × (self.new.volume.settled ≡ is_done (outcome_by log_says result)) }
    {
        self.check(dev, record)?;
        let next = self.len + 1;
        write_line(&mut self.volume, dev, next, &record_line(record))?;
        write_line(&mut self.volume, dev, 0, &count_line(next))?;
        self.len = next;
        Ok(())
    }

    // Whether a record can be appended, as far as it and the marks of its lines go.
    fn check<L: Lines>(&self, dev: &L, record: &[u8]) -> Result<(), LogFault>
        requires serves { LogServes self.now (L.state dev.now).medium }
        ensures refused { (pages : List Page) → VolumeHolds self.now.volume (L.state dev.now).medium pages
            → Checks log_says (check_refusal self.now pages (length record.now)) result }
        ensures short { OnOk result (length record.now ≤ 48) }
        ensures room { OnOk result (self.now.len + 1 < 64 * self.now.volume.geo.vpages) }
    {
        if record.len() > MOST_BYTES {
            return Err(LogFault::TooLong);
        }
        if self.len + 1 == self.volume.count() * (PAGE / LINE) {
            return Err(LogFault::Full);
        }
        check_line(&self.volume, dev, 0)?;
        check_line(&self.volume, dev, self.len + 1)
    }
}
