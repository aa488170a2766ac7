// Cuts, failures, write-backs, restarts and recoveries, and what an interrupted command is answered.
ghost use Rattle.std.specs.Prelude.{◌≡◌, ◌≤◌, MatchResult};
ghost use Rattle.machine_model.specs.declared.mode.Mode.TheVariants.{On, Off, Unsettled};
ghost use Rattle.script_text.specs.Action.Action.{Cut, CutIn, FailIn, Restart, Recover, Evict};
ghost use Rattle.reply_text.specs.Answer.{answer_of};
ghost use Rattle.block_device.specs.Object.{BlocksServe};
ghost use Rattle.file_journal.specs.Object.{JournalServes};
ghost use Rattle.pm_volume.specs.Object.{VolumeServes};
ghost use Rattle.recovery.specs.declared.fault.MountFault.TheVariants.{Memory};
ghost use Rattle.machine_host.specs.Stands.{HostServes, just_mounted};
ghost use Rattle.machine_host.specs.Faults.{CountsBad, unmounted_answer, unmounted_mode};
ghost use Rattle.machine_model.specs.Interrupted.{interrupted_answer, interrupted_mode};
ghost use Rattle.machine_host.specs.Responding.{Answered, Responds};

use super::Performer;
use crate::Mode;
use crate::held::HeldFiles;
use line_device::{Choice, LineDevice};
use line_words::Interruption;
use recovery::{MountFault, Mounted};
use reply_text::Reply;
use scrub::bad_count;
use std::alloc::AllocError;

impl Performer {
    pub(super) fn cut<D: LineDevice>(&mut self, device: &mut D) -> Reply
        requires serves { HostServes self.old (D.state device.old) }
        requires powered { self.old.mode ≡ Off → ⊥ }
        ensures { Answered Cut (answer_of result) self.old self.new (D.state device.old) (D.state device.new) }
    {
        device.power_off();
        self.mode = Mode::Off;
        Reply::Done
    }

    pub(super) fn cut_in<D: LineDevice>(&self, device: &mut D, calls: u64) -> Reply
        requires serves { HostServes self.now (D.state device.old) }
        requires some { 1 ≤ calls }
        ensures { Answered (CutIn calls) (answer_of result) self.now self.now (D.state device.old) (D.state device.new) }
    {
        device.arm_cut(calls);
        Reply::Done
    }

    pub(super) fn fail_in<D: LineDevice>(&self, device: &mut D, calls: u64) -> Reply
        requires serves { HostServes self.now (D.state device.old) }
        requires some { 1 ≤ calls }
        ensures { Answered (FailIn calls) (answer_of result) self.now self.now (D.state device.old) (D.state device.new) }
    {
        device.arm_fail(calls);
        Reply::Done
    }

    pub(super) fn evict<D: LineDevice>(&self, device: &mut D, lines: u64) -> Reply
        requires serves { HostServes self.now (D.state device.old) }
        requires on { self.now.mode ≡ On }
        ensures { Answered (Evict lines) (answer_of result) self.now self.now (D.state device.old) (D.state device.new) }
    {
        device.evict(lines);
        Reply::Done
    }

    pub(super) fn restart<D: LineDevice>(
        &mut self,
        device: &mut D,
        choice: Choice,
    ) -> Result<Reply, AllocError>
        requires serves { HostServes self.old (D.state device.old) }
        requires off { self.old.mode ≡ Off }
        ensures { Responds (Restart choice) result self.old self.new (D.state device.old) (D.state device.new) }
    {
        device.restart(choice)?;
        match recovery::mount(self.alloc, device) {
            Ok(mounted) => Ok(self.mounted(device, mounted)),
            Err(fault) => self.unmounted(fault),
        }
    }

    // The power was not lost, so each word has all its values still.
    pub(super) fn recover<D: LineDevice>(&mut self, device: &mut D) -> Result<Reply, AllocError>
        requires serves { HostServes self.old (D.state device.old) }
        requires unsettled { self.old.mode ≡ Unsettled }
        ensures { Responds Recover result self.old self.new (D.state device.old) (D.state device.new) }
    {
        match recovery::mount(self.alloc, device) {
            Ok(mounted) => Ok(self.mounted(device, mounted)),
            Err(fault) => self.unmounted(fault),
        }
    }

    // What it is answered where the device is mounted: how many lines are bad.
    fn mounted<D: LineDevice>(&mut self, device: &D, mounted: Mounted) -> Reply
        requires blocks { BlocksServe mounted.blocks (D.state device.now).medium }
        requires volume { VolumeServes mounted.volume (D.state device.now).medium }
        requires journal { JournalServes mounted.files.journal (D.state device.now).medium }
        ensures state { self.new ≡ record self.old { mode = On; blocks = mounted.blocks; volume = mounted.volume; files = just_mounted mounted.files mounted.events } }
        ensures answer { CountsBad mounted.blocks mounted.volume mounted.files.journal (D.state device.now).medium (answer_of result) }
    {
        let bad = bad_count(device, &mounted.blocks, &mounted.volume, &mounted.files);
        self.take(mounted);
        Reply::DoneBad(bad)
    }

    // The host takes over what was mounted.
    pub(super) fn take(&mut self, mounted: Mounted)
        ensures { self.new ≡ record self.old { mode = On; blocks = mounted.blocks; volume = mounted.volume; files = just_mounted mounted.files mounted.events } }
    {
        self.blocks = mounted.blocks;
        self.volume = mounted.volume;
        self.files = HeldFiles::of(self.alloc, mounted.files, mounted.events);
        self.mode = Mode::On;
    }

    // What it is answered where the device could not be mounted, and the mode after it.
    fn unmounted(&mut self, fault: MountFault) -> Result<Reply, AllocError>
        ensures state { self.new ≡ record self.old { mode = unmounted_mode fault } }
        ensures answer { MatchResult result (λ reply. (fault ≡ Memory → ⊥) × (answer_of reply ≡ unmounted_answer fault)) (λ _. fault ≡ Memory) }
    {
        match fault {
            MountFault::Meta(line) => {
                self.mode = Mode::Stopped;
                Ok(Reply::Stopped(line.0))
            }
            MountFault::PowerLost => Ok(self.interrupt(Interruption::PowerLost)),
            MountFault::Device | MountFault::Layout(_) => {
                Ok(self.interrupt(Interruption::Failed))
            }
            MountFault::Memory => {
                self.mode = Mode::Unsettled;
                Err(AllocError)
            }
        }
    }

    // What an interrupted command is answered, and the mode after it.
    pub(super) fn interrupt(&mut self, interruption: Interruption) -> Reply
        ensures state { self.new ≡ record self.old { mode = interrupted_mode interruption } }
        ensures answer { answer_of result ≡ interrupted_answer interruption }
    {
        match interruption {
            Interruption::Failed => {
                self.mode = Mode::Unsettled;
                Reply::DeviceFailed
            }
            Interruption::PowerLost => {
                self.mode = Mode::Off;
                Reply::PowerLost
            }
        }
    }
}
