// Media errors: lines that go bad or weak, and bad lines that are made good again.
ghost use Rattle.std.specs.Prelude.{◌≡◌, ◌<◌, Err, MatchResult};
ghost use Rattle.word_tables.specs.Layout.{meta_lines};
ghost use Rattle.machine_model.specs.declared.mode.Mode.TheVariants.{On};
ghost use Rattle.script_text.specs.Action.Action.{PoisonBlock, PoisonVolume, PoisonMeta, WeakenVolume, ClearVolume};
ghost use Rattle.reply_text.specs.Answer.{answer_of};
ghost use Rattle.reply_text.specs.Answer.Answer.{Done};
ghost use Rattle.scrub.specs.Refusals.{place_says, scrub_says, weaken_says};
ghost use Rattle.scrub.specs.declared.fault.WeakenFault.TheVariants.{Memory};
ghost use Rattle.machine_model.specs.OnMedia.{line_answer};
ghost use Rattle.machine_model.specs.Machine.{Machine, bad_of};
ghost use Rattle.machine_host.specs.Stands.{HostServes, Stands};
ghost use Rattle.machine_host.specs.Faults.{answer_after, mode_after};
ghost use Rattle.machine_host.specs.Responding.{Answered, Responds};

use super::Performer;
use line_device::LineDevice;
use line_words::Interruption;
use nvm_base::LineNo;
use reply_text::{Reply, Why};
use scrub::{PlaceFault, ScrubFault, WeakenFault, bad_count};
use std::alloc::AllocError;

impl Performer {
    pub(super) fn poison_block<D: LineDevice>(&self, device: &mut D, block: u64, line: u64) -> Reply
        requires serves { HostServes self.now (D.state device.old) }
        requires on { self.now.mode ≡ On }
        ensures { Answered (PoisonBlock block line) (answer_of result) self.now self.now (D.state device.old) (D.state device.new) }
    {
        let call = scrub::poison_block(device, &self.blocks, block, line);
        marked(call)
    }

    pub(super) fn poison_volume<D: LineDevice>(&self, device: &mut D, offset: u64) -> Reply
        requires serves { HostServes self.now (D.state device.old) }
        requires on { self.now.mode ≡ On }
        ensures { Answered (PoisonVolume offset) (answer_of result) self.now self.now (D.state device.old) (D.state device.new) }
    {
        let call = scrub::poison_volume(device, &self.volume, offset);
        marked(call)
    }

    pub(super) fn poison_meta<D: LineDevice>(&self, device: &mut D, line: u64) -> Reply
        requires serves { HostServes self.now (D.state device.old) }
        requires within { line < meta_lines self.now.geometry }
        ensures { Answered (PoisonMeta line) (answer_of result) self.now self.now (D.state device.old) (D.state device.new) }
    {
        device.poison(LineNo(line));
        Reply::Done
    }

    pub(super) fn weaken_volume<D: LineDevice>(
        &self,
        device: &mut D,
        offset: u64,
    ) -> Result<Reply, AllocError>
        requires serves { HostServes self.now (D.state device.old) }
        requires on { self.now.mode ≡ On }
        ensures { Responds (WeakenVolume offset) result self.now self.now (D.state device.old) (D.state device.new) }
    {
        let call = scrub::weaken_volume(device, &self.volume, offset);
        weakened(call)
    }

    pub(super) fn clear_volume<D: LineDevice>(&mut self, device: &mut D, offset: u64) -> Reply
        requires serves { HostServes self.old (D.state device.old) }
        requires on { self.old.mode ≡ On }
        ensures { Answered (ClearVolume offset) (answer_of result) self.old self.new (D.state device.old) (D.state device.new) }
    {
        let call = scrub::clear_volume(device, &self.volume, offset);
        self.cleared(call)
    }

    // How many lines of the blocks, pages and files that are there are bad. It makes no counted call.
    pub(super) fn bad_lines<D: LineDevice>(&self, device: &D) -> u64
        requires serves { HostServes self.now (D.state device.now) }
        requires on { self.now.mode ≡ On }
        ensures { (h : Machine) → Stands self.now (D.state device.now) h → result ≡ bad_of h }
    {
        bad_count(device, &self.blocks, &self.volume, &self.files.pages)
    }

    // What a clear is answered, and the mode after it.
    pub(super) fn cleared(&mut self, call: Result<(), ScrubFault>) -> Reply
        requires on { self.old.mode ≡ On }
        ensures state { self.new ≡ record self.old { mode = mode_after scrub_says call } }
        ensures answer { answer_of result ≡ answer_after scrub_says line_answer Done call }
    {
        match call {
            Ok(()) => Reply::Done,
            Err(ScrubFault::Range) => Reply::Refused(Why::Range),
            Err(ScrubFault::Nothing) => Reply::Refused(Why::Nothing),
            Err(ScrubFault::NotPoisoned) => Reply::Refused(Why::NotPoisoned),
            Err(ScrubFault::Device) => self.interrupt(Interruption::Failed),
            Err(ScrubFault::PowerLost) => self.interrupt(Interruption::PowerLost),
        }
    }
}

// What it is answered that a line was lost, or that there is no such line.
pub(super) fn marked(call: Result<(), PlaceFault>) -> Reply
    ensures { answer_of result ≡ answer_after place_says line_answer Done call }
{
    match call {
        Ok(()) => Reply::Done,
        Err(PlaceFault::Range) => Reply::Refused(Why::Range),
        Err(PlaceFault::Nothing) => Reply::Refused(Why::Nothing),
    }
}

// The same of a line that became weak, which may want memory.
pub(super) fn weakened(call: Result<(), WeakenFault>) -> Result<Reply, AllocError>
    ensures { MatchResult result (λ reply. (call ≡ Err Memory → ⊥) × (answer_of reply ≡ answer_after weaken_says line_answer Done call))
        (λ _. call ≡ Err Memory) }
{
    match call {
        Ok(()) => Ok(Reply::Done),
        Err(WeakenFault::Range) => Ok(Reply::Refused(Why::Range)),
        Err(WeakenFault::Nothing) => Ok(Reply::Refused(Why::Nothing)),
        Err(WeakenFault::Memory) => Err(AllocError),
    }
}
