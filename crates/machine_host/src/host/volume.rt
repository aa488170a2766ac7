// Commands on the volume.
ghost use Rattle.std.specs.Prelude.{◌≡◌, ◌≤◌, ◌<◌, ◌+◌, ◌*◌, ◌^◌, length};
ghost use Rattle.machine_model.specs.declared.mode.Mode.TheVariants.{On};
ghost use Rattle.script_text.specs.Action.Action.{VLoad, VStore, VSync, VRanges, VPSync, VDiscard, VDiscardIf, VExists};
ghost use Rattle.reply_text.specs.Answer.{answer_of};
ghost use Rattle.reply_text.specs.Answer.Answer.{Done};
ghost use Rattle.pm_volume.specs.Refusals.{volume_says};
ghost use Rattle.machine_model.specs.OnVolume.{volume_answer};
ghost use Rattle.machine_host.specs.Stands.{HostServes};
ghost use Rattle.machine_host.specs.Faults.{answer_after, mode_after, volume_fault_answer, volume_fault_mode};
ghost use Rattle.machine_host.specs.Responding.{Answered, ComesTo, Responds};

use super::Performer;
use crate::outcome::Outcome;
use line_device::LineDevice;
use line_words::Interruption;
use nvm_base::{Span, Spans};
use pm_volume::VolumeFault;
use reply_text::{Reply, Why};
use std::alloc::AllocError;

impl Performer {
    pub(super) fn vload<D: LineDevice>(
        &mut self,
        device: &mut D,
        offset: u64,
        len: u64,
        work: &mut [u8],
    ) -> Outcome
        requires serves { HostServes self.old (D.state device.old) }
        requires on { self.old.mode ≡ On }
        requires some { 1 ≤ len }
        requires few { len ≤ 65536 }
        requires within { offset + len ≤ 4096 * self.old.geometry.vpages }
        requires wide { length work.old ≡ 65536 }
        ensures { ComesTo (VLoad offset len) work.new result self.old self.new (D.state device.old) (D.state device.new) }
    {
        let n = len as usize;
        match self.volume.load_into(device, offset, &mut work[..n]) {
            Ok(()) => Outcome::Read(n),
            Err(fault) => Outcome::Reply(self.volume_fault(fault)),
        }
    }

    pub(super) fn vstore<D: LineDevice>(
        &mut self,
        device: &mut D,
        offset: u64,
        bytes: &[u8],
    ) -> Reply
        requires serves { HostServes self.old (D.state device.old) }
        requires on { self.old.mode ≡ On }
        ensures { Answered (VStore offset bytes.now) (answer_of result) self.old self.new (D.state device.old) (D.state device.new) }
    {
        let call = self.volume.store(device, offset, bytes);
        self.volume_answer(call)
    }

    pub(super) fn vsync<D: LineDevice>(&mut self, device: &mut D, offset: u64, len: u64) -> Reply
        requires serves { HostServes self.old (D.state device.old) }
        requires on { self.old.mode ≡ On }
        ensures { Answered (VSync offset len) (answer_of result) self.old self.new (D.state device.old) (D.state device.new) }
    {
        let call = self.volume.sync(device, Span { start: offset, len });
        self.volume_answer(call)
    }

    pub(super) fn vpsync<D: LineDevice>(&mut self, device: &mut D, address: u64, len: u64) -> Reply
        requires serves { HostServes self.old (D.state device.old) }
        requires on { self.old.mode ≡ On }
        requires small { address + len < 2 ^ 64 }
        ensures { Answered (VPSync address len) (answer_of result) self.old self.new (D.state device.old) (D.state device.new) }
    {
        let span = Span {
            start: address,
            len,
        };
        let call = self.volume.physical_sync(device, span);
        self.volume_answer(call)
    }

    pub(super) fn vdiscard<D: LineDevice>(&mut self, device: &mut D, page: u64, count: u64) -> Reply
        requires serves { HostServes self.old (D.state device.old) }
        requires on { self.old.mode ≡ On }
        ensures { Answered (VDiscard page count) (answer_of result) self.old self.new (D.state device.old) (D.state device.new) }
    {
        let span = Span {
            start: page,
            len: count,
        };
        let call = self.volume.discard_now(device, span);
        self.volume_answer(call)
    }

    pub(super) fn vdiscardif<D: LineDevice>(
        &mut self,
        device: &mut D,
        page: u64,
        count: u64,
    ) -> Reply
        requires serves { HostServes self.old (D.state device.old) }
        requires on { self.old.mode ≡ On }
        ensures { Answered (VDiscardIf page count) (answer_of result) self.old self.new (D.state device.old) (D.state device.new) }
    {
        let span = Span {
            start: page,
            len: count,
        };
        let call = self.volume.discard_hint(device, span);
        self.volume_answer(call)
    }

    pub(super) fn vexists<D: LineDevice>(&self, device: &D, page: u64) -> Reply
        requires serves { HostServes self.now (D.state device.now) }
        requires on { self.now.mode ≡ On }
        ensures { Answered (VExists page) (answer_of result) self.now self.now (D.state device.now) (D.state device.now) }
    {
        match self.volume.exists(page) {
            Ok(true) => Reply::Yes,
            Ok(false) => Reply::No,
            Err(_) => Reply::Refused(Why::Range),
        }
    }

    pub(super) fn vranges<D: LineDevice>(&mut self, device: &D) -> Result<Reply, AllocError>
        requires serves { HostServes self.old (D.state device.now) }
        requires on { self.old.mode ≡ On }
        ensures { Responds VRanges result self.old self.new (D.state device.now) (D.state device.now) }
    {
        let mut ranges = Spans::new(self.alloc);
        ranges.extend(self.volume.range_set().ranges())?;
        Ok(Reply::Ranges(ranges))
    }

    // What a call that changes the volume is answered, and the mode after it.
    fn volume_answer(&mut self, call: Result<(), VolumeFault>) -> Reply
        requires on { self.old.mode ≡ On }
        ensures state { self.new ≡ record self.old { mode = mode_after volume_says call } }
        ensures answer { answer_of result ≡ answer_after volume_says volume_answer Done call }
    {
        match call {
            Ok(()) => Reply::Done,
            Err(fault) => self.volume_fault(fault),
        }
    }

    // What a fault of the volume is answered, and the mode after it.
    fn volume_fault(&mut self, fault: VolumeFault) -> Reply
        ensures state { self.new ≡ record self.old { mode = volume_fault_mode self.old.mode fault } }
        ensures answer { answer_of result ≡ volume_fault_answer fault }
    {
        match fault {
            VolumeFault::Range => Reply::Refused(Why::Range),
            VolumeFault::Length => Reply::Refused(Why::Length),
            VolumeFault::Address => Reply::Refused(Why::Address),
            VolumeFault::Meta(line) => Reply::RefusedMeta(line.0),
            VolumeFault::Poison(offset) => Reply::PoisonVolume(offset),
            VolumeFault::Device => self.interrupt(Interruption::Failed),
            VolumeFault::PowerLost => self.interrupt(Interruption::PowerLost),
        }
    }
}
