// Commands on mappings of files.
ghost use Rattle.std.specs.Prelude.{◌≡◌, ◌≤◌, ◌<◌, ◌+◌, ◌^◌, IfSome, IsSome, MatchResult, drop, length, take};
ghost use Rattle.nvm_model.specs.Mappings.{copy_of};
ghost use Rattle.machine_model.specs.declared.mode.Mode.TheVariants.{On};
ghost use Rattle.script_text.specs.Action.Action.{Map, Unmap, Load, Store};
ghost use Rattle.reply_text.specs.Answer.{answer_of};
ghost use Rattle.reply_text.specs.Answer.Answer.{Bytes};
ghost use Rattle.machine_host.specs.Stands.{HostServes};
ghost use Rattle.mappings.specs.declared.fault.MapFault.TheVariants.{Memory};
ghost use Rattle.machine_host.specs.Faults.{map_fault_answer, map_fault_mode};
ghost use Rattle.machine_host.specs.Responding.{Answered, ComesTo, IsWithin, Responds, outcome_answer};

use super::Performer;
use super::refusals::{most_refusal, span_refusal};
use crate::outcome::Outcome;
use line_device::LineDevice;
use line_words::Interruption;
use mappings::MapFault;
use nvm_base::{Kind, MOST, Name, Span};
use reply_text::{Reply, Why};
use std::alloc::AllocError;

impl Performer {
    pub(super) fn map<D: LineDevice>(
        &mut self,
        device: &mut D,
        name: &Name,
        span: Span,
        kind: Kind,
    ) -> Result<Reply, AllocError>
        requires serves { HostServes self.old (D.state device.old) }
        requires on { self.old.mode ≡ On }
        ensures { Responds (Map name.now span kind) result self.old self.new (D.state device.old) (D.state device.new) }
    {
        let call = self
            .files
            .mappings
            .map(device, &mut self.files.pages, name, span, kind);
        match call {
            Ok(handle) => Ok(Reply::Handle(handle)),
            Err(fault) => self.map_fault(name, fault),
        }
    }

    pub(super) fn unmap<D: LineDevice>(&mut self, device: &D, handle: u64) -> Reply
        requires serves { HostServes self.old (D.state device.now) }
        requires on { self.old.mode ≡ On }
        ensures { Answered (Unmap handle) (answer_of result) self.old self.new (D.state device.now) (D.state device.now) }
    {
        if self.files.mappings.unmap(handle).is_err() {
            return Reply::Refused(Why::Handle);
        }
        Reply::Done
    }

    pub(super) fn load<D: LineDevice>(
        &mut self,
        device: &mut D,
        handle: u64,
        offset: u64,
        len: u64,
        work: &mut [u8],
    ) -> Outcome
        requires serves { HostServes self.old (D.state device.old) }
        requires on { self.old.mode ≡ On }
        requires small { offset + len < 2 ^ 33 }
        requires wide { length work.old ≡ 65536 }
        ensures { ComesTo (Load handle offset len) work.new result self.old self.new (D.state device.old) (D.state device.new) }
    {
        let Some(info) = self.files.mappings.get(handle) else {
            return Outcome::Reply(Reply::Refused(Why::Handle));
        };
        if let Some(why) = most_refusal(info.span.len, offset, len, MOST) {
            return Outcome::Reply(Reply::Refused(why));
        }
        match info.kind {
            Kind::Shared => self.fread(device, &info.name, info.span.start + offset, len, work),
            Kind::Private => self.load_copy(handle, offset, len, work),
        }
    }

    pub(super) fn store<D: LineDevice>(
        &mut self,
        device: &mut D,
        handle: u64,
        offset: u64,
        bytes: &[u8],
    ) -> Reply
        requires serves { HostServes self.old (D.state device.old) }
        requires on { self.old.mode ≡ On }
        requires few { length bytes.now ≤ 65536 }
        requires small { offset < 2 ^ 32 }
        ensures { Answered (Store handle offset bytes.now) (answer_of result) self.old self.new (D.state device.old) (D.state device.new) }
    {
        let Some(info) = self.files.mappings.get(handle) else {
            return Reply::Refused(Why::Handle);
        };
        if let Some(why) = span_refusal(info.span.len, offset, bytes.len() as u64) {
            return Reply::Refused(why);
        }
        match info.kind {
            Kind::Shared => self.fwrite(device, &info.name, info.span.start + offset, bytes),
            Kind::Private => {
                self.files.mappings.overwrite(handle, offset, bytes);
                Reply::Done
            }
        }
    }

    // Bytes of a private mapping, which it has.
    fn load_copy(&self, handle: u64, offset: u64, len: u64, work: &mut [u8]) -> Outcome
        requires own { IsSome (copy_of handle self.now.files.mappings.mappings) }
        requires within { IfSome (copy_of handle self.now.files.mappings.mappings) (λ copy. offset + len ≤ length copy) }
        requires few { len ≤ 65536 }
        requires wide { length work.old ≡ 65536 }
        ensures bytes { IfSome (copy_of handle self.now.files.mappings.mappings) (λ copy.
            outcome_answer work.new result ≡ Bytes (take len (drop offset copy))) }
        ensures within { IsWithin work.new result }
    {
        let Some(copy) = self.files.mappings.copy(handle) else {
            unreachable!()
        };
        let n = len as usize;
        work[..n].copy_from_slice(&copy[offset as usize..(offset + len) as usize]);
        Outcome::Read(n)
    }

    // What a fault of the mappings is answered, and the mode after it.
    fn map_fault(&mut self, name: &Name, fault: MapFault) -> Result<Reply, AllocError>
        ensures state { self.new ≡ record self.old { mode = map_fault_mode self.old.mode fault } }
        ensures answer { MatchResult result (λ reply. (fault ≡ Memory → ⊥) × (answer_of reply ≡ map_fault_answer name.now fault)) (λ _. fault ≡ Memory) }
    {
        match fault {
            MapFault::Missing => Ok(Reply::Refused(Why::Missing)),
            MapFault::Handle => Ok(Reply::Refused(Why::Handle)),
            MapFault::Range => Ok(Reply::Refused(Why::Range)),
            MapFault::Length => Ok(Reply::Refused(Why::Length)),
            MapFault::Limit => Ok(Reply::Refused(Why::Limit)),
            MapFault::Poison(offset) => Ok(Reply::PoisonFile(*name, offset)),
            MapFault::Device => Ok(self.interrupt(Interruption::Failed)),
            MapFault::PowerLost => Ok(self.interrupt(Interruption::PowerLost)),
            MapFault::Memory => Err(AllocError),
        }
    }
}
