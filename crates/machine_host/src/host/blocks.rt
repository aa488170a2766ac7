// Commands on blocks.
ghost use Rattle.std.specs.Prelude.{◌≡◌, ◌≤◌, ◌<◌, ◌+◌, length, sum_by};
ghost use Rattle.nvm_base.specs.declared.units.Span.{Span as Stretch};
ghost use Rattle.machine_model.specs.declared.mode.Mode.TheVariants.{On};
ghost use Rattle.script_text.specs.Action.Action.{BRead, BWrite, BAtomic, BMulti, BDiscard, BDiscardIf, BExists, BScar};
ghost use Rattle.reply_text.specs.Answer.{answer_of};
ghost use Rattle.reply_text.specs.Answer.Answer.{Done};
ghost use Rattle.block_device.specs.Refusals.{block_says};
ghost use Rattle.machine_model.specs.OnBlocks.{refusal_answer};
ghost use Rattle.machine_host.specs.Stands.{HostServes};
ghost use Rattle.machine_host.specs.Faults.{answer_after, fault_answer, fault_mode, mode_after};
ghost use Rattle.machine_host.specs.Responding.{Answered, ComesTo};

use super::Performer;
use crate::outcome::Outcome;
use block_device::BlockFault;
use line_device::LineDevice;
use line_words::Interruption;
use nvm_base::{BLOCK, Span};
use reply_text::{Reply, Why};

impl Performer {
    pub(super) fn bread<D: LineDevice>(
        &mut self,
        device: &mut D,
        block: u64,
        count: u64,
        work: &mut [u8],
    ) -> Outcome
        requires serves { HostServes self.old (D.state device.old) }
        requires on { self.old.mode ≡ On }
        requires some { 1 ≤ count }
        requires few { count ≤ 128 }
        requires within { block + count ≤ self.old.geometry.blocks }
        requires wide { length work.old ≡ 65536 }
        ensures { ComesTo (BRead block count) work.new result self.old self.new (D.state device.old) (D.state device.new) }
    {
        let n = (BLOCK * count) as usize;
        match self.blocks.read_into(device, block, &mut work[..n]) {
            Ok(()) => Outcome::Read(n),
            Err(fault) => Outcome::Reply(self.fault(fault)),
        }
    }

    pub(super) fn bwrite<D: LineDevice>(
        &mut self,
        device: &mut D,
        block: u64,
        bytes: &[u8],
    ) -> Reply
        requires serves { HostServes self.old (D.state device.old) }
        requires on { self.old.mode ≡ On }
        ensures { Answered (BWrite block bytes.now) (answer_of result) self.old self.new (D.state device.old) (D.state device.new) }
    {
        let call = self.blocks.write(device, block, bytes);
        self.answer(call)
    }

    pub(super) fn batomic<D: LineDevice>(
        &mut self,
        device: &mut D,
        block: u64,
        bytes: &[u8],
    ) -> Reply
        requires serves { HostServes self.old (D.state device.old) }
        requires on { self.old.mode ≡ On }
        ensures { Answered (BAtomic block bytes.now) (answer_of result) self.old self.new (D.state device.old) (D.state device.new) }
    {
        let call = self.blocks.atomic_write(device, block, bytes);
        self.answer(call)
    }

    pub(super) fn bmulti<D: LineDevice>(
        &mut self,
        device: &mut D,
        ranges: &[Span],
        bytes: &[u8],
    ) -> Reply
        requires serves { HostServes self.old (D.state device.old) }
        requires on { self.old.mode ≡ On }
        requires some { 0 < length ranges.now }
        requires bytes { length bytes.now ≡ sum_by (λ (r : Stretch). r.len) ranges.now }
        ensures { Answered (BMulti ranges.now bytes.now) (answer_of result) self.old self.new (D.state device.old) (D.state device.new) }
    {
        let call = self.blocks.atomic_multiwrite(device, ranges, bytes);
        self.answer(call)
    }

    pub(super) fn bdiscard<D: LineDevice>(
        &mut self,
        device: &mut D,
        block: u64,
        count: u64,
    ) -> Reply
        requires serves { HostServes self.old (D.state device.old) }
        requires on { self.old.mode ≡ On }
        ensures { Answered (BDiscard block count) (answer_of result) self.old self.new (D.state device.old) (D.state device.new) }
    {
        let span = Span {
            start: block,
            len: count,
        };
        let call = self.blocks.discard_now(device, span);
        self.answer(call)
    }

    pub(super) fn bdiscardif<D: LineDevice>(
        &mut self,
        device: &mut D,
        block: u64,
        count: u64,
    ) -> Reply
        requires serves { HostServes self.old (D.state device.old) }
        requires on { self.old.mode ≡ On }
        ensures { Answered (BDiscardIf block count) (answer_of result) self.old self.new (D.state device.old) (D.state device.new) }
    {
        let span = Span {
            start: block,
            len: count,
        };
        let call = self.blocks.discard_hint(device, span);
        self.answer(call)
    }

    pub(super) fn bscar<D: LineDevice>(&mut self, device: &mut D, spans: &[Span]) -> Reply
        requires serves { HostServes self.old (D.state device.old) }
        requires on { self.old.mode ≡ On }
        requires some { 0 < length spans.now }
        ensures { Answered (BScar spans.now) (answer_of result) self.old self.new (D.state device.old) (D.state device.new) }
    {
        let call = self.blocks.scar(device, spans);
        self.answer(call)
    }

    pub(super) fn bexists<D: LineDevice>(&self, device: &D, block: u64) -> Reply
        requires serves { HostServes self.now (D.state device.now) }
        requires on { self.now.mode ≡ On }
        ensures { Answered (BExists block) (answer_of result) self.now self.now (D.state device.now) (D.state device.now) }
    {
        match self.blocks.exists(block) {
            Ok(true) => Reply::Yes,
            Ok(false) => Reply::No,
            Err(_) => Reply::Refused(Why::Range),
        }
    }

    // What a call that changes blocks is answered, and the mode after it.
    fn answer(&mut self, call: Result<(), BlockFault>) -> Reply
        requires on { self.old.mode ≡ On }
        ensures state { self.new ≡ record self.old { mode = mode_after block_says call } }
        ensures answer { answer_of result ≡ answer_after block_says refusal_answer Done call }
    {
        match call {
            Ok(()) => Reply::Done,
            Err(fault) => self.fault(fault),
        }
    }

    // What a fault of the blocks is answered, and the mode after it.
    fn fault(&mut self, fault: BlockFault) -> Reply
        ensures state { self.new ≡ record self.old { mode = fault_mode self.old.mode fault } }
        ensures answer { answer_of result ≡ fault_answer fault }
    {
        match fault {
            BlockFault::Range => Reply::Refused(Why::Range),
            BlockFault::Length => Reply::Refused(Why::Length),
            BlockFault::Limit => Reply::Refused(Why::Limit),
            BlockFault::Overlap => Reply::Refused(Why::Overlap),
            BlockFault::Meta(line) => Reply::RefusedMeta(line.0),
            BlockFault::Scarred(block) => Reply::Scarred(block),
            BlockFault::Poison(block, line) => Reply::PoisonBlock(block, line),
            BlockFault::Device => self.interrupt(Interruption::Failed),
            BlockFault::PowerLost => self.interrupt(Interruption::PowerLost),
        }
    }
}
