// Each command on the device, once nothing refuses it.
ghost use Rattle.std.specs.Prelude.{◌≡◌, None, IsTrue, OnErr, length};
ghost use Rattle.script_text.specs.Action.{action_of};
ghost use Rattle.script_text.specs.Parsing.{InBounds};
ghost use Rattle.machine_model.specs.Commands.{early_refusal, longest, may_want_memory};
ghost use Rattle.machine_model.specs.Lines.{bad_metadata};
ghost use Rattle.machine_host.specs.Stands.{HostServes};
ghost use Rattle.machine_host.specs.Responding.{Performs};

use super::Performer;
use crate::outcome::Outcome;
use line_device::LineDevice;
use machine_model::Look;
use nvm_base::{BLOCK, INODES, LINE, MOST, Span};
use script_text::Command;
use std::alloc::AllocError;

/// Most lines of a file.
const MOST_LINES: u64 = 16384;

/// The most bytes that the reply's line may have.
pub fn longest_reply(command: &Command) -> u64
    requires { InBounds (action_of command.now) }
    ensures { result ≡ longest (action_of command.now) }
{
    match command {
        Command::BRead { count, .. } => 72 + 3 * (BLOCK * *count),
        Command::VLoad { len, .. } => 72 + 3 * *len,
        Command::FRead { len, .. } | Command::Load { len, .. } => 72 + 3 * (*len).min(MOST),
        Command::CheckFile { len, .. } => 72 + 21 * (*len / LINE + 2).min(MOST_LINES),
        Command::VRanges => 133,
        Command::List => 64 + 54 * INODES,
        Command::NextEvent => 128,
        Command::BWrite { .. }
        | Command::BAtomic { .. }
        | Command::BMulti { .. }
        | Command::BDiscard { .. }
        | Command::BDiscardIf { .. }
        | Command::BExists { .. }
        | Command::BScar { .. }
        | Command::VStore { .. }
        | Command::VSync { .. }
        | Command::VPSync { .. }
        | Command::VDiscard { .. }
        | Command::VDiscardIf { .. }
        | Command::VExists { .. }
        | Command::Create { .. }
        | Command::Delete { .. }
        | Command::Rename { .. }
        | Command::Resize { .. }
        | Command::FWrite { .. }
        | Command::FAtomic { .. }
        | Command::FMulti { .. }
        | Command::FDiscard { .. }
        | Command::FSync { .. }
        | Command::Map { .. }
        | Command::Unmap { .. }
        | Command::Store { .. }
        | Command::Sync { .. }
        | Command::Flush { .. }
        | Command::FlushVerify { .. }
        | Command::DeepFlush { .. }
        | Command::PoisonBlock { .. }
        | Command::PoisonVolume { .. }
        | Command::PoisonFile { .. }
        | Command::PoisonMeta { .. }
        | Command::WeakenFile { .. }
        | Command::WeakenVolume { .. }
        | Command::ClearFile { .. }
        | Command::ClearVolume { .. }
        | Command::Cut
        | Command::CutIn { .. }
        | Command::FailIn { .. }
        | Command::Restart { .. }
        | Command::Recover
        | Command::Attr { .. }
        | Command::Evict { .. } => 72,
    }
}

impl Performer {
    // Bytes that a command asks for are read into the work buffer, so that they take no memory.
    #[tactic(auto, using(machine_model::proofs::RefusalLemmas::is_on, machine_model::proofs::RefusalLemmas::is_off, machine_model::proofs::RefusalLemmas::is_powered, machine_model::proofs::RefusalLemmas::is_unsettled, machine_model::proofs::RefusalLemmas::places_right, machine_model::proofs::RefusalLemmas::span_allowed, machine_model::proofs::RefusalLemmas::read_within, machine_model::proofs::RefusalLemmas::calls_some, machine_model::proofs::RefusalLemmas::line_within))]
    pub(super) fn perform<D: LineDevice>(
        &mut self,
        device: &mut D,
        command: &Command,
        work: &mut [u8],
    ) -> Result<Outcome, AllocError>
        requires serves { HostServes self.old (D.state device.old) }
        requires bounded { InBounds (action_of command.now) }
        requires allowed { early_refusal self.old.mode (bad_metadata self.old.geometry (D.state device.old).medium.is_bad)
            self.old.geometry (action_of command.now) ≡ None }
        requires wide { length work.old ≡ 65536 }
        ensures outcome { Performs (action_of command.now) work.new result self.old self.new (D.state device.old) (D.state device.new) }
        ensures wants { OnErr result (IsTrue (may_want_memory (action_of command.now))) }
    {
        match command {
            Command::BRead { block, count } => Ok(self.bread(device, *block, *count, work)),
            Command::BWrite { block, bytes } => Ok(Outcome::Reply(self.bwrite(
                device,
                *block,
                bytes.as_slice(),
            ))),
            Command::BAtomic { block, bytes } => Ok(Outcome::Reply(self.batomic(
                device,
                *block,
                bytes.as_slice(),
            ))),
            Command::BMulti { ranges, bytes } => {
                Ok(Outcome::Reply(self.bmulti(device, ranges.as_slice(), bytes.as_slice())))
            }
            Command::BDiscard { block, count } => Ok(Outcome::Reply(self.bdiscard(
                device, *block, *count,
            ))),
            Command::BDiscardIf { block, count } => Ok(Outcome::Reply(self.bdiscardif(
                device, *block, *count,
            ))),
            Command::BExists { block } => Ok(Outcome::Reply(self.bexists(device, *block))),
            Command::BScar { ranges } => Ok(Outcome::Reply(self.bscar(device, ranges.as_slice()))),
            Command::VLoad { offset, len } => Ok(self.vload(device, *offset, *len, work)),
            Command::VStore { offset, bytes } => Ok(Outcome::Reply(self.vstore(
                device,
                *offset,
                bytes.as_slice(),
            ))),
            Command::VSync { offset, len } => Ok(Outcome::Reply(self.vsync(device, *offset, *len))),
            Command::VRanges => Ok(Outcome::Reply(self.vranges(device)?)),
            Command::VPSync { address, len } => Ok(Outcome::Reply(self.vpsync(
                device, *address, *len,
            ))),
            Command::VDiscard { page, count } => Ok(Outcome::Reply(self.vdiscard(
                device, *page, *count,
            ))),
            Command::VDiscardIf { page, count } => Ok(Outcome::Reply(self.vdiscardif(
                device, *page, *count,
            ))),
            Command::VExists { page } => Ok(Outcome::Reply(self.vexists(device, *page))),
            Command::Create { name, pages } => Ok(Outcome::Reply(self.create(
                device, name, *pages,
            ))),
            Command::Delete { name } => Ok(Outcome::Reply(self.delete(device, name))),
            Command::Rename { name, to } => Ok(Outcome::Reply(self.rename(device, name, to))),
            Command::Resize { name, pages } => Ok(Outcome::Reply(self.resize(
                device, name, *pages,
            ))),
            Command::List => Ok(Outcome::Reply(self.list(device)?)),
            Command::FRead { name, offset, len } => Ok(self.fread(
                device, name, *offset, *len, work,
            )),
            Command::FWrite {
                name,
                offset,
                bytes,
            } => Ok(Outcome::Reply(self.fwrite(device, name, *offset, bytes.as_slice()))),
            Command::FAtomic {
                name,
                offset,
                bytes,
            } => Ok(Outcome::Reply(self.fatomic(device, name, *offset, bytes.as_slice()))),
            Command::FMulti {
                name,
                ranges,
                bytes,
            } => Ok(Outcome::Reply(self.fmulti(device, name, ranges.as_slice(), bytes.as_slice()))),
            Command::FDiscard { name, page, count } => {
                let pages = Span {
                    start: *page,
                    len: *count,
                };
                Ok(Outcome::Reply(self.fdiscard(device, name, pages)))
            }
            Command::FSync { name } => Ok(Outcome::Reply(self.fsync(device, name))),
            Command::Map { name, span, kind } => Ok(Outcome::Reply(self.map(
                device, name, *span, *kind,
            )?)),
            Command::Unmap { handle } => Ok(Outcome::Reply(self.unmap(device, *handle))),
            Command::Load {
                handle,
                offset,
                len,
            } => Ok(self.load(device, *handle, *offset, *len, work)),
            Command::Store {
                handle,
                offset,
                bytes,
            } => Ok(Outcome::Reply(self.store(device, *handle, *offset, bytes.as_slice()))),
            Command::Sync {
                handle,
                offset,
                len,
            } => {
                let span = Span {
                    start: *offset,
                    len: *len,
                };
                Ok(Outcome::Reply(self.flush(device, *handle, &[span], Look::Once)))
            }
            Command::Flush { handle, spans } | Command::DeepFlush { handle, spans } => {
                Ok(Outcome::Reply(self.flush(device, *handle, spans.as_slice(), Look::Once)))
            }
            Command::FlushVerify { handle, spans } => {
                Ok(Outcome::Reply(self.flush(device, *handle, spans.as_slice(), Look::Again)))
            }
            Command::NextEvent => Ok(Outcome::Reply(self.next_event(device))),
            Command::CheckFile { name, offset, len } => {
                let span = Span {
                    start: *offset,
                    len: *len,
                };
                Ok(Outcome::Reply(self.check_file(device, name, span)?))
            }
            Command::PoisonBlock { block, line } => Ok(Outcome::Reply(self.poison_block(
                device, *block, *line,
            ))),
            Command::PoisonVolume { offset } => Ok(Outcome::Reply(self.poison_volume(
                device, *offset,
            ))),
            Command::PoisonFile { name, offset } => Ok(Outcome::Reply(self.poison_file(
                device, name, *offset,
            )?)),
            Command::PoisonMeta { line } => Ok(Outcome::Reply(self.poison_meta(device, *line))),
            Command::WeakenFile { name, offset } => Ok(Outcome::Reply(self.weaken_file(
                device, name, *offset,
            )?)),
            Command::WeakenVolume { offset } => Ok(Outcome::Reply(self.weaken_volume(
                device, *offset,
            )?)),
            Command::ClearFile { name, offset } => Ok(Outcome::Reply(self.clear_file(
                device, name, *offset,
            ))),
            Command::ClearVolume { offset } => Ok(Outcome::Reply(self.clear_volume(
                device, *offset,
            ))),
            Command::Cut => Ok(Outcome::Reply(self.cut(device))),
            Command::CutIn { calls } => Ok(Outcome::Reply(self.cut_in(device, *calls))),
            Command::FailIn { calls } => Ok(Outcome::Reply(self.fail_in(device, *calls))),
            Command::Restart { choice } => Ok(Outcome::Reply(self.restart(device, *choice)?)),
            Command::Recover => Ok(Outcome::Reply(self.recover(device)?)),
            Command::Attr { name } => Ok(Outcome::Reply(self.attr(device, name.as_slice()))),
            Command::Evict { lines } => Ok(Outcome::Reply(self.evict(device, *lines))),
        }
    }
}
