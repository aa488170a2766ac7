// Why a command is not done: the mode decides first, then the places that it names.
ghost use Rattle.std.specs.Prelude.{◌≡◌, ◌<◌, ◌+◌, ◌^◌, option_map};
ghost use Rattle.word_tables.specs.Bounds.{IsValid};
ghost use Rattle.script_text.specs.Action.{action_of};
ghost use Rattle.script_text.specs.Parsing.{InBounds};
ghost use Rattle.reply_text.specs.Answer.{answer_of};
ghost use Rattle.machine_model.specs.Lines.{bad_metadata, lowest};
ghost use Rattle.machine_host.specs.Stands.{HostServes};
ghost use Rattle.machine_model.specs.Meaning.{mode_refusal, most_refusal, span_refusal};
ghost use Rattle.machine_model.specs.Commands.{early_refusal, meaning};

use super::Performer;
use crate::Mode;
use line_device::LineDevice;
use line_words::first_bad;
use machine_model::Needs;
use nvm_base::{MOST, MOST_READ, PAGE};
use reply_text::{Reply, Why};
use script_text::Command;
use word_tables::Geometry;

/// Most blocks that are read at once.

#[tactic(auto, unfolding(machine_model::specs::Commands::early_refusal))]
impl Performer {
    // Why a command is not done, as far as the host finds that itself. It makes no counted call.
    pub(crate) fn refusal<D: LineDevice>(&self, device: &D, command: &Command) -> Option<Reply>
        requires serves { HostServes self.now (D.state device.now) }
        requires bounded { InBounds (action_of command.now) }
        ensures { option_map answer_of result ≡ early_refusal self.now.mode
            (bad_metadata self.now.geometry (D.state device.now).medium.is_bad) self.now.geometry (action_of command.now) }
    {
        match self.mode_refusal(device, needs(command)) {
            Some(reply) => Some(reply),
            None => match place_refusal(self.geometry, command) {
                Some(why) => Some(Reply::Refused(why)),
                None => None,
            },
        }
    }

    // Why the mode refuses what needs another.
    fn mode_refusal<D: LineDevice>(&self, device: &D, needs: Needs) -> Option<Reply>
        requires serves { HostServes self.now (D.state device.now) }
        ensures { option_map answer_of result ≡ mode_refusal self.now.mode
            (bad_metadata self.now.geometry (D.state device.now).medium.is_bad) needs }
    {
        match (self.mode, needs) {
            (_, Needs::Anytime)
            | (Mode::On, Needs::Usable | Needs::Powered)
            | (Mode::Off, Needs::Unpowered)
            | (Mode::Unsettled, Needs::Powered | Needs::Failed)
            | (Mode::Stopped, Needs::Powered) => None,
            (Mode::On, Needs::Unpowered | Needs::Failed)
            | (Mode::Unsettled | Mode::Stopped, Needs::Unpowered) => Some(Reply::Refused(Why::On)),
            (Mode::Off, Needs::Usable | Needs::Powered | Needs::Failed) => {
                Some(Reply::Refused(Why::Off))
            }
            (Mode::Unsettled, Needs::Usable) => Some(Reply::Refused(Why::Recover)),
            (Mode::Stopped, Needs::Usable | Needs::Failed) => {
                Some(Reply::RefusedMeta(self.lowest_bad(device)))
            }
        }
    }

    // The lowest bad line of metadata, 0 where there is none.
    fn lowest_bad<D: LineDevice>(&self, device: &D) -> u64
        requires serves { HostServes self.now (D.state device.now) }
        ensures { result ≡ lowest (bad_metadata self.now.geometry (D.state device.now).medium.is_bad) }
    {
        first_bad(device, 0, self.geometry.meta_lines()).unwrap_or(0)
    }
}

// In which modes a command is done.
fn needs(command: &Command) -> Needs
    ensures { result ≡ (meaning (action_of command.now)).needs }
{
    match command {
        Command::BRead { .. }
        | Command::BWrite { .. }
        | Command::BAtomic { .. }
        | Command::BMulti { .. }
        | Command::BDiscard { .. }
        | Command::BDiscardIf { .. }
        | Command::BExists { .. }
        | Command::BScar { .. }
        | Command::VLoad { .. }
        | Command::VStore { .. }
        | Command::VSync { .. }
        | Command::VRanges
        | Command::VPSync { .. }
        | Command::VDiscard { .. }
        | Command::VDiscardIf { .. }
        | Command::VExists { .. }
        | Command::Create { .. }
        | Command::Delete { .. }
        | Command::Rename { .. }
        | Command::Resize { .. }
        | Command::List
        | Command::FRead { .. }
        | Command::FWrite { .. }
        | Command::FAtomic { .. }
        | Command::FMulti { .. }
        | Command::FDiscard { .. }
        | Command::FSync { .. }
        | Command::Map { .. }
        | Command::Unmap { .. }
        | Command::Load { .. }
        | Command::Store { .. }
        | Command::Sync { .. }
        | Command::Flush { .. }
        | Command::FlushVerify { .. }
        | Command::DeepFlush { .. }
        | Command::NextEvent
        | Command::CheckFile { .. }
        | Command::PoisonBlock { .. }
        | Command::PoisonVolume { .. }
        | Command::PoisonFile { .. }
        | Command::WeakenFile { .. }
        | Command::WeakenVolume { .. }
        | Command::ClearFile { .. }
        | Command::ClearVolume { .. }
        | Command::Evict { .. } => Needs::Usable,
        Command::PoisonMeta { .. }
        | Command::CutIn { .. }
        | Command::FailIn { .. }
        | Command::Attr { .. } => Needs::Anytime,
        Command::Cut => Needs::Powered,
        Command::Restart { .. } => Needs::Unpowered,
        Command::Recover => Needs::Failed,
    }
}

fn place_refusal(geo: Geometry, command: &Command) -> Option<Why>
    requires valid { IsValid geo }
    requires bounded { InBounds (action_of command.now) }
    ensures { result ≡ (meaning (action_of command.now)).checked geo }
{
    match command {
        Command::BRead { block, count } => most_refusal(geo.blocks, *block, *count, MOST_READ),
        Command::VLoad { offset, len } => most_refusal(PAGE * geo.vpages, *offset, *len, MOST),
        Command::PoisonMeta { line } => (*line >= geo.meta_lines()).then_some(Why::Range),
        Command::CutIn { calls } | Command::FailIn { calls } => {
            (*calls == 0).then_some(Why::Range)
        }
        Command::BWrite { .. }
        | Command::BAtomic { .. }
        | Command::BMulti { .. }
        | Command::BDiscard { .. }
        | Command::BDiscardIf { .. }
        | Command::BExists { .. }
        | Command::BScar { .. }
        | Command::VStore { .. }
        | Command::VSync { .. }
        | Command::VRanges
        | Command::VPSync { .. }
        | Command::VDiscard { .. }
        | Command::VDiscardIf { .. }
        | Command::VExists { .. }
        | Command::Create { .. }
        | Command::Delete { .. }
        | Command::Rename { .. }
        | Command::Resize { .. }
        | Command::List
        | Command::FRead { .. }
        | Command::FWrite { .. }
        | Command::FAtomic { .. }
        | Command::FMulti { .. }
        | Command::FDiscard { .. }
        | Command::FSync { .. }
        | Command::Map { .. }
        | Command::Unmap { .. }
        | Command::Load { .. }
        | Command::Store { .. }
        | Command::Sync { .. }
        | Command::Flush { .. }
        | Command::FlushVerify { .. }
        | Command::DeepFlush { .. }
        | Command::NextEvent
        | Command::CheckFile { .. }
        | Command::PoisonBlock { .. }
        | Command::PoisonVolume { .. }
        | Command::PoisonFile { .. }
        | Command::WeakenFile { .. }
        | Command::WeakenVolume { .. }
        | Command::ClearFile { .. }
        | Command::ClearVolume { .. }
        | Command::Cut
        | Command::Restart { .. }
        | Command::Recover
        | Command::Attr { .. }
        | Command::Evict { .. } => None,
    }
}

// What is wrong with so many of something that a read asks for, where at most so many are read at once.
pub(super) fn most_refusal(size: u64, start: u64, len: u64, most: u64) -> Option<Why>
    requires { start + len < 2 ^ 64 }
    ensures { result ≡ most_refusal most size start len }
{
    match span_refusal(size, start, len) {
        Some(why) => Some(why),
        None => (len > most).then_some(Why::Limit),
    }
}

pub(super) fn span_refusal(size: u64, offset: u64, len: u64) -> Option<Why>
    requires { offset + len < 2 ^ 64 }
    ensures { result ≡ span_refusal size offset len }
{
    if offset + len > size {
        Some(Why::Range)
    } else if len == 0 {
        Some(Why::Length)
    } else {
        None
    }
}
