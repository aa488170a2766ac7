ghost use Rattle.std.specs.Prelude.{◌≡◌};
ghost use Rattle.script_text.specs.Action.{action_of};
ghost use Rattle.sights.specs.Ways.{blocks_way, lines_way};

use script_text::Command;

/// How a cut inside a command leaves what it changes.
#[derive(Clone, Copy, Debug, PartialEq, Eq)]
pub enum Way {
    /// Each line, or each block, is old or new.
    Each,
    /// All are old, or all are new.
    Together,
    /// The lines of a page are all old or all new.
    ByPage,
}

impl Way {
    /// Way of the volume's lines, None where the command changes none of them, or makes no call of the device.
    pub fn of_lines(command: &Command) -> Option<Way>
        ensures { result ≡ lines_way (action_of command.now) }
    {
        match command {
            Command::VStore { .. } | Command::VSync { .. } | Command::VPSync { .. } => {
                Some(Way::Each)
            }
            Command::VDiscard { .. } | Command::ClearVolume { .. } => Some(Way::Together),
            Command::VDiscardIf { .. } => Some(Way::ByPage),
            Command::BRead { .. }
            | Command::BWrite { .. }
            | Command::BAtomic { .. }
            | Command::BMulti { .. }
            | Command::BDiscard { .. }
            | Command::BDiscardIf { .. }
            | Command::BExists { .. }
            | Command::BScar { .. }
            | Command::VLoad { .. }
            | Command::VRanges
            | Command::VExists { .. }
            | Command::Create { .. }
            | Command::Delete { .. }
            | Command::Rename { .. }
            | Command::Resize { .. }
            | Command::List
            | Command::FRead { .. }
            | Command::FWrite { .. }
            | Command::FAtomic { .. }
            | Command::FMulti { .. }
            | Command::FDiscard { .. }
            | Command::FSync { .. }
            | Command::Map { .. }
            | Command::Unmap { .. }
            | Command::Load { .. }
            | Command::Store { .. }
            | Command::Sync { .. }
            | Command::Flush { .. }
            | Command::FlushVerify { .. }
            | Command::DeepFlush { .. }
            | Command::NextEvent
            | Command::CheckFile { .. }
            | Command::PoisonBlock { .. }
            | Command::PoisonVolume { .. }
            | Command::PoisonFile { .. }
            | Command::PoisonMeta { .. }
            | Command::WeakenFile { .. }
            | Command::WeakenVolume { .. }
            | Command::ClearFile { .. }
            | Command::Cut
            | Command::CutIn { .. }
            | Command::FailIn { .. }
            | Command::Restart { .. }
            | Command::Recover
            | Command::Attr { .. }
            | Command::Evict { .. } => None,
        }
    }

    /// Way of the blocks.
    pub fn of_blocks(command: &Command) -> Option<Way>
        ensures { result ≡ blocks_way (action_of command.now) }
    {
        match command {
            Command::BWrite { .. } | Command::BDiscardIf { .. } => Some(Way::Each),
            Command::BAtomic { .. }
            | Command::BMulti { .. }
            | Command::BDiscard { .. }
            | Command::BScar { .. } => Some(Way::Together),
            Command::BRead { .. }
            | Command::BExists { .. }
            | Command::VLoad { .. }
            | Command::VStore { .. }
            | Command::VSync { .. }
            | Command::VRanges
            | Command::VPSync { .. }
            | Command::VDiscard { .. }
            | Command::VDiscardIf { .. }
            | Command::VExists { .. }
            | Command::Create { .. }
            | Command::Delete { .. }
            | Command::Rename { .. }
            | Command::Resize { .. }
            | Command::List
            | Command::FRead { .. }
            | Command::FWrite { .. }
            | Command::FAtomic { .. }
            | Command::FMulti { .. }
            | Command::FDiscard { .. }
            | Command::FSync { .. }
            | Command::Map { .. }
            | Command::Unmap { .. }
            | Command::Load { .. }
            | Command::Store { .. }
            | Command::Sync { .. }
            | Command::Flush { .. }
            | Command::FlushVerify { .. }
            | Command::DeepFlush { .. }
            | Command::NextEvent
            | Command::CheckFile { .. }
            | Command::PoisonBlock { .. }
            | Command::PoisonVolume { .. }
            | Command::PoisonFile { .. }
            | Command::PoisonMeta { .. }
            | Command::WeakenFile { .. }
            | Command::WeakenVolume { .. }
            | Command::ClearFile { .. }
            | Command::ClearVolume { .. }
            | Command::Cut
            | Command::CutIn { .. }
            | Command::FailIn { .. }
            | Command::Restart { .. }
            | Command::Recover
            | Command::Attr { .. }
            | Command::Evict { .. } => None,
        }
    }
}
