ghost use Rattle.std.specs.Prelude.{◌≡◌};
ghost use Rattle.script_text.specs.Action.{action_of};
ghost use Rattle.cut_places.specs.FileChanges.{left_by};
ghost use Rattle.cut_places.specs.FileCommands.{files_change};
ghost use Rattle.cut_places.specs.FileMixing.{way_left};

use crate::files::FilesSeen;
use script_text::Command;
use sights::Way;

impl FilesSeen {
    /// How a cut inside the command leaves them: each line, or all files, as they were or as it makes them; None where it leaves all as
    /// they were.
    pub fn way_inside(&self, command: &Command) -> Option<Way>
        ensures { result ≡ way_left (left_by (files_change self.now.mappings.mappings (action_of command.now))) }
    {
        match command {
            Command::Create { .. }
            | Command::Delete { .. }
            | Command::Rename { .. }
            | Command::Resize { .. }
            | Command::FAtomic { .. }
            | Command::FMulti { .. }
            | Command::FDiscard { .. }
            | Command::ClearFile { .. } => Some(Way::Together),
            Command::FWrite { .. } | Command::FSync { .. } => Some(Way::Each),
            Command::Store { handle, .. }
            | Command::Sync { handle, .. }
            | Command::Flush { handle, .. }
            | Command::FlushVerify { handle, .. }
            | Command::DeepFlush { handle, .. } => {
                if self.maps.shown(*handle).is_some() {
                    Some(Way::Each)
                } else {
                    None
                }
            }
            Command::BRead { .. }
            | Command::BWrite { .. }
            | Command::BAtomic { .. }
            | Command::BMulti { .. }
            | Command::BDiscard { .. }
            | Command::BDiscardIf { .. }
            | Command::BExists { .. }
            | Command::BScar { .. }
            | Command::VLoad { .. }
            | Command::VStore { .. }
            | Command::VSync { .. }
            | Command::VRanges
            | Command::VPSync { .. }
            | Command::VDiscard { .. }
            | Command::VDiscardIf { .. }
            | Command::VExists { .. }
            | Command::List
            | Command::FRead { .. }
            | Command::Map { .. }
            | Command::Unmap { .. }
            | Command::Load { .. }
            | Command::NextEvent
            | Command::CheckFile { .. }
            | Command::PoisonBlock { .. }
            | Command::PoisonVolume { .. }
            | Command::PoisonFile { .. }
            | Command::PoisonMeta { .. }
            | Command::WeakenFile { .. }
            | Command::WeakenVolume { .. }
            | Command::ClearVolume { .. }
            | Command::Cut
            | Command::CutIn { .. }
            | Command::FailIn { .. }
            | Command::Restart { .. }
            | Command::Recover
            | Command::Attr { .. }
            | Command::Evict { .. } => None,
        }
    }
}
