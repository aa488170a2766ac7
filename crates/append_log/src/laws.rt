// Laws of logs after a cut, each a function without a body.
ghost use Rattle.std.specs.Prelude.{◌≡◌, ◌⊎◌, ℕ, List, Option};
ghost use Rattle.line_device.specs.Device.{Depicts};
ghost use Rattle.line_device.specs.Medium.{Medium, Survivors, last_image};
ghost use Rattle.line_device.specs.Panel.{Image};
ghost use Rattle.line_device.specs.declared.line.Choice.{Choice};
ghost use Rattle.line_words.specs.Words.{WritesBackOutside};
ghost use Rattle.word_log.specs.Area.{IsOf};
ghost use Rattle.word_tables.specs.Bounds.{IsValid};
ghost use Rattle.word_tables.specs.Layout.{meta_lines, total_lines};
ghost use Rattle.word_tables.specs.declared.geometry.Geometry.{Geometry};
ghost use Rattle.nvm_model.specs.Lines.{AreGood};
ghost use Rattle.pm_volume.specs.Area.{volume_area};
ghost use Rattle.pm_volume.specs.Left.{EachLeft};
ghost use Rattle.pm_volume.specs.Object.{VolumeServes};
ghost use Rattle.pm_volume.specs.Presence.{presence_read};
ghost use Rattle.append_log.specs.Log.{HoldsLog, LogStands, LogState};

/// A log that stands is in each image, of either survival unit. A restart and a mount of the volume find what an image has: the log
/// that stood, or after an append that was interrupted the one or the other.
pub fn the_log_is_found_again()
    ensures stands { (unit : ℕ) (s : LogState) (m : Medium) (log : List (Option (List ℕ))) → VolumeServes s.volume m → HoldsLog s m log
        → EachLeft unit s.volume.geo m (λ left. LogStands left log) }
    ensures found { (geo : Geometry) (choice : Choice) (old back new : Medium) (image : Image) (s : LogState) (one other : List (Option (List ℕ)))
        → IsValid geo → old.count ≡ total_lines geo → AreGood old (meta_lines geo)
        → EachLeft image.unit geo old (λ left. LogStands left one ⊎ LogStands left other) → Survivors image.unit choice old back → Depicts back image
        → WritesBackOutside (IsOf (volume_area geo)) back new → s.volume.geo ≡ geo → s.volume.present ≡ presence_read geo (last_image back)
        → HoldsLog s new one ⊎ HoldsLog s new other }
{}
