// Laws of what contracts say of a volume, each a function without a body.
ghost use Rattle.std.specs.Prelude.{◌≡◌, ◌+◌, ◌<◌, ◌≤◌, ◌↔◌, ℕ, None, Some};
ghost use Rattle.line_device.specs.Medium.{Medium};
ghost use Rattle.word_tables.specs.declared.geometry.Geometry.{Geometry};
ghost use Rattle.word_tables.specs.Bounds.{IsValid};
ghost use Rattle.word_tables.specs.Layout.{volume_line};
ghost use Rattle.range_sets.specs.Ranges.{offset_of};
ghost use Rattle.nvm_model.specs.Device.{device_pages};
ghost use Rattle.pm_volume.specs.Area.{LeavesRanges, volume_ranges};
ghost use Rattle.pm_volume.specs.Object.{VolumeHolds, VolumeState};
ghost use Rattle.pm_volume.specs.Refusals.{physical_offset};

/// A device stands for pages, whichever of them exist: those of its marks and histories. So what a contract says of any
/// pages that volume and device stand for, it says of some.
pub fn a_volume_holds_pages()
    ensures { (s : VolumeState) (m : Medium) → VolumeHolds s m (device_pages (volume_line s.geo) m s.present) }
{}

/// A span of addresses has an offset unless a byte of it is in no range, and each byte of it is the volume's, in order.
pub fn addresses_are_found()
    ensures none { (geo : Geometry) (address len : ℕ) → IsValid geo → 1 ≤ len
        → (physical_offset geo address len ≡ None) ↔ LeavesRanges geo address len }
    ensures some { (geo : Geometry) (address len offset k : ℕ) → IsValid geo → physical_offset geo address len ≡ Some offset → k < len
        → offset_of (volume_ranges geo) (address + k) ≡ Some (offset + k) }
{}
