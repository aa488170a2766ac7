// What is known of the volume without the device.
ghost use Rattle.std.specs.Prelude.{◌≡◌, ◌+◌, ◌*◌, ◌≤◌, ◌<◌, ◌↔◌, ℕ, true, false, IfOk, IsErr, IsNone, Err, Some, option_map, slice_get};
ghost use Rattle.word_tables.specs.Bounds.{IsValid};
ghost use Rattle.pm_volume.specs.Area.{volume_ranges};
ghost use Rattle.pm_volume.specs.Object.{volume_place};
ghost use Rattle.pm_volume.specs.declared.fault.VolumeFault.TheVariants.{Range};

use crate::{Volume, VolumeFault};
use nvm_base::{LINE, LineNo, PAGE};
use range_sets::RangeSet;

impl Volume {
    /// Whether nothing stopped the last call. A volume that is not settled has to be mounted again.
    pub fn settled(&self) -> bool
        ensures { result ≡ self.now.settled }
    {
        self.settled
    }

    /// How many pages there are, absent ones among them.
    pub fn count(&self) -> u64
        ensures count { result ≡ self.now.geo.vpages }
        ensures valid { IsValid self.now.geo }
    {
        self.geo.vpages
    }

    /// The first of the 64 lines of a page, None where it is absent.
    pub fn line_of(&self, page: u64) -> Option<LineNo>
        requires { page < self.now.geo.vpages }
        ensures lines { (k : ℕ) → k < 64
            → volume_place self.now.geo self.now.present true (64 * page + k) ≡ option_map (λ line. line.0 + k) result }
        ensures none { IsNone result ↔ (slice_get self.now.present page ≡ Some false) }
    {
        if self.present[page as usize] {
            Some(LineNo(self.geo.volume_line(PAGE / LINE * page)))
        } else {
            None
        }
    }

    /// The volume's ranges of physical addresses, in bytes: byte `offset` of the volume is the set's byte `offset`.
    pub fn range_set(&self) -> &RangeSet
        ensures { result.now ≡ volume_ranges self.now.geo }
    {
        &self.ranges
    }

    /// Whether a page exists.
    pub fn exists(&self, page: u64) -> Result<bool, VolumeFault>
        ensures ok { IfOk result (λ there. slice_get self.now.present page ≡ Some there) }
        ensures refused { IsErr result → (result ≡ Err Range) × (self.now.geo.vpages ≤ page) }
    {
        match self.present.get(page as usize) {
            Some(there) => Ok(*there),
            None => Err(VolumeFault::Range),
        }
    }
}
