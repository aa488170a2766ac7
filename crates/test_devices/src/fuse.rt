// A device whose power goes at a counted call of the caller's choice.
ghost use Rattle.std.specs.Prelude.{◌≡◌, ◌↔◌, false, Some, None, IsTrue};
ghost use Rattle.line_device.specs.Medium.{WritesBack};
ghost use Rattle.line_device.specs.Panel.{Runs};
ghost use Rattle.line_device.specs.Panel.Outcome.{lost};
ghost use Rattle.test_devices.specs.Fuse.{fused, fused_panel, passes_left, after_pass, behind};

use line_device::LineDevice;
use nvm_base::raise;

mod device;
mod lines;

/// Passes a number of counted calls to the inner device, and then cuts once: in place of the next one it powers the inner
/// device off.
#[derive(Drop)]
pub struct Fuse<D> {
    inner: D,
    left: Option<u64>,
    burnt: u64,
    offs: u64,
}

impl<D: LineDevice> Fuse<D> {
    pub fn new(inner: D, calls: u64) -> Self
        ensures lines { (fused D.state result).medium ≡ (D.state inner).medium }
        ensures panel { (fused D.state result).panel ≡ fused_panel (Some calls) 0 (D.state inner).panel.counts.offs (D.state inner).panel }
        ensures left { passes_left result ≡ Some calls }
        ensures behind { behind result ≡ inner }
    {
        let counts = inner.counts();
        Fuse {
            inner,
            left: Some(calls),
            burnt: 0,
            offs: counts.offs,
        }
    }

    // Whether the fuse burns in this counted call. The cut is no `power_off` of the caller's, and is not counted as one.
    fn burns(&mut self) -> bool
        requires { IsTrue (fused D.state self.old).panel.power }
        ensures left { passes_left self.new ≡ after_pass (passes_left self.old) }
        ensures burns { IsTrue result ↔ (passes_left self.old ≡ Some 0) }
        ensures lines { WritesBack (fused D.state self.old).medium (fused D.state self.new).medium }
        ensures cut { IsTrue result → Runs 1 0 lost (fused D.state self.old).panel (fused D.state self.new).panel }
        ensures passes { result ≡ false → self.new ≡ record self.old { left = after_pass (passes_left self.old) } }
    {
        match self.left {
            None => false,
            Some(0) => {
                self.left = None;
                raise(&mut self.burnt);
                self.inner.power_off();
                true
            }
            Some(calls) => {
                self.left = Some(calls - 1);
                false
            }
        }
    }
}
