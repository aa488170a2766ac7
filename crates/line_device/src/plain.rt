// A device of memory that keeps of each word its first and its last value, and never writes back by itself.
ghost use Rattle.std.specs.Prelude.{◌≡◌, ◌<◌, false, None};
ghost use Rattle.line_device.specs.Panel.{Runs, zero_counts, outcome};
ghost use Rattle.line_device.specs.Device.{Poisons};
ghost use Rattle.line_device.specs.Switches.{cut_left, fail_left, end_of, after_call};
ghost use Rattle.line_device.specs.Plain.{device_of, plain_medium, switches_of};

use crate::{DeviceFault, Switches};
use cells::Cells;
use nvm_base::LineNo;
use std::alloc::Global;

mod bytes;
mod cells;
mod device;
mod lines;

/// A device of memory. A restart by a seed keeps the durable values.
#[derive(Drop)]
pub struct Plain {
    cells: Cells,
    switches: Switches,
}

impl Plain {
    /// A device of no lines, with the power off. It takes no memory until its `reset`.
    pub fn new(alloc: Global) -> Self
        ensures lines { (device_of result).medium.count ≡ 0 }
        ensures power { (device_of result).panel.power ≡ false }
        ensures cut { cut_left (switches_of result) ≡ None }
        ensures fail { fail_left (switches_of result) ≡ None }
        ensures counts { (device_of result).panel.counts ≡ zero_counts }
    {
        Plain {
            cells: Cells::new(alloc),
            switches: Switches::default(),
        }
    }

    // Counts a call on a line, and says why it is not done.
    fn reach(&mut self, line: LineNo) -> Result<(), DeviceFault>
        requires { line.0 < (plain_medium self.old).count }
        ensures poison { Poisons line.0 ((plain_medium self.old).is_bad line.0) result }
        ensures runs { Runs 1 0 (outcome result) (device_of self.old).panel (device_of self.new).panel }
        ensures fires { outcome result ≡ end_of (switches_of self.old) }
        ensures switches { switches_of self.new ≡ after_call (switches_of self.old) }
        ensures cells { self.new.cells ≡ self.old.cells }
    {
        self.switches.count_call()?;
        if self.cells.is_bad(line) {
            return Err(DeviceFault::Poisoned(line));
        }
        Ok(())
    }
}
