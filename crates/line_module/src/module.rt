// A device of memory behind a cache.
ghost use Rattle.std.specs.Prelude.{◌≡◌, ◌<◌, false, None, OnOk};
ghost use Rattle.line_device.specs.Medium.{WritesBack, IsLine, Shows};
ghost use Rattle.line_device.specs.Panel.{Runs, zero_counts, outcome};
ghost use Rattle.line_device.specs.Device.{Poisons};
ghost use Rattle.line_device.specs.Switches.{cut_left, fail_left, end_of, after_call};
ghost use Rattle.line_module.specs.Memory.{memory_after_reset};
ghost use Rattle.line_module.specs.Module.{memory_of, module_medium, module_device, module_switches};

use crate::cells::Cells;
use line_device::{DeviceFault, LineState, Switches};
use nvm_base::LineNo;
use std::alloc::Global;

mod device;
mod lines;

/// A memory module. It writes back a line by itself only where a store wants room, and else where it is ordered to.
#[derive(Drop)]
pub struct Module {
    cells: Option<Cells>,
    switches: Switches,
    alloc: Global,
}

impl Module {
    /// A module of no lines, with the power off. It takes no memory until its `reset`.
    pub fn new(alloc: Global) -> Self
        ensures memory { memory_of result ≡ memory_after_reset 0 }
        ensures power { (module_device result).panel.power ≡ false }
        ensures cut { cut_left (module_switches result) ≡ None }
        ensures fail { fail_left (module_switches result) ≡ None }
        ensures counts { (module_device result).panel.counts ≡ zero_counts }
    {
        Module {
            cells: None,
            switches: Switches::default(),
            alloc,
        }
    }

    fn bad(&self, line: LineNo) -> bool
        requires { line.0 < (module_medium self.now).count }
        ensures { result ≡ (module_medium self.now).is_bad line.0 }
    {
        match &self.cells {
            Some(cells) => cells.is_bad(line),
            None => false,
        }
    }

    // Counts a call on a line, and says why it is not done.
    fn reach(&mut self, line: LineNo) -> Result<(), DeviceFault>
        requires { line.0 < (module_medium self.old).count }
        ensures poison { Poisons line.0 ((module_medium self.old).is_bad line.0) result }
        ensures runs { Runs 1 0 (outcome result) (module_device self.old).panel (module_device self.new).panel }
        ensures fires { outcome result ≡ end_of (module_switches self.old) }
        ensures switches { module_switches self.new ≡ after_call (module_switches self.old) }
        ensures lines { WritesBack (module_medium self.old) (module_medium self.new) }
        ensures memory { memory_of self.new ≡ memory_of self.old }
        ensures cells { self.new.cells ≡ self.old.cells }
    {
        self.switches.count_call()?;
        if self.bad(line) {
            return Err(DeviceFault::Poisoned(line));
        }
        Ok(())
    }

    // The bytes of a line that is not bad.
    fn bytes(&self, line: LineNo) -> &[u8]
        requires within { line.0 < (module_medium self.now).count }
        requires good { (module_medium self.now).is_bad line.0 ≡ false }
        ensures { IsLine (module_medium self.now) line.0 result.now }
    {
        match &self.cells {
            Some(cells) => cells.last(line),
            None => &[],
        }
    }

    fn shown(&self, line: LineNo) -> LineState
        requires { line.0 < (module_medium self.now).count }
        ensures { Shows (module_medium self.now) line.0 result }
    {
        match &self.cells {
            Some(cells) => cells.shown(line),
            None => LineState::Bad,
        }
    }
}
