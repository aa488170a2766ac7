// Bytes of the volume as last stored.
ghost use Rattle.std.specs.Prelude.{◌≡◌, List, length};
ghost use Rattle.line_words.specs.Ending.{ended};
ghost use Rattle.line_words.specs.Told.{Answers, OnRefused, is_done, outcome_by};
ghost use Rattle.nvm_model.specs.Page.{Page};
ghost use Rattle.pm_volume.specs.Calls.{IsReady, IsServed, LoadsBytes};
ghost use Rattle.pm_volume.specs.Checked.{IsReadable};
ghost use Rattle.pm_volume.specs.Object.{VolumeHolds, VolumeServes};
ghost use Rattle.pm_volume.specs.Refusals.{load_refusal, volume_says};

use crate::{Volume, VolumeFault};
use line_device::Lines;
use line_words::Interruption;
use nvm_base::Span;
use page_lines::load_lines;

impl Volume {
    /// Loads as many bytes as fill the buffer, zeros where a page is absent. A bad line is found before the first load.
    pub fn load_into<L: Lines>(
        &mut self,
        dev: &mut L,
        offset: u64,
        out: &mut [u8],
    ) -> Result<(), VolumeFault>
        requires ready { IsReady self.old (L.state dev.old) }
        ensures refused { (pages : List Page) → VolumeHolds self.old (L.state dev.old).medium pages
            → Answers volume_says (load_refusal self.old pages offset (length out.old)) result }
        ensures untouched { OnRefused volume_says result ((out.new ≡ out.old) × (dev.new ≡ dev.old)) }
        ensures loads { LoadsBytes self.old (L.state dev.old) (L.state dev.new) result (outcome_by volume_says result) offset out.old out.new }
        ensures serves { VolumeServes self.new (L.state dev.new).medium }
        ensures object { self.new ≡ record self.old { settled = is_done (outcome_by volume_says result) } }
    {
        let span = Span {
            start: offset,
            len: out.len() as u64,
        };
        self.check_readable(dev, span)?;
        self.settled = false;
        self.load(dev, offset, out)?;
        self.settled = true;
        Ok(())
    }

    // Loads bytes that can be read.
    fn load<L: Lines>(&self, dev: &mut L, offset: u64, out: &mut [u8]) -> Result<(), Interruption>
        requires served { IsServed self.now (L.state dev.old) }
        requires readable { IsReadable self.now (L.state dev.old).medium (record { start = offset; len = length out.old }) }
        ensures loads { LoadsBytes self.now (L.state dev.old) (L.state dev.new) result (ended result) offset out.old out.new }
    {
        let lines = self.lines(true);
        load_lines(dev, &lines, offset, out)
    }
}
