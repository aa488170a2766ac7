// What was stored, made durable.
ghost use Rattle.std.specs.Prelude.{true, Some};
ghost use Rattle.nvm_model.specs.Interrupted.{MaySync};
ghost use Rattle.nvm_model.specs.Page.{persist};
ghost use Rattle.page_lines.specs.Placed.{IsPlaced};
ghost use Rattle.page_lines.specs.Turns.{WritesBackOthers};
ghost use Rattle.pm_volume.specs.Calls.{IsReady, IsServed, SyncsVolume, WorksOnLines};
ghost use Rattle.pm_volume.specs.Checked.{IsReadable};
ghost use Rattle.pm_volume.specs.Costs.{lines_there};
ghost use Rattle.pm_volume.specs.Object.{volume_place};
ghost use Rattle.pm_volume.specs.Refusals.{physical_offset, physical_refusal, sync_refusal};

use crate::{Volume, VolumeFault};
use line_device::Lines;
use line_words::Interruption;
use nvm_base::Span;
use page_lines::persist_lines;

impl Volume {
    /// Makes each line durable that the span, in bytes of the volume, touches and whose page exists. A bad one refuses all of
    /// it; a weak one becomes bad.
    pub fn sync<L: Lines>(&mut self, dev: &mut L, span: Span) -> Result<(), VolumeFault>
        requires ready { IsReady self.old (L.state dev.old) }
        ensures syncs { SyncsVolume L.state self.old self.new dev.old dev.new result
            (λ pages. sync_refusal self.old pages span.start span.len) (Some span.start) span.len }
    {
        self.check_readable(dev, span)?;
        self.settled = false;
        self.persist(dev, span)?;
        self.settled = true;
        Ok(())
    }

    /// Syncs a span of physical addresses. One that leaves the ranges is refused.
    pub fn physical_sync<L: Lines>(&mut self, dev: &mut L, span: Span) -> Result<(), VolumeFault>
        requires ready { IsReady self.old (L.state dev.old) }
        ensures syncs { SyncsVolume L.state self.old self.new dev.old dev.new result
            (λ pages. physical_refusal self.old pages span.start span.len) (physical_offset self.old.geo span.start span.len) span.len }
    {
        if span.len == 0 {
            return Err(VolumeFault::Length);
        }
        match self.ranges.offset_of_span(span) {
            Some(start) => self.sync(dev, Span { start, ..span }),
            None => Err(VolumeFault::Address),
        }
    }

    // Makes the lines of the pages that are there durable.
    fn persist<L: Lines>(&self, dev: &mut L, span: Span) -> Result<(), Interruption>
        requires served { IsServed self.now (L.state dev.old) }
        requires readable { IsReadable self.now (L.state dev.old).medium span }
        ensures works { let lines = lines_there self.now.geo self.now.present span.start span.len in
            WorksOnLines self.now (L.state dev.old) (L.state dev.new) result (persist span.start span.len) (MaySync span.start span.len) lines lines }
        ensures beside { WritesBackOthers (IsPlaced (volume_place self.now.geo self.now.present true) span.start span.len)
            (L.state dev.old).medium (L.state dev.new).medium }
    {
        let lines = self.lines(true);
        persist_lines(dev, &lines, span)
    }
}
