// Stores, which a cut may lose until they are synced.
ghost use Rattle.std.specs.Prelude.{◌≡◌, ◌+◌, ◌*◌, ◌≤◌, ◌^◌, List, length};
ghost use Rattle.line_words.specs.Told.{Answers};
ghost use Rattle.nvm_model.specs.Interrupted.{LineByLine, MayPut, MayStore};
ghost use Rattle.nvm_model.specs.Page.{Page, fill, put};
ghost use Rattle.pm_volume.specs.Calls.{ChangesVolume, IsReady, IsServed, WorksOnLines};
ghost use Rattle.pm_volume.specs.Checked.{IsCovered};
ghost use Rattle.pm_volume.specs.Costs.{lines_touched, store_calls, store_persists};
ghost use Rattle.pm_volume.specs.Object.{VolumeHolds};
ghost use Rattle.pm_volume.specs.Refusals.{store_refusal, volume_says};

use crate::{Volume, VolumeFault};
use line_device::Lines;
use line_words::Interruption;
use nvm_base::Span;
use page_lines::put_lines;

impl Volume {
    /// Stores bytes. Absent pages that they touch are made zeros first, all together and durably. A bad line that they cover is
    /// healthy again; one that they cover in part refuses them.
    pub fn store<L: Lines>(
        &mut self,
        dev: &mut L,
        offset: u64,
        bytes: &[u8],
    ) -> Result<(), VolumeFault>
        requires ready { IsReady self.old (L.state dev.old) }
        ensures refused { (pages : List Page) → VolumeHolds self.old (L.state dev.old).medium pages
            → Answers volume_says (store_refusal self.old (L.state dev.old).medium pages offset (length bytes.now)) result }
        ensures changes { ChangesVolume L.state self.old self.new dev.old dev.new result
            (λ pages. put offset bytes.now (fill offset (length bytes.now) pages)) (MayStore offset bytes.now)
            (store_calls self.old.present offset (length bytes.now)) (store_persists self.old.present offset (length bytes.now)) }
    {
        let span = Span {
            start: offset,
            len: bytes.len() as u64,
        };
        self.check_store(dev, span)?;
        self.settled = false;
        self.fill(dev, span)?;
        self.put(dev, offset, bytes)?;
        self.settled = true;
        Ok(())
    }

    // Stores bytes over the lines of the pages that are there.
    fn put<L: Lines>(&self, dev: &mut L, offset: u64, bytes: &[u8]) -> Result<(), Interruption>
        requires served { IsServed self.now (L.state dev.old) }
        requires some { 1 ≤ length bytes.now }
        requires within { offset + length bytes.now ≤ 4096 * self.now.geo.vpages }
        requires covered { IsCovered self.now (L.state dev.old).medium (record { start = offset; len = length bytes.now }) }
        ensures works { WorksOnLines self.now (L.state dev.old) (L.state dev.new) result
            (put offset bytes.now) (LineByLine (MayPut offset bytes.now)) (2 * lines_touched offset (length bytes.now)) 0 }
    {
        let lines = self.lines(true);
        put_lines(dev, &lines, offset, bytes)
    }
}
