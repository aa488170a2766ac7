// Pages that become absent.
ghost use Rattle.std.specs.Prelude.{◌+◌, ◌*◌, ◌≤◌};
ghost use Rattle.line_words.specs.Told.{Answers};
ghost use Rattle.line_words.specs.Words.{WritesBackOutside};
ghost use Rattle.nvm_model.specs.Lines.{AreGood};
ghost use Rattle.nvm_model.specs.Numbered.{AreMixed};
ghost use Rattle.nvm_model.specs.Page.{Page, discard};
ghost use Rattle.pm_volume.specs.Area.{volume_area};
ghost use Rattle.pm_volume.specs.Calls.{ChangesVolume, HasBegun, IsReady, Works};
ghost use Rattle.pm_volume.specs.Refusals.{discard_refusal, volume_says};
ghost use Rattle.word_log.specs.Area.{IsOf};
ghost use Rattle.word_log.specs.Changes.{commit_calls, commit_persists};
ghost use Rattle.word_log.specs.Held.{IsEither};
ghost use Rattle.word_tables.specs.Layout.{meta_lines};

use crate::{Volume, VolumeFault};
use line_device::Lines;
use line_words::Interruption;
use nvm_base::Span;

impl Volume {
    /// Makes pages absent, all of them or none.
    pub fn discard_now<L: Lines>(&mut self, dev: &mut L, pages: Span) -> Result<(), VolumeFault>
        requires ready { IsReady self.old (L.state dev.old) }
        ensures refused { Answers volume_says (discard_refusal self.old (L.state dev.old).medium pages.start pages.len) result }
        ensures changes { ChangesVolume L.state self.old self.new dev.old dev.new result (discard pages.start pages.len)
            (λ before. IsEither before (discard pages.start pages.len before)) (commit_calls pages.len) (commit_persists pages.len) }
        ensures beside { WritesBackOutside (IsOf (volume_area self.old.geo)) (L.state dev.old).medium (L.state dev.new).medium }
    {
        self.check_discard(dev, pages)?;
        self.settled = false;
        self.switch(dev, pages, false)?;
        self.settled = true;
        Ok(())
    }

    /// Makes pages absent one after the other: wherever the power goes, each is as it was or absent.
    pub fn discard_hint<L: Lines>(&mut self, dev: &mut L, pages: Span) -> Result<(), VolumeFault>
        requires ready { IsReady self.old (L.state dev.old) }
        ensures refused { Answers volume_says (discard_refusal self.old (L.state dev.old).medium pages.start pages.len) result }
        ensures changes { ChangesVolume L.state self.old self.new dev.old dev.new result (discard pages.start pages.len)
            (λ before. AreMixed Page before (discard pages.start pages.len before)) (11 * pages.len) (5 * pages.len) }
        ensures beside { WritesBackOutside (IsOf (volume_area self.old.geo)) (L.state dev.old).medium (L.state dev.new).medium }
    {
        self.check_discard(dev, pages)?;
        self.settled = false;
        self.discard_apart(dev, pages)?;
        self.settled = true;
        Ok(())
    }

    // Makes pages absent by a commit for each.
    fn discard_apart<L: Lines>(&mut self, dev: &mut L, pages: Span) -> Result<(), Interruption>
        requires begun { HasBegun self.old (L.state dev.old) }
        requires good { AreGood (L.state dev.old).medium (meta_lines self.old.geo) }
        requires within { pages.start + pages.len ≤ self.old.geo.vpages }
        ensures works { Works self.old self.new (L.state dev.old) (L.state dev.new) result (discard pages.start pages.len)
            (λ before. AreMixed Page before (discard pages.start pages.len before)) (11 * pages.len) (5 * pages.len) }
        ensures outside { WritesBackOutside (IsOf (volume_area self.old.geo)) (L.state dev.old).medium (L.state dev.new).medium }
    {
        for page in pages.start..pages.start + pages.len {
            self.switch(
                dev,
                Span {
                    start: page,
                    len: 1,
                },
                false,
            )?;
        }
        Ok(())
    }
}
