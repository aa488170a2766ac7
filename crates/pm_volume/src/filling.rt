// Absent pages that a store touches, made zeros together.
ghost use Rattle.std.specs.Prelude.{◌≡◌, ◌+◌, ◌*◌, ◌<◌, ◌≤◌, ◌/◌, ℕ, OnOk, Some, false, length, not, slice_get};
ghost use Rattle.std.specs.List.{list_any};
ghost use Rattle.line_device.specs.Panel.{Runs};
ghost use Rattle.line_words.specs.Ending.{ended};
ghost use Rattle.nvm_model.specs.Cell.{CellStands, zero_cell};
ghost use Rattle.nvm_model.specs.Lines.{AreGood};
ghost use Rattle.nvm_model.specs.Page.{fill, touches_absent};
ghost use Rattle.page_lines.specs.Turns.{WritesBackOthers};
ghost use Rattle.word_log.specs.Changes.{commit_calls, commit_persists};
ghost use Rattle.word_log.specs.Held.{IsEither};
ghost use Rattle.word_tables.specs.Layout.{meta_lines, volume_line};
ghost use Rattle.pm_volume.specs.Calls.{HasBegun, IsServed, Works};
ghost use Rattle.pm_volume.specs.Checked.{IsAbsentLine, IsCovered, IsStorable};
ghost use Rattle.pm_volume.specs.Costs.{fill_calls, pages_touched, store_persists};

use crate::Volume;
use line_device::Lines;
use line_words::Interruption;
use nvm_base::{LINE, PAGE, Span, pages_of};
use page_lines::clear_lines;

impl Volume {
    // Whether the span touches an absent page.
    pub(crate) fn touches_absent(&self, span: Span) -> bool
        requires some { 1 ≤ span.len }
        requires within { span.start + span.len ≤ 4096 * self.now.geo.vpages }
        ensures { result ≡ touches_absent span.start span.len self.now.present }
    {
        lacks_some(self.present.as_slice(), span)
    }

    // Makes the absent pages that a span touches zeros, where there are any.
    pub(crate) fn fill<L: Lines>(&mut self, dev: &mut L, span: Span) -> Result<(), Interruption>
        requires begun { HasBegun self.old (L.state dev.old) }
        requires storable { IsStorable self.old (L.state dev.old).medium span }
        ensures works { Works self.old self.new (L.state dev.old) (L.state dev.new) result (fill span.start span.len)
            (λ pages. IsEither pages (fill span.start span.len pages))
            (fill_calls self.old.present span.start span.len) (store_persists self.old.present span.start span.len) }
        ensures covered { OnOk result (IsCovered self.new (L.state dev.new).medium span) }
    {
        if !self.touches_absent(span) {
            return Ok(());
        }
        self.fill_absent(dev, span)
    }

    // The same where there are some: all of them become there together, once their zeros are durable.
    fn fill_absent<L: Lines>(&mut self, dev: &mut L, span: Span) -> Result<(), Interruption>
        requires begun { HasBegun self.old (L.state dev.old) }
        requires storable { IsStorable self.old (L.state dev.old).medium span }
        requires good { AreGood (L.state dev.old).medium (meta_lines self.old.geo) }
        ensures works { let count = pages_touched span.start span.len in
            Works self.old self.new (L.state dev.old) (L.state dev.new) result (fill span.start span.len)
            (λ pages. IsEither pages (fill span.start span.len pages)) (64 * count + commit_calls count) (commit_persists count) }
        ensures covered { OnOk result (IsCovered self.new (L.state dev.new).medium span) }
    {
        let pages = pages_of(span);
        self.clear_absent(dev, pages)?;
        self.switch(dev, pages, true)
    }

    // Makes the lines of those of these pages that are absent zeros.
    fn clear_absent<L: Lines>(&self, dev: &mut L, pages: Span) -> Result<(), Interruption>
        requires served { IsServed self.now (L.state dev.old) }
        requires within { pages.start + pages.len ≤ self.now.geo.vpages }
        ensures zeros { OnOk result ((n : ℕ) → pages.start ≤ n / 64 → n / 64 < pages.start + pages.len → slice_get self.now.present (n / 64) ≡ Some false
            → CellStands (L.state dev.new).medium (volume_line self.now.geo n) zero_cell) }
        ensures outside { WritesBackOthers (IsAbsentLine self.now.geo self.now.present) (L.state dev.old).medium (L.state dev.new).medium }
        ensures runs { Runs (64 * pages.len) 0 (ended result) (L.state dev.old).panel (L.state dev.new).panel }
    {
        let lines = self.lines(false);
        let size = PAGE / LINE;
        clear_lines(dev, &lines, size * pages.start, size * pages.len)
    }
}

// Whether a span touches a page that is absent.
fn lacks_some(present: &[bool], span: Span) -> bool
    requires some { 1 ≤ span.len }
    requires within { span.start + span.len ≤ 4096 * length present.now }
    requires small { length present.now ≤ 256 }
    ensures { result ≡ touches_absent span.start span.len present.now }
{
    let pages = pages_of(span);
    let first = pages.start as usize;
    lacks_one(&present[first..first + pages.len as usize])
}

// Whether one of these pages is absent.
fn lacks_one(present: &[bool]) -> bool
    ensures { result ≡ list_any not present.now }
{
    present.iter().any(|is_there| !*is_there)
}
