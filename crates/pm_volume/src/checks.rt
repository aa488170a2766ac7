// When calls are refused. None of this makes a counted call.
ghost use Rattle.std.specs.Prelude.{◌≡◌, ◌+◌, ◌*◌, ◌≤◌, List, OnOk, length, true};
ghost use Rattle.word_tables.specs.Bounds.{IsValid};
ghost use Rattle.word_tables.specs.Layout.{meta_lines, total_lines};
ghost use Rattle.line_device.specs.Panel.Outcome.{went};
ghost use Rattle.line_words.specs.Told.{Checks, outcome_by};
ghost use Rattle.nvm_model.specs.Lines.{AreGood};
ghost use Rattle.nvm_model.specs.Page.{Page, touches_absent};
ghost use Rattle.page_lines.specs.declared.finding.BadLines.TheVariants as bad;
ghost use Rattle.page_lines.specs.Sought.{lowest_bad_in};
ghost use Rattle.pm_volume.specs.Object.{VolumeHolds, VolumeServes, volume_place};
ghost use Rattle.pm_volume.specs.Refusals.{discard_refusal, extent_refusal, load_refusal, metadata_refusal_if, poisoned_at, store_refusal, volume_says};
ghost use Rattle.pm_volume.specs.Checked.{IsReadable, IsStorable};

use crate::lines::PageLines;
use crate::{Volume, VolumeFault};
use line_device::Lines;
use line_words::first_bad;
use nvm_base::{LINE, LineNo, PAGE, Span};
use page_lines::{BadLines, lowest_bad};
use word_tables::Geometry;

impl Volume {
    // Whether the bytes of a span can be read or made durable.
    pub(crate) fn check_readable<L: Lines>(&self, dev: &L, span: Span) -> Result<(), VolumeFault>
        requires serves { VolumeServes self.now (L.state dev.now).medium }
        ensures refused { (pages : List Page) → VolumeHolds self.now (L.state dev.now).medium pages
            → Checks volume_says (load_refusal self.now pages span.start span.len) result }
        ensures went { outcome_by volume_says result ≡ went }
        ensures readable { OnOk result (IsReadable self.now (L.state dev.now).medium span) }
    {
        check_extent(PAGE * self.geo.vpages, span.start, span.len)?;
        let lines = self.lines(true);
        check_lines(dev, &lines, span, BadLines::All)
    }

    // Whether bytes can be stored over a span.
    pub(crate) fn check_store<L: Lines>(&self, dev: &L, span: Span) -> Result<(), VolumeFault>
        requires serves { VolumeServes self.now (L.state dev.now).medium }
        ensures refused { (pages : List Page) → VolumeHolds self.now (L.state dev.now).medium pages
            → Checks volume_says (store_refusal self.now (L.state dev.now).medium pages span.start span.len) result }
        ensures went { outcome_by volume_says result ≡ went }
        ensures storable { OnOk result (IsStorable self.now (L.state dev.now).medium span) }
    {
        check_extent(PAGE * self.geo.vpages, span.start, span.len)?;
        check_meta(dev, self.geo, self.touches_absent(span))?;
        let lines = self.lines(true);
        check_lines(dev, &lines, span, BadLines::NotCovered)
    }

    // Whether pages can be discarded.
    pub(crate) fn check_discard<L: Lines>(&self, dev: &L, pages: Span) -> Result<(), VolumeFault>
        requires serves { VolumeServes self.now (L.state dev.now).medium }
        ensures refused { Checks volume_says (discard_refusal self.now (L.state dev.now).medium pages.start pages.len) result }
        ensures some { OnOk result (1 ≤ pages.len) }
        ensures within { OnOk result (pages.start + pages.len ≤ self.now.geo.vpages) }
        ensures good { OnOk result (AreGood (L.state dev.now).medium (meta_lines self.now.geo)) }
    {
        check_extent(self.geo.vpages, pages.start, pages.len)?;
        check_meta(dev, self.geo, true)
    }
}

/// Whether a number of bytes or pages from `start` on exist, and there is at least one.
fn check_extent(size: u64, start: u64, len: u64) -> Result<(), VolumeFault>
    ensures refused { Checks volume_says (extent_refusal size start len) result }
    ensures some { OnOk result (1 ≤ len) }
    ensures within { OnOk result (start + len ≤ size) }
{
    if start > size || len > size - start {
        return Err(VolumeFault::Range);
    }
    if len == 0 {
        return Err(VolumeFault::Length);
    }
    Ok(())
}

/// Whether no line of metadata is bad, where a call changes some.
fn check_meta<L: Lines>(dev: &L, geo: Geometry, changes: bool) -> Result<(), VolumeFault>
    requires valid { IsValid geo }
    requires lines { (L.state dev.now).medium.count ≡ total_lines geo }
    ensures refused { Checks volume_says (metadata_refusal_if changes geo (L.state dev.now).medium) result }
    ensures good { OnOk result (changes ≡ true → AreGood (L.state dev.now).medium (meta_lines geo)) }
{
    if !changes {
        return Ok(());
    }
    match first_bad(dev, 0, geo.meta_lines()) {
        Some(line) => Err(VolumeFault::Meta(LineNo(line))),
        None => Ok(()),
    }
}

// Whether a search finds no bad line in the span.
fn check_lines<L: Lines>(
    dev: &L,
    lines: &PageLines<'_>,
    span: Span,
    which: BadLines,
) -> Result<(), VolumeFault>
    requires valid { IsValid lines.now.geo }
    requires all { length lines.now.present ≡ lines.now.geo.vpages }
    requires lines { (L.state dev.now).medium.count ≡ total_lines lines.now.geo }
    requires some { 1 ≤ span.len }
    requires within { span.start + span.len ≤ 4096 * lines.now.geo.vpages }
    ensures refused { Checks volume_says (poisoned_at (lowest_bad_in which (volume_place lines.now.geo lines.now.present lines.now.wanted) (L.state dev.now).medium span)) result }
{
    match lowest_bad(dev, lines, span, which) {
        Some(n) => Err(VolumeFault::Poison(LINE * n)),
        None => Ok(()),
    }
}
