// Pages that become there, or absent: one commit for all their words, and then what is kept of them in memory.
ghost use Rattle.std.specs.Prelude.{◌≡◌, ◌+◌, ◌≤◌, ◌<◌, ℕ, true, length};
ghost use Rattle.std.specs.Result.{is_ok};
ghost use Rattle.word_log.specs.Area.{IsUsable};
ghost use Rattle.word_log.specs.Commits.{Commits};
ghost use Rattle.word_log.specs.Rest.{IsAtRest};
ghost use Rattle.word_tables.specs.Bounds.{IsValid};
ghost use Rattle.word_tables.specs.Layout.{meta_lines};
ghost use Rattle.nvm_model.specs.Lines.{AreGood};
ghost use Rattle.pm_volume.specs.Area.{volume_area};
ghost use Rattle.pm_volume.specs.Calls.{HasBegun, Switches};
ghost use Rattle.pm_volume.specs.Presence.{presence_word, switched, word_changes};

use crate::Volume;
use arrayvec::ArrayVec;
use line_device::Lines;
use line_words::Interruption;
use nvm_base::Span;
use word_log::Log;
use word_tables::Geometry;

/// Words that change together: places and values.
type WordChanges = ArrayVec<(u64, u64), 256>;

impl Volume {
    // Makes pages there or absent, all of them or none.
    pub(crate) fn switch<L: Lines>(
        &mut self,
        dev: &mut L,
        pages: Span,
        there: bool,
    ) -> Result<(), Interruption>
        requires begun { HasBegun self.old (L.state dev.old) }
        requires good { AreGood (L.state dev.old).medium (meta_lines self.old.geo) }
        requires some { 0 < pages.len }
        requires within { pages.start + pages.len ≤ self.old.geo.vpages }
        ensures switches { Switches self.old self.new (L.state dev.old) (L.state dev.new) result pages there }
    {
        commit(&mut self.log, dev, self.geo, pages, there)?;
        mark(&mut self.present, pages, there);
        Ok(())
    }
}

// Gives pages their words, all of them or none.
fn commit<L: Lines>(
    log: &mut Log,
    dev: &mut L,
    geo: Geometry,
    pages: Span,
    there: bool,
) -> Result<(), Interruption>
    requires valid { IsValid geo }
    requires log { log.old ≡ record { area = volume_area geo; settled = true } }
    requires usable { IsUsable (volume_area geo) (L.state dev.old) }
    requires rest { (words : ℕ → ℕ) × IsAtRest (volume_area geo) (L.state dev.old).medium words }
    requires some { 0 < pages.len }
    requires within { pages.start + pages.len ≤ geo.vpages }
    ensures commits { Commits (volume_area geo) (L.state dev.old) (L.state dev.new) result (word_changes geo pages.start pages.len there) }
    ensures log { log.new ≡ record log.old { settled = is_ok result } }
{
    let words = word_changes(geo, pages, there);
    log.commit(dev, words.as_slice())
}

// The words of pages that become there or absent, with their places.
fn word_changes(geo: Geometry, pages: Span, there: bool) -> WordChanges
    requires valid { IsValid geo }
    requires within { pages.start + pages.len ≤ geo.vpages }
    ensures { result.items ≡ word_changes geo pages.start pages.len there }
{
    let mut words = WordChanges::new();
    for page in pages.start..pages.start + pages.len {
        words.push((geo.presence_word(page), presence_word(there)));
    }
    words
}

// The word of a page that is there or not.
fn presence_word(there: bool) -> u64
    ensures { result ≡ presence_word there }
{
    if there { 1 } else { 0 }
}

// Marks pages as there or absent.
fn mark(present: &mut Vec<bool>, pages: Span, there: bool)
    requires within { pages.start + pages.len ≤ length present.old.items }
    ensures { present.new.items ≡ switched pages.start pages.len there present.old.items }
{
    for page in pages.start..pages.start + pages.len {
        present[page as usize] = there;
    }
}
