// A line of a file that reads look at.
ghost use Rattle.std.specs.Prelude.{◌≡◌, ◌/◌, IfOk, OnOk, nat_lt};
ghost use Rattle.nvm_model.specs.Cell.{zero_cell};
ghost use Rattle.cut_places.specs.FileChanges.{lines_of};
ghost use Rattle.cut_places.specs.FilesState.{line_after, line_of_after, line_within};

use crate::change::LinesChange;
use crate::rewriting::{rewritten, touches_any, touches_any_page};
use line_histories::HeldLine;
use nvm_base::PAGE_LINES;
use sights::is_among;
use std::alloc::{AllocError, Global};

/// The line of that number, with each value that its words may have.
#[derive(Drop)]
pub(crate) struct FileLine {
    pub number: u32,
    pub line: HeldLine,
}

impl FileLine {
    /// The line of a hole.
    pub fn hole(alloc: Global, number: u32) -> Self
        ensures { result ≡ record { number = number; line = zero_cell } }
    {
        FileLine {
            number,
            line: HeldLine::zeros(alloc),
        }
    }

    /// Copy of the line.
    pub fn duplicate(&self) -> Result<Self, AllocError>
        ensures { IfOk result (λ line. line ≡ self.now) }
    {
        Ok(FileLine {
            number: self.number,
            line: self.line.duplicate()?,
        })
    }

    /// Whether it is one of a number of pages.
    pub fn is_within(&self, pages: u32) -> bool
        ensures { result ≡ nat_lt (self.now.number / 64) pages }
    {
        u64::from(self.number) / PAGE_LINES < u64::from(pages)
    }

    /// What it is where its file has its number of pages.
    pub fn cut(&mut self, pages: u32)
        ensures { self.new ≡ line_within pages self.old }
    {
        if !self.is_within(pages) {
            self.line.reset();
        }
    }

    /// What becomes of it in a file of a number of pages. Past the end it stays.
    pub fn change_within(
        &mut self,
        alloc: Global,
        pages: u32,
        change: &LinesChange<'_>,
    ) -> Result<(), AllocError>
        ensures { OnOk result (self.new ≡ line_of_after pages (lines_of change.now) self.old) }
    {
        if self.is_within(pages) {
            self.change(alloc, change)?;
        }
        Ok(())
    }

    fn change(&mut self, alloc: Global, change: &LinesChange<'_>) -> Result<(), AllocError>
        ensures { OnOk result (self.new ≡ line_after (lines_of change.now) self.old) }
    {
        let n = u64::from(self.number);
        match change {
            LinesChange::Puts { at, bytes } => self.line.put(n, *at, bytes)?,
            LinesChange::Persists(spans) => {
                if touches_any(spans, n) {
                    self.line.flush();
                }
            }
            LinesChange::Rewrites { ranges, bytes } => {
                if touches_any_page(ranges, n / PAGE_LINES) {
                    self.line = rewritten(alloc, n, &self.line, ranges, bytes);
                }
            }
            LinesChange::Zeroes { page, count } => {
                if is_among(*page, *count, n / PAGE_LINES) {
                    self.line.reset();
                }
            }
            LinesChange::Loses(line) => {
                if n == *line {
                    self.line.lose();
                }
            }
            LinesChange::Weakens(line) => {
                if n == *line {
                    self.line.weaken();
                }
            }
            LinesChange::Clears(line) => {
                if n == *line {
                    self.line.clear();
                }
            }
        }
        Ok(())
    }
}
