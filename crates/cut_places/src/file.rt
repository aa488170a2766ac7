// A file as reads see it.
ghost use Rattle.std.specs.Prelude.{◌≡◌, ◌++◌, ◌∷◌, [], IfOk, OnOk, map};
ghost use Rattle.std.specs.Option.{option_copied};
ghost use Rattle.cut_places.specs.FileChanges.{lines_of};
ghost use Rattle.cut_places.specs.FileLines.{line_held};
ghost use Rattle.cut_places.specs.FilesState.{hole_at, lines_after, with_lines, with_name, with_pages};

use crate::change::LinesChange;
use crate::line::FileLine;
use crate::lines::{change_all, copies, cut, holes};
use line_histories::HeldLine;
use nvm_base::Name;
use std::alloc::{AllocError, Global};
use std::marker::Model;

/// A file's name, how many pages it has, and those of its lines that reads look at. A line of a hole, or past the end, is one of
/// zeros.
#[derive(Drop)]
pub struct FileSeen {
    pub(crate) name: Name,
    pub(crate) pages: u32,
    pub(crate) lines: Vec<FileLine>,
}

impl Model for FileSeen {
    ghost use Rattle.cut_places.specs.FilesState.{FileState};

    ghost Value = { FileState };

    ghost view = { λ f. record { name = f.name; pages = f.pages; lines = f.lines.items } };
}

impl FileSeen {
    /// A file of which no line is held yet.
    pub fn new(alloc: Global, name: Name, pages: u32) -> Self
        ensures { result ≡ record { name = name; pages = pages; lines = [] } }
    {
        FileSeen {
            name,
            pages,
            lines: Vec::new(alloc),
        }
    }

    /// The next of its lines.
    pub fn add_line(&mut self, number: u32, line: HeldLine) -> Result<(), AllocError>
        ensures { OnOk result (self.new ≡ with_lines (self.old.lines ++ record { number = number; line = line } ∷ []) self.old) }
    {
        self.lines.push(FileLine { number, line })?;
        Ok(())
    }

    pub fn pages(&self) -> u32
        ensures { result ≡ self.now.pages }
    {
        self.pages
    }

    /// The first of its lines that has that number, if one is held.
    pub fn line(&self, number: u32) -> Option<&HeldLine>
        ensures { option_copied result ≡ line_held number self.now.lines }
    {
        let found = self.lines.iter().find(|line| line.number == number)?;
        Some(&found.line)
    }

    /// A new file: all holes, of which these lines are held.
    pub(crate) fn holes(
        alloc: Global,
        name: Name,
        pages: u32,
        numbers: &[u32],
    ) -> Result<Self, AllocError>
        ensures { IfOk result (λ file. file ≡ record { name = name; pages = pages; lines = map hole_at numbers.now }) }
    {
        Ok(FileSeen {
            name,
            pages,
            lines: holes(alloc, numbers)?,
        })
    }

    pub(crate) fn duplicate(&self, alloc: Global) -> Result<Self, AllocError>
        ensures { IfOk result (λ file. file ≡ self.now) }
    {
        self.renamed(alloc, self.name)
    }

    /// Copy of the file under another name.
    pub(crate) fn renamed(&self, alloc: Global, name: Name) -> Result<Self, AllocError>
        ensures { IfOk result (λ file. file ≡ with_name name self.now) }
    {
        Ok(FileSeen {
            name,
            pages: self.pages,
            lines: copies(alloc, &self.lines)?,
        })
    }

    /// Pages are cut, or holes added.
    pub(crate) fn resize(&mut self, pages: u32)
        ensures { self.new ≡ with_pages pages self.old }
    {
        cut(&mut self.lines, pages);
        self.pages = pages;
    }

    /// What becomes of its lines. What is past the end stays.
    pub(crate) fn change(
        &mut self,
        alloc: Global,
        change: &LinesChange<'_>,
    ) -> Result<(), AllocError>
        ensures { OnOk result (self.new ≡ lines_after (lines_of change.now) self.old) }
    {
        change_all(&mut self.lines, alloc, self.pages, change)
    }
}
