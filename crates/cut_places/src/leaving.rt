// The files as a cut leaves them, so that reads may be answered as is asked.
ghost use Rattle.std.specs.Prelude.{◌≡◌, IfOk, option_map, true};
ghost use Rattle.std.specs.Option.{option_copied};
ghost use Rattle.script_text.specs.Action.{action_of};
ghost use Rattle.sights.specs.AskedReads.Program.{IsBounded};
ghost use Rattle.sights.specs.AskedReads.Reads.{file_reads_asked};
ghost use Rattle.cut_places.specs.FileChanges.{change_of, lines_of};
ghost use Rattle.cut_places.specs.FileCommands.{files_change};
ghost use Rattle.cut_places.specs.FileFitting.{fit_now};
ghost use Rattle.cut_places.specs.FileLeaving.{files_left, fit_there, left_by_line, left_either, left_inside};

use crate::change::{FilesChange, LinesChange};
use crate::choosing::change_of;
use crate::files::FilesSeen;
use crate::line_leaving::leave_files;
use nvm_base::Name;
use script_text::Command;
use sights::reads_asked::FileRead;
use std::alloc::AllocError;

impl FilesSeen {
    /// What a cut that falls now leaves of them, or one inside the command: that which the reads fit, where it may leave such.
    pub fn leave(
        &self,
        reads: &[FileRead],
        inside: Option<&Command>,
    ) -> Result<FilesSeen, AllocError>
        requires bounded { IsBounded (option_copied inside) }
        ensures is { IfOk result (λ left. left ≡ files_left (option_map (files_change self.now.mappings.mappings) (option_map action_of (option_copied inside.entry)))
            (file_reads_asked reads.now) self.now) }
        ensures fits { fit_there (option_map (files_change self.now.mappings.mappings) (option_map action_of (option_copied inside.entry))) (file_reads_asked reads.now) self.now ≡ true
            → IfOk result (λ left. fit_now (file_reads_asked reads.now) left ≡ true) }
    {
        match inside {
            None => self.duplicate(),
            Some(command) => {
                let change = change_of(self.alloc, &self.maps, command)?;
                self.leave_in(reads, &change)
            }
        }
    }

    fn leave_in(
        &self,
        reads: &[FileRead],
        change: &FilesChange<'_>,
    ) -> Result<FilesSeen, AllocError>
        ensures { IfOk result (λ left. left ≡ left_inside (change_of change.now) (file_reads_asked reads.now) self.now) }
    {
        match change {
            FilesChange::Makes { .. }
            | FilesChange::Removes(_)
            | FilesChange::Renames { .. }
            | FilesChange::Resizes { .. } => self.leave_either(reads, change),
            FilesChange::Changes(name, lines) => match lines {
                LinesChange::Puts { .. } | LinesChange::Persists(_) => {
                    self.leave_by_line(reads, name, lines)
                }
                LinesChange::Rewrites { .. }
                | LinesChange::Zeroes { .. }
                | LinesChange::Clears(_) => self.leave_either(reads, change),
                LinesChange::Loses(_) | LinesChange::Weakens(_) => self.duplicate(),
            },
            FilesChange::Nothing | FilesChange::Maps(_) | FilesChange::Unmaps(_) => {
                self.duplicate()
            }
        }
    }

    // All files are old, or all are new.
    fn leave_either(
        &self,
        reads: &[FileRead],
        change: &FilesChange<'_>,
    ) -> Result<FilesSeen, AllocError>
        ensures { IfOk result (λ left. left ≡ left_either (change_of change.now) (file_reads_asked reads.now) self.now) }
    {
        let mut left = self.duplicate()?;
        if !self.fits(reads) {
            left.make(change)?;
        }
        Ok(left)
    }

    // Each line of the file of that name is old or new.
    fn leave_by_line(
        &self,
        reads: &[FileRead],
        name: &Name,
        lines: &LinesChange<'_>,
    ) -> Result<FilesSeen, AllocError>
        ensures { IfOk result (λ left. left ≡ left_by_line name.now (lines_of lines.now) (file_reads_asked reads.now) self.now) }
    {
        let mut left = self.duplicate()?;
        leave_files(&mut left.files, self.alloc, reads, name, lines)?;
        Ok(left)
    }
}
