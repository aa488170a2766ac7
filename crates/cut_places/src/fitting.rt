// Whether files may be read as is asked once the power is back.
ghost use Rattle.std.specs.Prelude.{◌≡◌, IfOk, None, Some, true};
ghost use Rattle.script_text.specs.Action.{action_of};
ghost use Rattle.script_text.specs.Parsing.{InBounds};
ghost use Rattle.sights.specs.MachineModel.Commands.{refusal};
ghost use Rattle.sights.specs.MachineModel.Machine.{Machine};
ghost use Rattle.sights.specs.Durable.Durable.{IsComplete};
ghost use Rattle.sights.specs.Outcomes.Files.{each_file, files_fit};
ghost use Rattle.sights.specs.Outcomes.Left.{files_may_pass};
ghost use Rattle.sights.specs.AskedReads.Reads.{file_reads_asked};
ghost use Rattle.cut_places.specs.FileChanges.{change_of, lines_of};
ghost use Rattle.cut_places.specs.FileCommands.{files_change};
ghost use Rattle.cut_places.specs.FileFitting.{fit_by_line, fit_either, fit_inside, fit_now, now_fits, reads_pass};
ghost use Rattle.cut_places.specs.SeesFiles.{SeesFiles, are_held};

use crate::change::{FilesChange, LinesChange};
use crate::choosing::change_of;
use crate::file::FileSeen;
use crate::files::FilesSeen;
use crate::read_fits::{read_fits, read_fits_either};
use nvm_base::Name;
use script_text::Command;
use sights::reads_asked::FileRead;
use std::alloc::AllocError;

impl FilesSeen {
    /// Whether a cut that falls now may leave what these reads ask for.
    pub fn fits(&self, reads: &[FileRead]) -> bool
        ensures fits { result ≡ fit_now (file_reads_asked reads.now) self.now }
        ensures shown { (h : Machine) → SeesFiles self.now h → are_held self.now.numbers (file_reads_asked reads.now) ≡ true
            → result ≡ files_fit each_file (file_reads_asked reads.now) h.files }
    {
        all_fit(&self.files, reads)
    }

    /// Whether one that falls inside the command may.
    pub fn fits_inside(&self, reads: &[FileRead], command: &Command) -> Result<bool, AllocError>
        requires bounded { InBounds (action_of command.now) }
        ensures fits { IfOk result (λ may. may ≡ fit_inside (files_change self.now.mappings.mappings (action_of command.now)) (file_reads_asked reads.now) self.now) }
        ensures shown { (h : Machine) → SeesFiles self.now h → IsComplete h → are_held self.now.numbers (file_reads_asked reads.now) ≡ true
            → refusal h (action_of command.now) ≡ None
            → IfOk result (λ may. may ≡ files_may_pass h.mappings (Some (action_of command.now)) (file_reads_asked reads.now) h.files) }
    {
        let change = change_of(self.alloc, &self.maps, command)?;
        self.fits_in_change(reads, &change)
    }

    fn fits_in_change(
        &self,
        reads: &[FileRead],
        change: &FilesChange<'_>,
    ) -> Result<bool, AllocError>
        ensures { IfOk result (λ fit. fit ≡ fit_inside (change_of change.now) (file_reads_asked reads.now) self.now) }
    {
        match change {
            FilesChange::Makes { .. }
            | FilesChange::Removes(_)
            | FilesChange::Renames { .. }
            | FilesChange::Resizes { .. } => self.fits_either(reads, change),
            FilesChange::Changes(name, lines) => match lines {
                LinesChange::Puts { .. } | LinesChange::Persists(_) => {
                    self.fits_by_line(reads, name, lines)
                }
                LinesChange::Rewrites { .. }
                | LinesChange::Zeroes { .. }
                | LinesChange::Clears(_) => self.fits_either(reads, change),
                LinesChange::Loses(_) | LinesChange::Weakens(_) => {
                    Ok(all_fit(&self.files, reads))
                }
            },
            FilesChange::Nothing | FilesChange::Maps(_) | FilesChange::Unmaps(_) => {
                Ok(all_fit(&self.files, reads))
            }
        }
    }

    // All files are old, or all are new.
    fn fits_either(&self, reads: &[FileRead], change: &FilesChange<'_>) -> Result<bool, AllocError>
        ensures { IfOk result (λ fit. fit ≡ fit_either (change_of change.now) (file_reads_asked reads.now) self.now) }
    {
        if all_fit(&self.files, reads) {
            return Ok(true);
        }
        let mut after = self.duplicate()?;
        after.make(change)?;
        Ok(all_fit(&after.files, reads))
    }

    // Each line of the file of that name is old or new.
    fn fits_by_line(
        &self,
        reads: &[FileRead],
        name: &Name,
        lines: &LinesChange<'_>,
    ) -> Result<bool, AllocError>
        ensures { IfOk result (λ fit. fit ≡ fit_by_line name.now (lines_of lines.now) (file_reads_asked reads.now) self.now) }
    {
        for read in reads {
            if !read_fits_either(self.alloc, &self.files, reads, read, name, lines)? {
                return Ok(false);
            }
        }
        Ok(true)
    }
}

fn all_fit(files: &[FileSeen], reads: &[FileRead]) -> bool
    ensures { result ≡ reads_pass (now_fits (file_reads_asked reads.now)) (file_reads_asked reads.now) files.now }
{
    reads.iter().all(|read| read_fits(files, reads, read))
}
