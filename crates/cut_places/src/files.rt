// The files of a program, and its mappings.
ghost use Rattle.std.specs.Prelude.{◌≡◌, ◌++◌, ◌∷◌, [], IfOk, None, OnOk};
ghost use Rattle.std.specs.Option.{option_copied};
ghost use Rattle.nvm_model.specs.Listing.{file_of};
ghost use Rattle.script_text.specs.Action.{action_of};
ghost use Rattle.script_text.specs.Parsing.{InBounds};
ghost use Rattle.sights.specs.MachineModel.Commands.{meaning, refusal};
ghost use Rattle.sights.specs.MachineModel.Machine.{Machine};
ghost use Rattle.sights.specs.Durable.Durable.{IsComplete};
ghost use Rattle.sights.specs.Outcomes.Stops.{led_to};
ghost use Rattle.cut_places.specs.FileChanges.{change_of};
ghost use Rattle.cut_places.specs.FileCommands.{files_change};
ghost use Rattle.cut_places.specs.SeesFiles.{SeesFiles};
ghost use Rattle.cut_places.specs.FilesState.{after, name_seen};

use crate::change::FilesChange;
use crate::choosing::change_of;
use crate::file::FileSeen;
use crate::listing::{change_lines, copies, find, put, remove, rename, resize};
use crate::maps::MapsSeen;
use nvm_base::Name;
use script_text::Command;
use std::alloc::{AllocError, Global};
use std::marker::Model;

/// The files of a program, each with the lines of the same numbers, and its mappings. Contracts speak of the states of a machine that
/// it agrees with.
#[derive(Drop)]
pub struct FilesSeen {
    pub(crate) alloc: Global,
    numbers: Vec<u32>,
    pub(crate) files: Vec<FileSeen>,
    pub(crate) maps: MapsSeen,
}

impl Model for FilesSeen {
    ghost use Rattle.cut_places.specs.FilesState.{FilesState};

    ghost Value = { FilesState };

    ghost view = { λ f. record { numbers = f.numbers.items; files = f.files.items; mappings = f.maps } };
}

impl FilesSeen {
    /// No files and no mappings. Of each file that is made, lines of these numbers are held.
    pub fn new(alloc: Global, numbers: Vec<u32>) -> Self
        ensures { result ≡ record { numbers = numbers.items; files = []; mappings = record { mappings = []; next = 0 } } }
    {
        FilesSeen {
            alloc,
            numbers,
            files: Vec::new(alloc),
            maps: MapsSeen::new(alloc),
        }
    }

    /// One file more, after the others.
    pub fn add_file(&mut self, file: FileSeen) -> Result<(), AllocError>
        ensures { OnOk result (self.new ≡ record self.old { files = self.old.files ++ file ∷ [] }) }
    {
        self.files.push(file)?;
        Ok(())
    }

    /// The file of that name.
    pub fn find(&self, name: &Name) -> Option<&FileSeen>
        ensures { option_copied result ≡ file_of name_seen name.now self.now.files }
    {
        find(&self.files, name)
    }

    /// What becomes of them once a command is done.
    pub fn change(&mut self, command: &Command) -> Result<(), AllocError>
        requires bounded { InBounds (action_of command.now) }
        ensures is { OnOk result (self.new ≡ after (files_change self.old.mappings.mappings (action_of command.now)) self.old) }
        ensures follows { (h : Machine) → SeesFiles self.old h → IsComplete h → refusal h (action_of command.now) ≡ None
            → OnOk result (SeesFiles self.new (led_to h ((meaning (action_of command.now)).comes h))) }
        ensures numbers { OnOk result (self.new.numbers ≡ self.old.numbers) }
    {
        let change = change_of(self.alloc, &self.maps, command)?;
        self.make(&change)
    }

    /// Copy of what is held of the files.
    pub fn duplicate(&self) -> Result<Self, AllocError>
        ensures { IfOk result (λ files. files ≡ self.now) }
    {
        Ok(FilesSeen {
            alloc: self.alloc,
            numbers: Vec::from_slice(self.alloc, &self.numbers)?,
            files: copies(self.alloc, &self.files)?,
            maps: self.maps.duplicate()?,
        })
    }

    pub(crate) fn make(&mut self, change: &FilesChange<'_>) -> Result<(), AllocError>
        ensures { OnOk result (self.new ≡ after (change_of change.now) self.old) }
    {
        match change {
            FilesChange::Nothing => {}
            FilesChange::Makes { name, pages } => {
                let file = FileSeen::holes(self.alloc, *name, *pages, &self.numbers)?;
                put(&mut self.files, file)?;
            }
            FilesChange::Removes(name) => remove(&mut self.files, name),
            FilesChange::Renames { name, to } => rename(&mut self.files, self.alloc, name, *to)?,
            FilesChange::Resizes { name, pages } => resize(&mut self.files, name, *pages),
            FilesChange::Changes(name, lines) => {
                change_lines(&mut self.files, self.alloc, name, lines)?;
            }
            FilesChange::Maps(stretch) => self.maps.map(*stretch)?,
            FilesChange::Unmaps(handle) => self.maps.unmap(*handle),
        }
        Ok(())
    }
}
