// The files in order of name.
ghost use Rattle.std.specs.Prelude.{◌≡◌, ◌<◌, ◌++◌, ◌∷◌, ◌↔◌, [], IfOk, List, OnErr, OnOk, Some, length, position, true};
ghost use Rattle.std.specs.List.{Contains, insert};
ghost use Rattle.nvm_base.specs.declared.files.FileEntry.{FileEntry};
ghost use Rattle.nvm_model.specs.Listing.{is_before, put_file, rises};
ghost use Rattle.file_journal.specs.Listing.{entry_name, listed, place_of};

use crate::Journal;
use nvm_base::{FileEntry, FileList, INODES, Name};
use std::alloc::{AllocError, Global};

impl Journal {
    /// The files in order of name.
    pub fn list(&self, alloc: Global) -> Result<FileList, AllocError>
        ensures ok { IfOk result (λ list. list.items ≡ listed self.now.tables) }
        ensures order { IfOk result (λ list. rises entry_name list.items ≡ true) }
        ensures files { IfOk result (λ list. (file : FileEntry) → Contains list.items file ↔ Contains self.now.tables.files (Some file)) }
    {
        let mut list = FileList::new(alloc);
        list.reserve(self.inodes.count())?;
        // The last inode comes first.
        for done in 0..INODES {
            if let Some(file) = self.slot(INODES - 1 - done) {
                insert(&mut list, file)?;
            }
        }
        Ok(list)
    }
}

// Puts a file before those that its name comes before.
fn insert(list: &mut FileList, file: FileEntry) -> Result<(), AllocError>
    ensures ok { OnOk result (list.new.items ≡ put_file entry_name file list.old.items) }
    ensures err { OnErr result (list.new ≡ list.old) }
{
    let place = place_of(list.as_slice(), &file.name);
    list.push(file)?;
    move_last(list.as_mut_slice(), place);
    Ok(())
}

// The place of the first file that a name comes before; past the last one where there is none.
fn place_of(files: &[FileEntry], name: &Name) -> usize
    ensures { result ≡ place_of name.now files.now }
{
    first_behind(files, name).unwrap_or(files.len())
}

fn first_behind(files: &[FileEntry], name: &Name) -> Option<usize>
    ensures { result ≡ position (λ file. is_before name.now file.name) files.now }
{
    files.iter().position(|file| *name < file.name)
}

// Moves the last file to a place, and those that were there and behind it one further.
fn move_last(files: &mut [FileEntry], place: usize)
    requires { place < length files.old }
    ensures { (before : List FileEntry) (last : FileEntry) → files.old ≡ before ++ last ∷ [] → files.new ≡ insert before place last }
{
    files[place..].rotate_right(1);
}
