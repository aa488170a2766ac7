// Files in order of name, as they are put, removed, renamed and changed.
ghost use Rattle.std.specs.Prelude.{◌≡◌, IfOk, OnOk, if◌then◌else◌, position};
ghost use Rattle.nvm_model.specs.Listing.{change_file, file_of, is_before, is_named, put_file, rename_file, without_file};
ghost use Rattle.std.specs.Option.{option_copied};
ghost use Rattle.cut_places.specs.FileChanges.{lines_of};
ghost use Rattle.cut_places.specs.FilesState.{lines_after, name_seen, with_name, with_pages};

use crate::change::LinesChange;
use crate::file::FileSeen;
use nvm_base::Name;
use std::alloc::{AllocError, Global};

/// The file of that name.
pub(crate) fn find<'a>(files: &'a [FileSeen], name: &Name) -> Option<&'a FileSeen>
    ensures { option_copied result ≡ file_of name_seen name.now files.now }
{
    files.iter().find(|file| file.name == *name)
}

/// Copies of the files.
pub(crate) fn copies(alloc: Global, files: &[FileSeen]) -> Result<Vec<FileSeen>, AllocError>
    ensures { IfOk result (λ copies. copies.items ≡ files.now) }
{
    let mut copies = Vec::new(alloc);
    for file in files {
        copies.push(file.duplicate(alloc)?)?;
    }
    Ok(copies)
}

/// One file more, before those that its name comes before.
pub(crate) fn put(files: &mut Vec<FileSeen>, file: FileSeen) -> Result<(), AllocError>
    ensures { OnOk result (files.new.items ≡ put_file name_seen file files.old.items) }
{
    let place = first_behind(files, &file.name).unwrap_or(files.len());
    files.insert(place, file)?;
    Ok(())
}

fn first_behind(files: &[FileSeen], name: &Name) -> Option<usize>
    ensures { result ≡ position (λ file. is_before name.now (name_seen file)) files.now }
{
    files.iter().position(|file| *name < file.name)
}

pub(crate) fn remove(files: &mut Vec<FileSeen>, name: &Name)
    ensures { files.new.items ≡ without_file name_seen name.now files.old.items }
{
    files.retain(|file| file.name != *name);
}

/// The file has another name, and the place of that one.
pub(crate) fn rename(
    files: &mut Vec<FileSeen>,
    alloc: Global,
    name: &Name,
    to: Name,
) -> Result<(), AllocError>
    ensures { OnOk result (files.new.items ≡ rename_file name_seen name.now (with_name to) files.old.items) }
{
    let renamed = match find(files, name) {
        None => return Ok(()),
        Some(file) => file.renamed(alloc, to)?,
    };
    remove(files, name);
    put(files, renamed)
}

pub(crate) fn resize(files: &mut Vec<FileSeen>, name: &Name, pages: u32)
    ensures { files.new.items ≡ change_file name_seen name.now (with_pages pages) files.old.items }
{
    for file in files.iter_mut() {
        resize_if(file, name, pages);
    }
}

fn resize_if(file: &mut FileSeen, name: &Name, pages: u32)
    ensures { file.new ≡ (if is_named name_seen name.now file.old then with_pages pages file.old else file.old) }
{
    if file.name == *name {
        file.resize(pages);
    }
}

/// The lines of that file change.
pub(crate) fn change_lines(
    files: &mut Vec<FileSeen>,
    alloc: Global,
    name: &Name,
    lines: &LinesChange<'_>,
) -> Result<(), AllocError>
    ensures { OnOk result (files.new.items ≡ change_file name_seen name.now (lines_after (lines_of lines.now)) files.old.items) }
{
    for file in files.iter_mut() {
        change_if(file, alloc, name, lines)?;
    }
    Ok(())
}

fn change_if(
    file: &mut FileSeen,
    alloc: Global,
    name: &Name,
    lines: &LinesChange<'_>,
) -> Result<(), AllocError>
    ensures { OnOk result (file.new ≡ (if is_named name_seen name.now file.old then lines_after (lines_of lines.now) file.old else file.old)) }
{
    if file.name == *name {
        file.change(alloc, lines)?;
    }
    Ok(())
}
