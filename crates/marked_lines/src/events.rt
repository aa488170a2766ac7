// What a mount tells of lines of files that are bad.
ghost use Rattle.std.specs.Prelude.{◌≡◌, ◌++◌, ◌*◌, ◌≤◌, ℕ, IfOk, List, OnOk, length, map};
ghost use Rattle.inode_table.specs.Slots.{IsNamed, pages_at};
ghost use Rattle.nvm_model.specs.Events.{found_event, offsets_of, restart_events};
ghost use Rattle.nvm_model.specs.Storage.{File};
ghost use Rattle.file_journal.specs.Standing.{FilesStand};
ghost use Rattle.file_pages.specs.Object.{PagesServe};
ghost use Rattle.marked_lines.specs.Lines.{bad_from};

use crate::finding::bad_lines;
use error_events::{Event, Events};
use file_pages::FilePages;
use line_device::Lines;
use nvm_base::{LINE, Name, PAGE, Span};
use std::alloc::{AllocError, Global};

/// One event for each bad line of a file, in order of name and offset: that it was found.
pub fn events_of<L: Lines>(alloc: Global, dev: &L, files: &FilePages) -> Result<Events, AllocError>
    requires serves { PagesServe files.now (L.state dev.now).medium }
    ensures { IfOk result (λ events. (all : List File)
        → FilesStand files.now.journal.geo (L.state dev.now).medium files.now.journal.tables all
        → events.items ≡ restart_events all) }
{
    let mut events = Events::new(alloc);
    let list = files.journal().list(alloc)?;
    for file in list.as_slice() {
        tell_file(alloc, dev, files, &file.name, &mut events)?;
    }
    Ok(events)
}

// Adds the events of the file of that name.
fn tell_file<L: Lines>(
    alloc: Global,
    dev: &L,
    files: &FilePages,
    name: &Name,
    events: &mut Events,
) -> Result<(), AllocError>
    requires serves { PagesServe files.now (L.state dev.now).medium }
    ensures { OnOk result ((inode : ℕ) → IsNamed files.now.journal.tables.files inode name.now
        → events.new.items ≡ events.old.items ++ map (found_event name.now)
        (offsets_of (bad_from files.now.journal (L.state dev.now).medium inode 0 (64 * pages_at files.now.journal.tables.files inode)))) }
{
    let journal = files.journal();
    let Some(inode) = journal.find(name) else {
        return Ok(());
    };
    let lines = Span {
        start: 0,
        len: PAGE / LINE * journal.pages(inode),
    };
    let offsets = bad_lines(alloc, dev, files, inode, lines)?;
    events.reserve(offsets.len())?;
    push_all(events, *name, offsets.as_slice());
    Ok(())
}

// Adds an event for each of these lines of a file.
fn push_all(events: &mut Events, file: Name, offsets: &[u64])
    requires { length offsets.now ≤ events.old.spare }
    ensures { events.new.items ≡ events.old.items ++ map (found_event file) offsets.now }
{
    for offset in offsets {
        events.push(Event {
            file,
            offset: *offset,
            len: LINE,
            mapped: false,
            live: false,
        });
    }
}
