// The events that a mount begins with.
ghost use Rattle.std.specs.Prelude.{◌≡◌, ◌≤◌, IfOk, List};
ghost use Rattle.nvm_model.specs.Events.{restart_events, weak_file_lines};
ghost use Rattle.nvm_model.specs.Storage.{File};
ghost use Rattle.file_journal.specs.Standing.{FilesStand};
ghost use Rattle.file_pages.specs.Object.{PagesServe};

use error_events::Events;
use file_pages::FilePages;
use line_device::Lines;
use std::alloc::{AllocError, Global};

/// One event for each bad line of a file, with room for one of each weak line, which may become bad as it is made durable.
pub fn find_events<L: Lines>(
    alloc: Global,
    dev: &L,
    files: &FilePages,
) -> Result<Events, AllocError>
    requires serves { PagesServe files.now (L.state dev.now).medium }
    ensures events { IfOk result (λ events. (all : List File)
        → FilesStand files.now.journal.geo (L.state dev.now).medium files.now.journal.tables all
        → events.items ≡ restart_events all) }
    ensures room { IfOk result (λ events. (all : List File)
        → FilesStand files.now.journal.geo (L.state dev.now).medium files.now.journal.tables all
        → weak_file_lines all ≤ events.spare) }
{
    let mut events = marked_lines::events_of(alloc, dev, files)?;
    events.reserve(marked_lines::weak_in_files(dev, files.journal()))?;
    Ok(events)
}
