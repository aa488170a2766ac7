// The files of a host, and the media errors in them that are still to be told.
ghost use Rattle.std.specs.Prelude.{◌≡◌, ◌+◌, ◌++◌, [], ◌∷◌, ◌<◌, ◌≤◌, ◌^◌, false, All, List, OnErr, OnOk, if◌then◌else◌};
ghost use Rattle.inode_table.specs.Slots.{pages_at};
ghost use Rattle.nvm_model.specs.Events.{weak_file_lines};
ghost use Rattle.nvm_model.specs.Storage.{File};
ghost use Rattle.file_journal.specs.Object.{JournalServes};
ghost use Rattle.file_journal.specs.Standing.{FilesStand};
ghost use Rattle.flush_engine.specs.Spans.{IsWithin};
ghost use Rattle.machine_host.specs.Flushing.{HoldsLost, LinesTold};
ghost use Rattle.machine_model.specs.OnEvents.{line_event};
ghost use Rattle.machine_host.specs.Stands.{just_mounted};

use error_events::{Event, Events};
use file_pages::FilePages;
use flush_engine::next_bad;
use line_device::LineDevice;
use mappings::Mappings;
use marked_lines::weak_in_files;
use nvm_base::{LINE, Name, Span};
use std::alloc::{AllocError, Global};

/// The files of a host: the bytes of their pages, the mappings of them, and the events of their bad lines.
#[derive(Drop)]
pub struct HeldFiles {
    pub pages: FilePages,
    pub mappings: Mappings,
    pub events: Events,
}

impl HeldFiles {
    /// The files that were mounted, and the events that the mount found. It ends all mappings.
    pub(crate) fn of(alloc: Global, pages: FilePages, events: Events) -> Self
        ensures { result ≡ just_mounted pages events }
    {
        HeldFiles {
            pages,
            mappings: Mappings::new(alloc),
            events,
        }
    }

    /// Makes room for an event of each weak line, and of one line more.
    pub(crate) fn reserve_event<D: LineDevice>(&mut self, device: &D) -> Result<(), AllocError>
        requires serves { JournalServes self.old.pages.journal (D.state device.now).medium }
        ensures ok { OnOk result ((files : List File) → FilesStand self.old.pages.journal.geo (D.state device.now).medium self.old.pages.journal.tables files
            → weak_file_lines files + 1 ≤ self.new.events.spare) }
        ensures err { OnErr result (self.new ≡ self.old) }
        ensures items { self.new.events.items ≡ self.old.events.items }
        ensures spare { self.old.events.spare ≤ self.new.events.spare }
        ensures others { self.new ≡ record self.old { events = self.new.events } }
    {
        let weak = weak_in_files(device, self.pages.journal());
        self.events.reserve(weak + 1)
    }

    /// Tells that a line of a file went bad.
    pub(crate) fn tell_line(&mut self, name: &Name, line: u64)
        requires room { 0 < self.old.events.spare }
        requires reach { line < 2 ^ 30 }
        ensures items { self.new.events.items ≡ self.old.events.items ++ line_event self.old.mappings.mappings name.now line ∷ [] }
        ensures spare { self.new.events.spare + 1 ≡ self.old.events.spare }
        ensures others { self.new ≡ record self.old { events = self.new.events } }
    {
        let span = Span {
            start: LINE * line,
            len: LINE,
        };
        let mapped = self.mappings.touches(name, span);
        self.events.push(Event {
            file: *name,
            offset: span.start,
            len: span.len,
            mapped,
            live: true,
        });
    }

    /// Adds the event where it is news.
    pub(crate) fn tell_news(&mut self, name: &Name, line: u64, is_news: bool)
        requires room { 0 < self.old.events.spare }
        requires reach { line < 2 ^ 30 }
        ensures items { self.new.events.items ≡ self.old.events.items ++ (if is_news then line_event self.old.mappings.mappings name.now line ∷ [] else []) }
        ensures spare { self.old.events.spare ≤ self.new.events.spare + 1 }
        ensures silent { is_news ≡ false → self.new ≡ self.old }
        ensures others { self.new ≡ record self.old { events = self.new.events } }
    {
        if is_news {
            self.tell_line(name, line);
        }
    }

    /// Tells each line of a file that is bad and that spans touch, the lowest first.
    pub(crate) fn tell_lost<D: LineDevice>(
        &mut self,
        device: &D,
        name: &Name,
        inode: u64,
        spans: &[Span],
    )
        requires serves { JournalServes self.old.pages.journal (D.state device.now).medium }
        requires inode { inode < 64 }
        requires within { All (IsWithin (pages_at self.old.pages.journal.tables.files inode)) spans.now }
        requires room { HoldsLost self.old (D.state device.now).medium inode spans.now }
        ensures { LinesTold name.now inode spans.now (D.state device.now).medium self.old self.new }
    {
        let mut from = 0;
        while let Some(line) = next_bad(device, &self.pages, inode, spans, from) {
            self.tell_line(name, line);
            from = line + 1;
        }
    }
}
