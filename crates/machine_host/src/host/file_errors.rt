// Media errors of files: lines that go bad or weak, bad lines that are made good again, and those that are told.
ghost use Rattle.std.specs.Prelude.{◌≡◌, ◌/◌, ◌<◌, ◌^◌, List};
ghost use Rattle.nvm_model.specs.Page.{cell_of, is_bad_cell};
ghost use Rattle.nvm_model.specs.Storage.{File};
ghost use Rattle.file_pages.specs.Object.{IsFileAt, PagesServe};
ghost use Rattle.machine_model.specs.declared.mode.Mode.TheVariants.{On};
ghost use Rattle.script_text.specs.Action.Action.{PoisonFile, WeakenFile, ClearFile, CheckFile};
ghost use Rattle.reply_text.specs.Answer.{answer_of};
ghost use Rattle.machine_model.specs.Machine.{Machine};
ghost use Rattle.machine_model.specs.OnFileErrors.{is_weak_line, is_weak_there};
ghost use Rattle.machine_host.specs.Stands.{HostServes, Stands};
ghost use Rattle.machine_host.specs.Responding.{Answered, Responds};

use super::Performer;
use super::media::{marked, weakened};
use file_pages::{FilePages, ends_past};
use line_device::LineDevice;
use marked_lines::LinesFault;
use nvm_base::{LINE, Name, PAGE, Span};
use reply_text::{Reply, Why};
use std::alloc::AllocError;

impl Performer {
    // Room for its event comes first, so that of each weak line stays.
    pub(super) fn poison_file<D: LineDevice>(
        &mut self,
        device: &mut D,
        name: &Name,
        offset: u64,
    ) -> Result<Reply, AllocError>
        requires serves { HostServes self.old (D.state device.old) }
        requires on { self.old.mode ≡ On }
        requires reach { offset < 2 ^ 32 }
        ensures { Responds (PoisonFile name.now offset) result self.old self.new (D.state device.old) (D.state device.new) }
    {
        let Some(inode) = self.files.pages.journal().find(name) else {
            return Ok(Reply::Refused(Why::Missing));
        };
        self.files.reserve_event(device)?;
        let was_bad = is_bad_in(device, &self.files.pages, inode, offset);
        let call = scrub::poison_file(device, &self.files.pages, inode, offset);
        let is_news = call.is_ok() && !was_bad;
        self.files.tell_news(name, offset / LINE, is_news);
        Ok(marked(call))
    }

    // The line may be lost by a flush, which takes no memory: room for that event comes now.
    pub(super) fn weaken_file<D: LineDevice>(
        &mut self,
        device: &mut D,
        name: &Name,
        offset: u64,
    ) -> Result<Reply, AllocError>
        requires serves { HostServes self.old (D.state device.old) }
        requires on { self.old.mode ≡ On }
        ensures { Responds (WeakenFile name.now offset) result self.old self.new (D.state device.old) (D.state device.new) }
    {
        let Some(inode) = self.files.pages.journal().find(name) else {
            return Ok(Reply::Refused(Why::Missing));
        };
        self.files.reserve_event(device)?;
        let call = scrub::weaken_file(device, &self.files.pages, inode, offset);
        weakened(call)
    }

    pub(super) fn is_weak_in_file<D: LineDevice>(&self, device: &D, name: &Name, line: u32) -> bool
        requires serves { HostServes self.now (D.state device.now) }
        requires on { self.now.mode ≡ On }
        ensures { (h : Machine) → Stands self.now (D.state device.now) h → result ≡ is_weak_there name.now line h.files }
    {
        match self.files.pages.journal().find(name) {
            Some(inode) => is_weak_in(device, &self.files.pages, inode, LINE * u64::from(line)),
            None => false,
        }
    }

    pub(super) fn clear_file<D: LineDevice>(
        &mut self,
        device: &mut D,
        name: &Name,
        offset: u64,
    ) -> Reply
        requires serves { HostServes self.old (D.state device.old) }
        requires on { self.old.mode ≡ On }
        ensures { Answered (ClearFile name.now offset) (answer_of result) self.old self.new (D.state device.old) (D.state device.new) }
    {
        match self.files.pages.journal().find(name) {
            Some(inode) => {
                let call = scrub::clear_file(device, &self.files.pages, inode, offset);
                self.cleared(call)
            }
            None => Reply::Refused(Why::Missing),
        }
    }

    pub(super) fn check_file<D: LineDevice>(
        &self,
        device: &D,
        name: &Name,
        span: Span,
    ) -> Result<Reply, AllocError>
        requires serves { HostServes self.now (D.state device.now) }
        requires on { self.now.mode ≡ On }
        ensures { Responds (CheckFile name.now span.start span.len) result self.now self.now (D.state device.now) (D.state device.now) }
    {
        let Some(inode) = self.files.pages.journal().find(name) else {
            return Ok(Reply::Refused(Why::Missing));
        };
        match marked_lines::file_lines(self.alloc, device, &self.files.pages, inode, span) {
            Ok(offsets) => Ok(Reply::BadLines(offsets)),
            Err(LinesFault::Range) => Ok(Reply::Refused(Why::Range)),
            Err(LinesFault::Length) => Ok(Reply::Refused(Why::Length)),
            Err(LinesFault::Memory) => Err(AllocError),
        }
    }
}

// Whether the line of a byte of a file is there and bad.
fn is_bad_in<D: LineDevice>(device: &D, files: &FilePages, inode: u64, offset: u64) -> bool
    requires serves { PagesServe files.now (D.state device.now).medium }
    requires inode { inode < 64 }
    ensures { (all : List File) (file : File) → IsFileAt files.now.journal (D.state device.now).medium inode all file
        → result ≡ is_bad_cell (cell_of file.pages (offset / 64)) }
{
    let byte = Span {
        start: offset,
        len: 1,
    };
    !ends_past(PAGE * files.journal().pages(inode), byte)
        && files.next_bad(device, inode, byte, 0).is_some()
}

// Whether the line of a byte of a file is there and weak.
fn is_weak_in<D: LineDevice>(device: &D, files: &FilePages, inode: u64, offset: u64) -> bool
    requires serves { PagesServe files.now (D.state device.now).medium }
    requires inode { inode < 64 }
    ensures { (all : List File) (file : File) → IsFileAt files.now.journal (D.state device.now).medium inode all file
        → result ≡ is_weak_line (cell_of file.pages (offset / 64)) }
{
    if offset >= PAGE * files.journal().pages(inode) {
        return false;
    }
    match files.line_of(inode, offset) {
        Some(line) => device.is_weak(line),
        None => false,
    }
}
