// Commands on files.
ghost use Rattle.std.specs.Prelude.{◌≡◌, false};
ghost use Rattle.nvm_model.specs.Mappings.{is_mapped};
ghost use Rattle.machine_model.specs.declared.mode.Mode.TheVariants.{On};
ghost use Rattle.script_text.specs.Action.Action.{Create, Delete, Rename, Resize, ListFiles};
ghost use Rattle.reply_text.specs.Answer.{answer_of};
ghost use Rattle.reply_text.specs.Answer.Answer.{Done};
ghost use Rattle.file_journal.specs.Refusals.{journal_says};
ghost use Rattle.machine_model.specs.OnFiles.{journal_answer};
ghost use Rattle.machine_host.specs.Stands.{HostServes};
ghost use Rattle.machine_host.specs.Faults.{answer_after, mode_after, journal_fault_answer, journal_fault_mode};
ghost use Rattle.machine_host.specs.Responding.{Answered, Responds};

use super::Performer;
use file_journal::JournalFault;
use line_device::LineDevice;
use line_words::Interruption;
use nvm_base::Name;
use reply_text::{Reply, Why};
use std::alloc::AllocError;

impl Performer {
    pub(super) fn create<D: LineDevice>(&mut self, device: &mut D, name: &Name, pages: u64) -> Reply
        requires serves { HostServes self.old (D.state device.old) }
        requires on { self.old.mode ≡ On }
        ensures { Answered (Create name.now pages) (answer_of result) self.old self.new (D.state device.old) (D.state device.new) }
    {
        let _is_name = name.bytes();
        let call = self.files.pages.journal_mut().create(device, name, pages);
        self.journal_answer(call)
    }

    pub(super) fn delete<D: LineDevice>(&mut self, device: &mut D, name: &Name) -> Reply
        requires serves { HostServes self.old (D.state device.old) }
        requires on { self.old.mode ≡ On }
        ensures { Answered (Delete name.now) (answer_of result) self.old self.new (D.state device.old) (D.state device.new) }
    {
        if self.files.mappings.has(name) {
            return Reply::Refused(Why::Mapped);
        }
        self.delete_unmapped(device, name)
    }

    // The same of a file that has no mapping, as in the next two.
    fn delete_unmapped<D: LineDevice>(&mut self, device: &mut D, name: &Name) -> Reply
        requires serves { HostServes self.old (D.state device.old) }
        requires on { self.old.mode ≡ On }
        requires free { is_mapped name.now self.old.files.mappings.mappings ≡ false }
        ensures { Answered (Delete name.now) (answer_of result) self.old self.new (D.state device.old) (D.state device.new) }
    {
        let call = self.files.pages.journal_mut().delete(device, name);
        self.journal_answer(call)
    }

    pub(super) fn rename<D: LineDevice>(&mut self, device: &mut D, name: &Name, to: &Name) -> Reply
        requires serves { HostServes self.old (D.state device.old) }
        requires on { self.old.mode ≡ On }
        ensures { Answered (Rename name.now to.now) (answer_of result) self.old self.new (D.state device.old) (D.state device.new) }
    {
        if !self.files.mappings.has(name) {
            return self.rename_unmapped(device, name, to);
        }
        if self.files.pages.journal().find(to).is_some() {
            return Reply::Refused(Why::Exists);
        }
        Reply::Refused(Why::Mapped)
    }

    fn rename_unmapped<D: LineDevice>(&mut self, device: &mut D, name: &Name, to: &Name) -> Reply
        requires serves { HostServes self.old (D.state device.old) }
        requires on { self.old.mode ≡ On }
        requires free { is_mapped name.now self.old.files.mappings.mappings ≡ false }
        ensures { Answered (Rename name.now to.now) (answer_of result) self.old self.new (D.state device.old) (D.state device.new) }
    {
        let _is_name = to.bytes();
        let call = self.files.pages.journal_mut().rename(device, name, to);
        self.journal_answer(call)
    }

    pub(super) fn resize<D: LineDevice>(&mut self, device: &mut D, name: &Name, pages: u64) -> Reply
        requires serves { HostServes self.old (D.state device.old) }
        requires on { self.old.mode ≡ On }
        ensures { Answered (Resize name.now pages) (answer_of result) self.old self.new (D.state device.old) (D.state device.new) }
    {
        if self.files.mappings.has(name) {
            return Reply::Refused(Why::Mapped);
        }
        self.resize_unmapped(device, name, pages)
    }

    fn resize_unmapped<D: LineDevice>(&mut self, device: &mut D, name: &Name, pages: u64) -> Reply
        requires serves { HostServes self.old (D.state device.old) }
        requires on { self.old.mode ≡ On }
        requires free { is_mapped name.now self.old.files.mappings.mappings ≡ false }
        ensures { Answered (Resize name.now pages) (answer_of result) self.old self.new (D.state device.old) (D.state device.new) }
    {
        let call = self.files.pages.journal_mut().resize(device, name, pages);
        self.journal_answer(call)
    }

    pub(super) fn list<D: LineDevice>(&mut self, device: &D) -> Result<Reply, AllocError>
        requires serves { HostServes self.old (D.state device.now) }
        requires on { self.old.mode ≡ On }
        ensures { Responds ListFiles result self.old self.new (D.state device.now) (D.state device.now) }
    {
        let files = self.files.pages.journal().list(self.alloc)?;
        Ok(Reply::Files(files))
    }

    // What a call that changes files is answered, and the mode after it.
    fn journal_answer(&mut self, call: Result<(), JournalFault>) -> Reply
        requires on { self.old.mode ≡ On }
        ensures state { self.new ≡ record self.old { mode = mode_after journal_says call } }
        ensures answer { answer_of result ≡ answer_after journal_says journal_answer Done call }
    {
        match call {
            Ok(()) => Reply::Done,
            Err(fault) => self.journal_fault(fault),
        }
    }

    // What a fault of the journal is answered, and the mode after it.
    fn journal_fault(&mut self, fault: JournalFault) -> Reply
        ensures state { self.new ≡ record self.old { mode = journal_fault_mode self.old.mode fault } }
        ensures answer { answer_of result ≡ journal_fault_answer fault }
    {
        match fault {
            JournalFault::Missing => Reply::Refused(Why::Missing),
            JournalFault::Exists => Reply::Refused(Why::Exists),
            JournalFault::Limit => Reply::Refused(Why::Limit),
            JournalFault::Slots => Reply::Refused(Why::Slots),
            JournalFault::Full => Reply::Refused(Why::Full),
            JournalFault::Meta(line) => Reply::RefusedMeta(line.0),
            JournalFault::Device => self.interrupt(Interruption::Failed),
            JournalFault::PowerLost => self.interrupt(Interruption::PowerLost),
        }
    }
}
