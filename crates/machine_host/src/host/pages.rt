// Commands on the bytes of files.
ghost use Rattle.std.specs.Prelude.{◌≡◌, ◌≤◌, ◌<◌, ◌+◌, ◌*◌, ◌^◌, Some, length};
ghost use Rattle.machine_model.specs.declared.mode.Mode.TheVariants.{On};
ghost use Rattle.script_text.specs.Action.Action.{FRead, FWrite};
ghost use Rattle.reply_text.specs.Answer.{answer_of};
ghost use Rattle.reply_text.specs.Answer.Answer.{Done};
ghost use Rattle.inode_table.specs.Slots.{inode_of, pages_at};
ghost use Rattle.file_pages.specs.Refusals.{page_says};
ghost use Rattle.machine_model.specs.OnPages.{page_answer};
ghost use Rattle.machine_host.specs.Stands.{HostServes};
ghost use Rattle.machine_host.specs.Faults.{answer_after, mode_after, page_fault_answer, page_fault_mode};
ghost use Rattle.machine_host.specs.Responding.{Answered, ComesTo};

use super::Performer;
use super::refusals::most_refusal;
use crate::outcome::Outcome;
use file_pages::PageFault;
use line_device::LineDevice;
use line_words::Interruption;
use nvm_base::{MOST, Name, PAGE};
use reply_text::{Reply, Why};

impl Performer {
    pub(super) fn fread<D: LineDevice>(
        &mut self,
        device: &mut D,
        name: &Name,
        offset: u64,
        len: u64,
        work: &mut [u8],
    ) -> Outcome
        requires serves { HostServes self.old (D.state device.old) }
        requires on { self.old.mode ≡ On }
        requires small { offset + len < 2 ^ 64 }
        requires wide { length work.old ≡ 65536 }
        ensures { ComesTo (FRead name.now offset len) work.new result self.old self.new (D.state device.old) (D.state device.new) }
    {
        match self.files.pages.journal().find(name) {
            Some(inode) => self.fread_at(device, name, inode, offset, len, work),
            None => Outcome::Reply(Reply::Refused(Why::Missing)),
        }
    }

    // The same of the inode that has the name.
    fn fread_at<D: LineDevice>(
        &mut self,
        device: &mut D,
        name: &Name,
        inode: u64,
        offset: u64,
        len: u64,
        work: &mut [u8],
    ) -> Outcome
        requires serves { HostServes self.old (D.state device.old) }
        requires on { self.old.mode ≡ On }
        requires named { inode_of name.now self.old.files.pages.journal.tables.files ≡ Some inode }
        requires inode { inode < 64 }
        requires small { offset + len < 2 ^ 64 }
        requires wide { length work.old ≡ 65536 }
        ensures { ComesTo (FRead name.now offset len) work.new result self.old self.new (D.state device.old) (D.state device.new) }
    {
        let size = PAGE * self.files.pages.journal().pages(inode);
        match most_refusal(size, offset, len, MOST) {
            Some(why) => Outcome::Reply(Reply::Refused(why)),
            None => self.fread_within(device, name, inode, offset, len, work),
        }
    }

    // And of bytes that it has, no more than are read at once.
    fn fread_within<D: LineDevice>(
        &mut self,
        device: &mut D,
        name: &Name,
        inode: u64,
        offset: u64,
        len: u64,
        work: &mut [u8],
    ) -> Outcome
        requires serves { HostServes self.old (D.state device.old) }
        requires on { self.old.mode ≡ On }
        requires named { inode_of name.now self.old.files.pages.journal.tables.files ≡ Some inode }
        requires inode { inode < 64 }
        requires some { 1 ≤ len }
        requires few { len ≤ 65536 }
        requires within { offset + len ≤ 4096 * pages_at self.old.files.pages.journal.tables.files inode }
        requires wide { length work.old ≡ 65536 }
        ensures { ComesTo (FRead name.now offset len) work.new result self.old self.new (D.state device.old) (D.state device.new) }
    {
        let n = len as usize;
        let pages = &mut self.files.pages;
        match pages.load_into(device, inode, offset, &mut work[..n]) {
            Ok(()) => Outcome::Read(n),
            Err(fault) => Outcome::Reply(self.page_fault(name, fault)),
        }
    }

    pub(super) fn fwrite<D: LineDevice>(
        &mut self,
        device: &mut D,
        name: &Name,
        offset: u64,
        bytes: &[u8],
    ) -> Reply
        requires serves { HostServes self.old (D.state device.old) }
        requires on { self.old.mode ≡ On }
        requires few { length bytes.now ≤ 65536 }
        ensures { Answered (FWrite name.now offset bytes.now) (answer_of result) self.old self.new (D.state device.old) (D.state device.new) }
    {
        match self.files.pages.journal().find(name) {
            Some(inode) => {
                let call = self.files.pages.store(device, inode, offset, bytes);
                self.page_answer(name, call)
            }
            None => Reply::Refused(Why::Missing),
        }
    }

    // What a call that changes bytes of a file is answered, and the mode after it.
    fn page_answer(&mut self, name: &Name, call: Result<(), PageFault>) -> Reply
        requires on { self.old.mode ≡ On }
        ensures state { self.new ≡ record self.old { mode = mode_after page_says call } }
        ensures answer { answer_of result ≡ answer_after page_says (page_answer name.now) Done call }
    {
        match call {
            Ok(()) => Reply::Done,
            Err(fault) => self.page_fault(name, fault),
        }
    }

    // What a fault of a file's pages is answered, and the mode after it.
    fn page_fault(&mut self, name: &Name, fault: PageFault) -> Reply
        ensures state { self.new ≡ record self.old { mode = page_fault_mode self.old.mode fault } }
        ensures answer { answer_of result ≡ page_fault_answer name.now fault }
    {
        match fault {
            PageFault::Range => Reply::Refused(Why::Range),
            PageFault::Length => Reply::Refused(Why::Length),
            PageFault::Full => Reply::Refused(Why::Full),
            PageFault::Meta(line) => Reply::RefusedMeta(line.0),
            PageFault::Poison(offset) => Reply::PoisonFile(*name, offset),
            PageFault::Device => self.interrupt(Interruption::Failed),
            PageFault::PowerLost => self.interrupt(Interruption::PowerLost),
        }
    }
}
