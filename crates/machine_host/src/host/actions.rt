// Commands on native files that leave one old or new as a whole, and the one that makes a whole file durable.
ghost use Rattle.std.specs.Prelude.{◌≡◌, ◌≤◌, ◌<◌, IfSome, OnErr, OnOk, Some, length, sum_by};
ghost use Rattle.nvm_base.specs.declared.units.Span.{Span as Stretch};
ghost use Rattle.machine_model.specs.declared.mode.Mode.TheVariants.{On};
ghost use Rattle.script_text.specs.Action.Action.{FAtomic, FMulti, FDiscard, FSync};
ghost use Rattle.reply_text.specs.Answer.{answer_of};
ghost use Rattle.reply_text.specs.Answer.Answer.{Done};
ghost use Rattle.inode_table.specs.Slots.{inode_of};
ghost use Rattle.file_journal.specs.Object.{JournalServes};
ghost use Rattle.file_actions.specs.Refusals.{action_says, all_bytes};
ghost use Rattle.machine_model.specs.OnFileActions.{action_answer};
ghost use Rattle.machine_host.specs.Flushing.{HoldsLost, LinesTold};
ghost use Rattle.machine_host.specs.Stands.{HostServes};
ghost use Rattle.machine_host.specs.Faults.{answer_after, mode_after, action_fault_answer, action_fault_mode};
ghost use Rattle.machine_host.specs.Responding.{Answered};

use super::Performer;
use crate::held::HeldFiles;
use file_actions::{ActionFault, atomic_multiwrite, atomic_write, discard, sync};
use line_device::LineDevice;
use line_words::Interruption;
use nvm_base::{Name, PAGE, Span};
use reply_text::{Reply, Why};

impl Performer {
    pub(super) fn fatomic<D: LineDevice>(
        &mut self,
        device: &mut D,
        name: &Name,
        offset: u64,
        bytes: &[u8],
    ) -> Reply
        requires serves { HostServes self.old (D.state device.old) }
        requires on { self.old.mode ≡ On }
        ensures { Answered (FAtomic name.now offset bytes.now) (answer_of result) self.old self.new (D.state device.old) (D.state device.new) }
    {
        match self.files.pages.journal().find(name) {
            Some(inode) => {
                let call = atomic_write(device, &mut self.files.pages, inode, offset, bytes);
                self.action_answer(name, call)
            }
            None => Reply::Refused(Why::Missing),
        }
    }

    pub(super) fn fmulti<D: LineDevice>(
        &mut self,
        device: &mut D,
        name: &Name,
        ranges: &[Span],
        bytes: &[u8],
    ) -> Reply
        requires serves { HostServes self.old (D.state device.old) }
        requires on { self.old.mode ≡ On }
        requires some { 1 ≤ length ranges.now }
        requires bytes { length bytes.now ≡ sum_by (λ (r : Stretch). r.len) ranges.now }
        ensures { Answered (FMulti name.now ranges.now bytes.now) (answer_of result) self.old self.new (D.state device.old) (D.state device.new) }
    {
        match self.files.pages.journal().find(name) {
            Some(inode) => {
                let call = atomic_multiwrite(device, &mut self.files.pages, inode, ranges, bytes);
                self.action_answer(name, call)
            }
            None => Reply::Refused(Why::Missing),
        }
    }

    pub(super) fn fdiscard<D: LineDevice>(
        &mut self,
        device: &mut D,
        name: &Name,
        pages: Span,
    ) -> Reply
        requires serves { HostServes self.old (D.state device.old) }
        requires on { self.old.mode ≡ On }
        ensures { Answered (FDiscard name.now pages.start pages.len) (answer_of result) self.old self.new (D.state device.old) (D.state device.new) }
    {
        match self.files.pages.journal().find(name) {
            Some(inode) => {
                let call = discard(device, &mut self.files.pages, inode, pages);
                self.action_answer(name, call)
            }
            None => Reply::Refused(Why::Missing),
        }
    }

    pub(super) fn fsync<D: LineDevice>(&mut self, device: &mut D, name: &Name) -> Reply
        requires serves { HostServes self.old (D.state device.old) }
        requires on { self.old.mode ≡ On }
        ensures { Answered (FSync name.now) (answer_of result) self.old self.new (D.state device.old) (D.state device.new) }
    {
        match self.files.pages.journal().find(name) {
            Some(inode) => {
                let call = sync(device, &mut self.files.pages, inode);
                self.files.tell_synced(device, name, inode, call);
                self.action_answer(name, call)
            }
            None => Reply::Refused(Why::Missing),
        }
    }

    // What an action on a file is answered, and the mode after it.
    fn action_answer(&mut self, name: &Name, call: Result<(), ActionFault>) -> Reply
        requires on { self.old.mode ≡ On }
        ensures state { self.new ≡ record self.old { mode = mode_after action_says call } }
        ensures answer { answer_of result ≡ answer_after action_says (action_answer name.now) Done call }
    {
        match call {
            Ok(()) => Reply::Done,
            Err(fault) => self.action_fault(name, fault),
        }
    }

    // What a fault of one is answered, and the mode after it.
    fn action_fault(&mut self, name: &Name, fault: ActionFault) -> Reply
        ensures state { self.new ≡ record self.old { mode = action_fault_mode self.old.mode fault } }
        ensures answer { answer_of result ≡ action_fault_answer name.now fault }
    {
        match fault {
            ActionFault::Range => Reply::Refused(Why::Range),
            ActionFault::Length => Reply::Refused(Why::Length),
            ActionFault::Limit => Reply::Refused(Why::Limit),
            ActionFault::Overlap => Reply::Refused(Why::Overlap),
            ActionFault::Full => Reply::Refused(Why::Full),
            ActionFault::Meta(line) => Reply::RefusedMeta(line.0),
            ActionFault::Poison(offset) => Reply::PoisonFile(*name, offset),
            ActionFault::Device => self.interrupt(Interruption::Failed),
            ActionFault::PowerLost => self.interrupt(Interruption::PowerLost),
        }
    }
}

impl HeldFiles {
    // Tells the lines that a sync of a whole file lost, where it was done.
    fn tell_synced<D: LineDevice>(
        &mut self,
        device: &D,
        name: &Name,
        inode: u64,
        call: Result<(), ActionFault>,
    )
        requires serves { JournalServes self.old.pages.journal (D.state device.now).medium }
        requires inode { inode < 64 }
        requires room { OnOk call (HoldsLost self.old (D.state device.now).medium inode all_bytes) }
        ensures done { OnOk call (LinesTold name.now inode all_bytes (D.state device.now).medium self.old self.new) }
        ensures undone { OnErr call (self.new ≡ self.old) }
    {
        if call.is_ok() {
            self.tell_all_lost(device, name, inode);
        }
    }

    // Tells each bad line of a file, the lowest first.
    fn tell_all_lost<D: LineDevice>(&mut self, device: &D, name: &Name, inode: u64)
        requires serves { JournalServes self.old.pages.journal (D.state device.now).medium }
        requires inode { inode < 64 }
        requires room { HoldsLost self.old (D.state device.now).medium inode all_bytes }
        ensures { LinesTold name.now inode all_bytes (D.state device.now).medium self.old self.new }
    {
        let size = PAGE * self.pages.journal().pages(inode);
        if size > 0 {
            let whole = Span {
                start: 0,
                len: size,
            };
            self.tell_lost(device, name, inode, &[whole]);
        }
    }
}
