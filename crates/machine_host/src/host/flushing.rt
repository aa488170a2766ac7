// Commands that make bytes of mapped files durable.
ghost use Rattle.std.specs.Prelude.{◌≡◌, ◌+◌, ◌*◌, ◌==◌, ◌<◌, ◌≤◌, ◌^◌, All, IsTrue, None, OnErr, OnOk, Some, length, nat_lt, option_map, take};
ghost use Rattle.std.specs.List.{list_any};
ghost use Rattle.nvm_base.specs.declared.files.Kind.TheVariants.{Shared};
ghost use Rattle.nvm_base.specs.declared.units.Span.{Span as Bytes};
ghost use Rattle.nvm_model.specs.Mappings.{mapping_of};
ghost use Rattle.mappings.specs.Object.{info_of};
ghost use Rattle.inode_table.specs.Slots.{pages_at};
ghost use Rattle.file_journal.specs.Object.{JournalServes};
ghost use Rattle.file_pages.specs.Object.{PagesServe, is_settled};
ghost use Rattle.flush_engine.specs.Spans.{IsWithin};
ghost use Rattle.flush_engine.specs.Refusals.{flush_says, flushed};
ghost use Rattle.script_text.specs.Action.{Action};
ghost use Rattle.script_text.specs.Parsing.{IsSmall};
ghost use Rattle.reply_text.specs.Answer.{answer_of};
ghost use Rattle.reply_text.specs.Answer.Answer.{Done};
ghost use Rattle.machine_model.specs.declared.mode.Mode.TheVariants.{On};
ghost use Rattle.machine_model.specs.Commands.{meaning};
ghost use Rattle.machine_host.specs.Flushing.{FlushSaid, HoldsLost, LinesTold};
ghost use Rattle.machine_host.specs.Keeping.{reach};
ghost use Rattle.machine_host.specs.Keeping.Reach.{AnyLine};
ghost use Rattle.machine_host.specs.Faults.{answer_after, flush_answer, mode_after, verify_answer};
ghost use Rattle.machine_model.specs.OnFlushes.{all_moved, flush_with, spans_refusal};
ghost use Rattle.machine_host.specs.Responding.{Answered};
ghost use Rattle.machine_host.specs.Stands.{HostServes};

use super::Performer;
use crate::held::HeldFiles;
use file_pages::{FilePages, ends_past};
use flush_engine::{FlushFault, flush, flush_verify};
use line_device::LineDevice;
use line_words::Interruption;
use machine_model::Look;
use mappings::MapInfo;
use nvm_base::{Kind, MOST_SPANS, Name, Span};
use reply_text::{Reply, Why};

/// Most spans that are made durable together.

impl Performer {
    // Makes spans of a mapping durable. A private one is no part of the device.
    pub(super) fn flush<D: LineDevice>(
        &mut self,
        device: &mut D,
        handle: u64,
        spans: &[Span],
        look: Look,
    ) -> Reply
        requires serves { HostServes self.old (D.state device.old) }
        requires on { self.old.mode ≡ On }
        requires small { All IsSmall spans.now }
        ensures { (action : Action) → meaning action ≡ flush_with look handle spans.now → reach action ≡ AnyLine
            → Answered action (answer_of result) self.old self.new (D.state device.old) (D.state device.new) }
    {
        let Some(info) = self.files.mappings.get(handle) else {
            return Reply::Refused(Why::Handle);
        };
        if let Some(why) = spans_refusal(info.span.len, spans) {
            return Reply::Refused(why);
        }
        match info.kind {
            Kind::Shared => self.flush_shared(device, handle, &info, spans, look),
            Kind::Private => Reply::Done,
        }
    }

    // The same of a shared one, which has these spans.
    fn flush_shared<D: LineDevice>(
        &mut self,
        device: &mut D,
        handle: u64,
        info: &MapInfo,
        spans: &[Span],
        look: Look,
    ) -> Reply
        requires serves { HostServes self.old (D.state device.old) }
        requires on { self.old.mode ≡ On }
        requires small { All IsSmall spans.now }
        requires told { Some info.now ≡ option_map info_of (mapping_of handle self.old.files.mappings.mappings) }
        requires reach { info.now.span.start ≤ 2 ^ 40 }
        requires shared { info.now.kind ≡ Shared }
        requires right { None ≡ spans_refusal info.now.span.len spans.now }
        ensures { (action : Action) → meaning action ≡ flush_with look handle spans.now → reach action ≡ AnyLine
            → Answered action (answer_of result) self.old self.new (D.state device.old) (D.state device.new) }
    {
        let Some(inode) = self.files.pages.journal().find(&info.name) else {
            unreachable!()
        };
        let moved = all_moved(spans, info.span.start);
        let spans = &moved[..spans.len()];
        let call = flush_file(device, &mut self.files.pages, inode, spans, look);
        self.files
            .tell_flushed(device, &info.name, inode, spans, call);
        self.flushed(&info.name, call)
    }

    // What a flush of that file is answered, and the mode after it.
    fn flushed(&mut self, name: &Name, call: Result<(), FlushFault>) -> Reply
        requires on { self.old.mode ≡ On }
        ensures state { self.new ≡ record self.old { mode = mode_after flush_says (flushed call) } }
        ensures answer { answer_of result ≡ answer_after flush_says (flush_answer name.now) (verify_answer name.now call) (flushed call) }
    {
        match call {
            Ok(()) => Reply::Done,
            Err(FlushFault::Range) => Reply::Refused(Why::Range),
            Err(FlushFault::Length) => Reply::Refused(Why::Length),
            Err(FlushFault::Limit) => Reply::Refused(Why::Limit),
            Err(FlushFault::Poison(offset)) => Reply::PoisonFile(*name, offset),
            Err(FlushFault::Verify(offset)) => Reply::VerifyFile(*name, offset),
            Err(FlushFault::Device) => self.interrupt(Interruption::Failed),
            Err(FlushFault::PowerLost) => self.interrupt(Interruption::PowerLost),
        }
    }
}

impl HeldFiles {
    // Tells the lines that a flush lost, where it was done.
    fn tell_flushed<D: LineDevice>(
        &mut self,
        device: &D,
        name: &Name,
        inode: u64,
        spans: &[Span],
        call: Result<(), FlushFault>,
    )
        requires serves { JournalServes self.old.pages.journal (D.state device.now).medium }
        requires inode { inode < 64 }
        requires within { OnOk (flushed call) (All (IsWithin (pages_at self.old.pages.journal.tables.files inode)) spans.now) }
        requires room { OnOk (flushed call) (HoldsLost self.old (D.state device.now).medium inode spans.now) }
        ensures done { OnOk (flushed call) (LinesTold name.now inode spans.now (D.state device.now).medium self.old self.new) }
        ensures undone { OnErr (flushed call) (self.new ≡ self.old) }
    {
        match call {
            Ok(()) | Err(FlushFault::Verify(_)) => self.tell_lost(device, name, inode, spans),
            Err(
                FlushFault::Range
                | FlushFault::Length
                | FlushFault::Limit
                | FlushFault::Poison(_)
                | FlushFault::Device
                | FlushFault::PowerLost,
            ) => {}
        }
    }
}

fn flush_file<D: LineDevice>(
    device: &mut D,
    pages: &mut FilePages,
    inode: u64,
    spans: &[Span],
    look: Look,
) -> Result<(), FlushFault>
    requires serves { PagesServe pages.old (D.state device.old).medium }
    requires settled { IsTrue (is_settled pages.old) }
    requires on { IsTrue (D.state device.old).panel.power }
    requires inode { inode < 64 }
    ensures said { FlushSaid D.state pages.old pages.new result look inode spans.now device.old device.new }
    ensures within { OnOk (flushed result) (All (IsWithin (pages_at pages.old.journal.tables.files inode)) spans.now) }
{
    match look {
        Look::Once => flush(device, pages, inode, spans),
        Look::Again => flush_verify(device, pages, inode, spans),
    }
}

// What is wrong with spans of something of this size.
fn spans_refusal(size: u64, spans: &[Span]) -> Option<Why>
    ensures { result ≡ spans_refusal size spans.now }
{
    if is_one_past(size, spans) {
        Some(Why::Range)
    } else if is_one_empty(spans) {
        Some(Why::Length)
    } else if spans.is_empty() || spans.len() > MOST_SPANS {
        Some(Why::Limit)
    } else {
        None
    }
}

fn is_one_past(size: u64, spans: &[Span]) -> bool
    ensures { result ≡ list_any (λ (s : Bytes). nat_lt size (s.start + s.len)) spans.now }
{
    spans.iter().any(|span| ends_past(size, *span))
}

fn is_one_empty(spans: &[Span]) -> bool
    ensures { result ≡ list_any (λ (s : Bytes). s.len == 0) spans.now }
{
    spans.iter().any(|span| span.len == 0)
}

// These spans, so much further on, and then others.
fn all_moved(spans: &[Span], by: u64) -> [Span; MOST_SPANS]
    requires few { length spans.now ≤ 8 }
    requires small { All IsSmall spans.now }
    requires reach { by ≤ 2 ^ 40 }
    ensures { take (length spans.now) result ≡ all_moved by spans.now }
{
    let mut moved = [Span { start: 0, len: 0 }; MOST_SPANS];
    for (k, span) in spans.iter().enumerate() {
        moved[k] = Span {
            start: by + span.start,
            len: span.len,
        };
    }
    moved
}
