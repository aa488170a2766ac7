// The text of media errors.
ghost use Rattle.std.specs.Prelude.{◌≡◌, ℕ, ◌+◌, ◌*◌, ◌^◌, ◌<◌, ◌≤◌, ◌++◌, decimal, length, slice_index};
ghost use Rattle.error_events.specs.Events.{event_of};
ghost use Rattle.nvm_base.specs.Stock.{Appends};
ghost use Rattle.reply_text.specs.Answer.{answer_text, event_text, live_text, mapped_text, offsets_text};
ghost use Rattle.reply_text.specs.Answer.Answer.{BadLines, Happened};

use crate::printing::{print_counted, print_two};
use error_events::Event;
use nvm_base::Bytes;
use std::alloc::AllocError;

pub(crate) fn print_event(event: &Event, out: &mut Bytes) -> Result<(), AllocError>
    ensures text { Appends (answer_text (Happened (event_of event.now))) result out.old out.new }
    ensures short { length (event_text (event_of event.now)) ≤ 91 }
{
    know_event(event);
    out.extend(b"event ")?;
    out.extend(event.file.bytes())?;
    print_two(b" ", event.offset, event.len, out)?;
    print_marks(event, out)
}

fn print_marks(event: &Event, out: &mut Bytes) -> Result<(), AllocError>
    ensures { Appends (mapped_text event.now.mapped ++ live_text event.now.live) result out.old out.new }
{
    out.extend(mapped_word(event.mapped))?;
    out.extend(live_word(event.live))
}

// What its type says of an event.
fn know_event(event: &Event)
    ensures { length (event_text (event_of event.now)) ≤ 91 }
{
    let _file = event.file.bytes();
    let _offset = event.offset;
    let _len = event.len;
}

fn mapped_word(mapped: bool) -> &'static [u8]
    ensures { result.now ≡ mapped_text mapped }
{
    if mapped { b" mapped" } else { b" unmapped" }
}

fn live_word(live: bool) -> &'static [u8]
    ensures { result.now ≡ live_text live }
{
    if live { b" live" } else { b" restart" }
}

// How many they are, and the offset of each.
pub(crate) fn print_bad_lines(offsets: &[u64], out: &mut Bytes) -> Result<(), AllocError>
    ensures text { Appends (answer_text (BadLines offsets.now)) result out.old out.new }
    ensures short { length (decimal (length offsets.now)) + length (offsets_text offsets.now) ≤ 20 + 21 * length offsets.now }
{
    know_offsets(offsets);
    print_counted(b"bad ", offsets.len() as u64, out)?;
    for offset in offsets {
        print_counted(b" ", *offset, out)?;
    }
    Ok(())
}

// What their type says of offsets.
fn know_offsets(offsets: &[u64])
    ensures { (k : ℕ) → slice_index offsets.now k < 2 ^ 64 }
{}
