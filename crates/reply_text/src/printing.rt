// The text of answers.
ghost use Rattle.std.specs.Prelude.{◌≡◌, ◌+◌, ◌<◌, ◌≤◌, ◌∷◌, ◌++◌, IsOk, OnErr, OnOk, codes, decimal, length};
ghost use Rattle.nvm_base.specs.Stock.{Appends};
ghost use Rattle.reply_text.specs.Answer.{IsPrintable, answer_line, answer_of, answer_text, why_text};
ghost use Rattle.reply_text.specs.Answer.Answer.{PoisonVolume};
ghost use Rattle.reply_text.specs.Room.{most_of};

use crate::events::{print_bad_lines, print_event};
use crate::files::{print_file_line, print_files};
use crate::ranges::print_ranges;
use crate::{Reply, Why};
use nvm_base::{Bytes, print_number};
use std::alloc::AllocError;

/// Appends the reply's line, all of it or nothing.
pub fn print(reply: &Reply, out: &mut Bytes) -> Result<(), AllocError>
    requires printable { IsPrintable (answer_of reply.now) }
    ensures ok { OnOk result (out.new.items ≡ out.old.items ++ answer_line (answer_of reply.now)) }
    ensures err { OnErr result (out.new.items ≡ out.old.items) }
    ensures succeeds { most_of (answer_of reply.now) ≤ out.old.spare → IsOk result }
    ensures room { out.old.spare + length out.old.items ≤ out.new.spare + length out.new.items }
    ensures short { length (answer_line (answer_of reply.now)) ≤ most_of (answer_of reply.now) }
{
    let before = out.len();
    let printed = print_line(reply, out);
    if printed.is_err() {
        out.truncate(before);
    }
    printed
}

fn print_line(reply: &Reply, out: &mut Bytes) -> Result<(), AllocError>
    requires printable { IsPrintable (answer_of reply.now) }
    ensures text { Appends (answer_line (answer_of reply.now)) result out.old out.new }
    ensures short { length (answer_line (answer_of reply.now)) ≤ most_of (answer_of reply.now) }
{
    print_text(reply, out)?;
    out.push(b'\n')
}

fn print_text(reply: &Reply, out: &mut Bytes) -> Result<(), AllocError>
    requires printable { IsPrintable (answer_of reply.now) }
    ensures text { Appends (answer_text (answer_of reply.now)) result out.old out.new }
    ensures short { length (answer_text (answer_of reply.now)) < most_of (answer_of reply.now) }
{
    match reply {
        Reply::Done => out.extend(b"ok"),
        Reply::DoneBad(n) => print_counted(b"ok bad ", *n, out),
        Reply::Ranges(ranges) => print_ranges(ranges.as_slice(), out),
        Reply::Files(files) => print_files(files.as_slice(), out),
        Reply::Yes => out.extend(b"yes"),
        Reply::No => out.extend(b"no"),
        Reply::Handle(handle) => print_counted(b"handle ", *handle, out),
        Reply::Happened(event) => print_event(event, out),
        Reply::NoEvent => out.extend(b"none"),
        Reply::BadLines(offsets) => print_bad_lines(offsets.as_slice(), out),
        Reply::Attribute(n) => print_counted(b"attr ", *n, out),
        Reply::Scarred(block) => print_counted(b"scarred ", *block, out),
        Reply::PoisonBlock(block, line) => print_two(b"poison block ", *block, *line, out),
        Reply::PoisonVolume(offset) => print_volume_line(*offset, out),
        Reply::PoisonFile(name, offset) => print_file_line(b"poison file ", name, *offset, out),
        Reply::VerifyFile(name, offset) => print_file_line(b"verify file ", name, *offset, out),
        Reply::DeviceFailed => out.extend(b"refused device"),
        Reply::PowerLost => out.extend(b"power lost"),
        Reply::Stopped(line) => print_counted(b"stopped meta ", *line, out),
        Reply::Refused(why) => {
            out.extend(b"refused ")?;
            out.extend(word_of(*why))
        }
        Reply::RefusedMeta(line) => print_counted(b"refused meta ", *line, out),
    }
}

// Words and a number.
pub(crate) fn print_counted(words: &[u8], n: u64, out: &mut Bytes) -> Result<(), AllocError>
    ensures text { Appends (words.now ++ decimal n) result out.old out.new }
    ensures short { length (decimal n) ≤ 20 }
{
    out.extend(words)?;
    print_number(n, out)
}

// Words and two numbers.
pub(crate) fn print_two(
    words: &[u8],
    first: u64,
    second: u64,
    out: &mut Bytes,
) -> Result<(), AllocError>
    ensures text { Appends (words.now ++ (decimal first ++ (32 ∷ decimal second))) result out.old out.new }
    ensures short { length (decimal first) + length (decimal second) ≤ 40 }
{
    print_counted(words, first, out)?;
    print_counted(b" ", second, out)
}

fn print_volume_line(offset: u64, out: &mut Bytes) -> Result<(), AllocError>
    ensures text { Appends (answer_text (PoisonVolume offset)) result out.old out.new }
    ensures short { length (decimal offset) ≤ 20 }
{
    print_counted(b"poison volume ", offset, out)?;
    out.extend(b" 64")
}

fn word_of(why: Why) -> &'static [u8]
    ensures { result.now ≡ why_text why }
{
    match why {
        Why::Syntax => b"syntax",
        Why::TooLong => b"toolong",
        Why::Off => b"off",
        Why::On => b"on",
        Why::Recover => b"recover",
        Why::Missing => b"missing",
        Why::Exists => b"exists",
        Why::Handle => b"handle",
        Why::Mapped => b"mapped",
        Why::Range => b"range",
        Why::Length => b"length",
        Why::Limit => b"limit",
        Why::Overlap => b"overlap",
        Why::Address => b"address",
        Why::Slots => b"slots",
        Why::Full => b"full",
        Why::Nothing => b"nothing",
        Why::NotPoisoned => b"notpoisoned",
        Why::Unknown => b"unknown",
    }
}
