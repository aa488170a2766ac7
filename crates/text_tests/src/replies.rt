// The line of each reply.
ghost use Rattle.std.specs.Prelude.{All};
ghost use Rattle.reply_text.specs.Answer.{IsPrintable, answer_of};

use error_events::Event;
use nvm_base::{Bytes, FileEntry, FileList, Name, Span, Spans, Words};
use reply_text::{Reply, Why, print, print_data};
use std::alloc::{AllocError, Global};
use std::test::Fail;

// The lines of these replies.
fn printed(alloc: Global, replies: &[Reply]) -> Result<Bytes, AllocError>
    requires printable { All (λ reply. IsPrintable (answer_of reply)) replies.now }
{
    let mut out = Bytes::new(alloc);
    for reply in replies {
        print(reply, &mut out)?;
    }
    Ok(out)
}

#[test]
fn each_reply_has_its_line(rt: HostRuntime) -> Result<(), AllocError> {
    let replies = [
        Reply::Done,
        Reply::DoneBad(0),
        Reply::DoneBad(118016),
        Reply::Yes,
        Reply::No,
        Reply::Handle(1),
        Reply::Handle(4294967295),
        Reply::NoEvent,
        Reply::Attribute(0),
        Reply::Attribute(1000000),
        Reply::Attribute(18446744073709551615),
        Reply::Scarred(4095),
        Reply::PoisonBlock(10, 7),
        Reply::PoisonVolume(4032),
        Reply::RefusedMeta(2303),
        Reply::DeviceFailed,
        Reply::PowerLost,
        Reply::Stopped(2303),
        Reply::Stopped(18446744073709551615),
    ];
    let mut out = printed(rt.alloc(), &replies)?;
    print_data(&[7, 7, 255], &mut out)?;
    assert_eq!(rt;
        out.as_slice(),
        b"ok\nok bad 0\nok bad 118016\nyes\nno\nhandle 1\nhandle 4294967295\nnone\nattr 0\nattr 1000000\nattr 18446744073709551615\nscarred 4095\npoison block 10 7\npoison volume 4032 64\nrefused meta 2303\nrefused device\npower lost\nstopped meta 2303\nstopped meta 18446744073709551615\ndata 07*2,ff\n".as_slice()
    );
    Ok(())
}

#[test]
fn ranges_stand_behind_their_offsets(rt: HostRuntime) -> Result<(), AllocError> {
    let alloc = rt.alloc();
    let mut ranges = Spans::new(alloc);
    ranges.extend(&[
        Span {
            start: 147456,
            len: 4096,
        },
        Span {
            start: 188416,
            len: 4096,
        },
    ])?;
    let out = printed(
        alloc,
        &[Reply::Ranges(Spans::new(alloc)), Reply::Ranges(ranges)],
    )?;
    assert_eq!(rt;
        out.as_slice(),
        b"ranges\nranges 0 147456 4096 4096 188416 4096\n".as_slice()
    );
    Ok(())
}

static FILES: [(&str, u64); 3] = [("head", 1), ("log.old", 4), ("z", u64::MAX)];

#[test]
fn files_are_listed_with_their_pages(rt: HostRuntime) -> Result<(), AllocError> {
    let alloc = rt.alloc();
    let mut files = FileList::new(alloc);
    for &(text, pages) in &FILES {
        if let Some(name) = Name::read(text.as_bytes()) {
            files.push(FileEntry { name, pages })?;
        }
    }
    let out = printed(
        alloc,
        &[Reply::Files(FileList::new(alloc)), Reply::Files(files)],
    )?;
    assert_eq!(rt;
        out.as_slice(),
        b"files\nfiles head:1 log.old:4 z:18446744073709551615\n".as_slice()
    );
    Ok(())
}

#[test]
fn a_bad_line_of_a_file_has_its_name(rt: HostRuntime) -> Result<(), Fail> {
    let name = Name::read(b"abcdefghijklmnopqrstuvwxyz-_.012").ok_or("no name")?;
    let out = printed(
        rt.alloc(),
        &[
            Reply::PoisonFile(name, 1048512),
            Reply::VerifyFile(name, u64::MAX),
        ],
    )?;
    assert_eq!(rt;
        out.as_slice(),
        b"poison file abcdefghijklmnopqrstuvwxyz-_.012 1048512 64\nverify file abcdefghijklmnopqrstuvwxyz-_.012 18446744073709551615 64\n".as_slice()
    );
    Ok(())
}

// Whether a shared mapping showed the place, whether it came since the last restart, and the event's line.
static EVENTS: [(&str, u64, bool, bool, &str); 4] = [
    ("f", 0, true, true, "event f 0 64 mapped live\n"),
    ("f", 64, true, false, "event f 64 64 mapped restart\n"),
    ("f", 128, false, true, "event f 128 64 unmapped live\n"),
    (
        "abcdefghijklmnopqrstuvwxyz-_.012",
        u64::MAX,
        false,
        false,
        "event abcdefghijklmnopqrstuvwxyz-_.012 18446744073709551615 64 unmapped restart\n",
    ),
];

#[test]
fn an_event_tells_who_saw_it_and_when(rt: HostRuntime) -> Result<(), Fail> {
    for &(name, offset, mapped, live, line) in &EVENTS {
        let event = Event {
            file: Name::read(name.as_bytes()).ok_or("no name")?,
            offset,
            len: 64,
            mapped,
            live,
        };
        let out = printed(rt.alloc(), &[Reply::Happened(event)])?;
        assert_eq!(rt; out.as_slice(), line.as_bytes());
    }
    Ok(())
}

#[test]
fn bad_lines_are_counted_and_listed(rt: HostRuntime) -> Result<(), AllocError> {
    let alloc = rt.alloc();
    let mut offsets = Words::new(alloc);
    offsets.extend(&[0, 64, 1048512, u64::MAX])?;
    let out = printed(
        alloc,
        &[Reply::BadLines(Words::new(alloc)), Reply::BadLines(offsets)],
    )?;
    assert_eq!(rt;
        out.as_slice(),
        b"bad 0\nbad 4 0 64 1048512 18446744073709551615\n".as_slice()
    );
    Ok(())
}

static REFUSALS: [(Why, &str); 19] = [
    (Why::Syntax, "refused syntax\n"),
    (Why::TooLong, "refused toolong\n"),
    (Why::Off, "refused off\n"),
    (Why::On, "refused on\n"),
    (Why::Recover, "refused recover\n"),
    (Why::Missing, "refused missing\n"),
    (Why::Exists, "refused exists\n"),
    (Why::Handle, "refused handle\n"),
    (Why::Mapped, "refused mapped\n"),
    (Why::Range, "refused range\n"),
    (Why::Length, "refused length\n"),
    (Why::Limit, "refused limit\n"),
    (Why::Overlap, "refused overlap\n"),
    (Why::Address, "refused address\n"),
    (Why::Slots, "refused slots\n"),
    (Why::Full, "refused full\n"),
    (Why::Nothing, "refused nothing\n"),
    (Why::NotPoisoned, "refused notpoisoned\n"),
    (Why::Unknown, "refused unknown\n"),
];

#[test]
fn each_refusal_has_its_word(rt: HostRuntime) -> Result<(), AllocError> {
    for &(why, line) in &REFUSALS {
        let out = printed(rt.alloc(), &[Reply::Refused(why)])?;
        assert_eq!(rt; out.as_slice(), line.as_bytes());
    }
    Ok(())
}
