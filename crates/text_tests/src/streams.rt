// Sources, sinks and images of memory, and the trusted edge: standard input and output, and files.
ghost use Rattle.std.specs.Prelude.{◌≡◌, IfOk};

use host_io::{
    FetchFault, FileImages, Images, MemImages, MemSink, MemSource, ReadFailed, Sink, Source,
    StdinSource, StdoutSink, WriteFault, write_all,
};
use nvm_base::{Bytes, Words};
use std::alloc::{AllocError, Global};
use std::test::Fail;
use std::{env, fs, process};

pub(crate) fn bytes(alloc: Global, text: &[u8]) -> Result<Bytes, AllocError>
    ensures { IfOk result (λ b. b.items ≡ text.now) }
{
    let mut bytes = Bytes::new(alloc);
    bytes.extend(text)?;
    Ok(bytes)
}

pub(crate) fn numbers(alloc: Global, list: &[u64]) -> Result<Words, AllocError> {
    let mut words = Words::new(alloc);
    words.extend(list)?;
    Ok(words)
}

#[test]
fn a_source_gives_pieces_and_fails_where_it_is_told(rt: HostRuntime) -> Result<(), AllocError> {
    let alloc = rt.alloc();
    let mut source = MemSource::new(bytes(alloc, b"abcde")?, 2, numbers(alloc, &[2])?);
    let mut buf = [b'.'; 3];
    assert_eq!(rt; source.read(&mut buf), Ok(2));
    assert_eq!(rt; buf.as_slice(), b"ab.".as_slice());
    assert_eq!(rt; source.read(&mut buf), Err(ReadFailed));
    assert_eq!(rt; source.faults(), 1);
    assert_eq!(rt; source.read(&mut buf), Ok(2));
    assert_eq!(rt; buf.as_slice(), b"cd.".as_slice());
    assert_eq!(rt; source.read(&mut buf), Ok(1));
    assert_eq!(rt; source.read(&mut buf), Ok(0));
    assert_eq!(rt; source.faults(), 1);
    Ok(())
}

#[test]
fn a_sink_keeps_what_was_written_before_a_failure(rt: HostRuntime) -> Result<(), AllocError> {
    let alloc = rt.alloc();
    let mut sink = MemSink::new(alloc, numbers(alloc, &[2])?);
    assert_eq!(rt; write_all(&mut sink, b"ok\n"), Ok(()));
    assert_eq!(rt; write_all(&mut sink, b"no"), Err(WriteFault::Failed));
    assert_eq!(rt; sink.faults(), 1);
    assert_eq!(rt; sink.write(b"yes\n"), Ok(4));
    assert_eq!(rt; sink.written(), b"ok\nyes\n".as_slice());
    Ok(())
}

// Whether a fetch gives these bytes, or fails so.
fn gives(fetched: Result<Bytes, FetchFault>, told: Result<&[u8], FetchFault>) -> bool {
    match fetched {
        Ok(held) => told == Ok(held.as_slice()),
        Err(fault) => told == Err(fault),
    }
}

static REPLACED: [(&str, &[u8], Result<(), WriteFault>); 3] = [
    ("b", b"three", Ok(())),
    ("a", b"two", Ok(())),
    ("b", b"lost", Err(WriteFault::Failed)),
];

// Names, the most bytes that are wanted, and what is given.
static FETCHED: [(&str, u64, Result<&[u8], FetchFault>); 4] = [
    ("b", 5, Ok(b"three")),
    ("b", 5, Err(FetchFault::Failed)),
    ("b", 4, Err(FetchFault::TooLong)),
    ("c", 4, Err(FetchFault::Missing)),
];

#[test]
fn images_are_held_by_name(rt: HostRuntime) -> Result<(), AllocError> {
    let alloc = rt.alloc();
    let mut images = MemImages::new(alloc, numbers(alloc, &[3, 5])?);
    images.put("a", b"one")?;
    for &(name, bytes, answer) in &REPLACED {
        assert_eq!(rt; images.replace(name, bytes), answer);
    }
    assert!(rt; images.get("a") == Some(b"two".as_slice()));
    assert!(rt; images.get("b") == Some(b"three".as_slice()));
    assert!(rt; images.get("c") == None);
    for &(name, most, told) in &FETCHED {
        assert!(rt; gives(images.fetch(name, most), told), "{name} {most}");
    }
    let counts = images.counts();
    assert_eq!(rt; (counts.fetches, counts.fetch_faults), (4, 1));
    assert_eq!(rt; (counts.replaces, counts.replace_faults), (3, 1));
    Ok(())
}

#[test]
fn images_are_kept_in_files(rt: HostRuntime) -> Result<(), Fail> {
    let alloc = rt.alloc();
    let folder = env::temp_dir(&rt)?;
    let name = format!(in alloc;
        "{}/nvm-image-{}",
        folder.as_str(),
        process::id(rt.process())
    )?;
    let name = name.as_str();
    let new = format!(in alloc; "{name}.new")?;
    let mut images = FileImages::new(&rt);
    assert!(rt; gives(images.fetch(name, 5), Err(FetchFault::Failed)));
    assert_eq!(rt; images.replace(name, b"one"), Ok(()));
    assert_eq!(rt; images.replace(name, b"three"), Ok(()));
    assert!(rt; gives(images.fetch(name, 5), Ok(b"three")));
    assert!(rt; gives(images.fetch(name, 4), Err(FetchFault::TooLong)));
    fs::remove_file(&rt, name)?;
    // A folder is neither read nor replaced.
    fs::create_dir(&rt, name)?;
    assert!(rt; gives(images.fetch(name, 5), Err(FetchFault::Failed)));
    assert_eq!(rt; images.replace(name, b"lost"), Err(WriteFault::Failed));
    assert!(rt; fs::metadata(&rt, new.as_str()).is_err());
    fs::remove_dir(&rt, name)?;
    let counts = images.counts();
    assert_eq!(rt; (counts.fetches, counts.fetch_faults), (4, 2));
    assert_eq!(rt; (counts.replaces, counts.replace_faults), (3, 1));
    Ok(())
}

#[test]
fn faults_have_a_text(rt: HostRuntime) -> Result<(), AllocError> {
    let alloc = rt.alloc();
    let read = format!(in alloc; "{ReadFailed}")?;
    assert_eq!(rt; read.as_str(), "a read failed");
    let write = format!(in alloc; "{}", WriteFault::Failed)?;
    assert_eq!(rt; write.as_str(), "a write failed");
    let fetch = format!(in alloc; "{}", FetchFault::TooLong)?;
    assert_eq!(rt; fetch.as_str(), "the image is too long");
    Ok(())
}

#[test]
fn standard_input_and_output_are_reached(rt: HostRuntime) {
    let mut sink = StdoutSink::new(&rt);
    assert_eq!(rt;
        write_all(&mut sink, b"written to standard output\n"),
        Ok(())
    );
    assert_eq!(rt; sink.faults(), 0);
    let mut source = StdinSource::new(&rt);
    assert_eq!(rt; source.read(&mut []), Ok(0));
    assert_eq!(rt; source.faults(), 0);
}
