// What is reported of the mappings of a file of two holes, on a plain device.
ghost use Rattle.std.specs.Prelude.{◌≡◌, IfOk};
ghost use Rattle.line_device.specs.Plain.{device_of};
ghost use Rattle.file_pages.specs.Object.{PagesServe};

use crate::devices::{SMALL, fresh, is_ready, make};
use file_pages::FilePages;
use line_device::{LineDevice, Lines, Plain};
use mappings::{MapFault, Mappings};
use nvm_base::{Kind, Name, Span};
use std::alloc::Global;
use std::process::Abort;
use std::test::Fail;

#[derive(Clone, Copy)]
enum Act {
    Map(Span, Kind),
    // Maps all of the file 256 times; it tells the last handle.
    Fill,
    Unmap(u64),
    // Whether a shared mapping has a byte of the span.
    Touches(Span),
    // Whether there is that mapping.
    Has(u64),
    // Whether the file has a mapping.
    IsMapped,
    // Whether a mapping has bytes of its own; or nine, all of one value.
    Owns(u64),
    IsAll(u64, u8),
    // Makes sevens of a mapping's own bytes, where it has such.
    Overwrite(u64),
}

// What it tells: a handle, or 1 for what is so, and else 0.
type Told = Result<u64, MapFault>;

// The file, all of its bytes, some around the border of its pages, and none.
static FILE: [u8; 3] = *b"log";

const WHOLE: Span = Span {
    start: 0,
    len: 8192,
};

const PART: Span = Span {
    start: 4090,
    len: 9,
};

const NONE: Span = Span {
    start: 8192,
    len: 0,
};

// A device with the file, and its files.
fn begun(alloc: Global) -> Result<(FilePages, Plain), Fail>
    ensures { IfOk result (λ r. PagesServe r.0 (device_of r.1).medium) }
{
    let mut device = fresh(alloc)?;
    make(alloc, &mut device, &FILE, 2)?;
    if !is_ready(&device) {
        return Err(Fail::from("the device"));
    }
    let files = FilePages::mount(alloc, &mut device, SMALL)?;
    Ok((files, device))
}

fn map<L: Lines>(
    maps: &mut Mappings,
    dev: &mut L,
    files: &mut FilePages,
    span: Span,
    kind: Kind,
) -> Told
    requires { PagesServe files.old (L.state dev.old).medium }
    ensures { PagesServe files.new (L.state dev.new).medium }
{
    let Some(name) = Name::read(&FILE) else {
        return Err(MapFault::Missing);
    };
    if !files.settled() || !dev.power() {
        return Err(MapFault::Device);
    }
    maps.map(dev, files, &name, span, kind)
}

fn fill<L: Lines>(maps: &mut Mappings, dev: &mut L, files: &mut FilePages) -> Told
    requires { PagesServe files.old (L.state dev.old).medium }
    ensures { PagesServe files.new (L.state dev.new).medium }
{
    let mut last = 0;
    for k in 0..256_u64 {
        last = map(maps, dev, files, WHOLE, Kind::Shared)?.max(k);
    }
    Ok(last)
}

fn touches(maps: &Mappings, span: Span) -> bool {
    match Name::read(&FILE) {
        Some(name) => span.start < 65_536
            && span.len < 65_536
            && span.len != 0
            && maps.touches(&name, span),
        None => false,
    }
}

fn is_mapped(maps: &Mappings) -> bool {
    match Name::read(&FILE) {
        Some(name) => maps.has(&name),
        None => false,
    }
}

// Whether a mapping has nine bytes of its own, all equal to that one.
fn is_all(maps: &Mappings, handle: u64, byte: u8) -> bool {
    match maps.copy(handle) {
        Some(bytes) => bytes == [byte; 9].as_slice(),
        None => false,
    }
}

fn overwrite(maps: &mut Mappings, handle: u64) -> bool {
    match maps.copy_mut(handle) {
        Some(bytes) => {
            bytes.fill(7);
            true
        }
        None => false,
    }
}

fn perform<L: Lines>(maps: &mut Mappings, dev: &mut L, files: &mut FilePages, act: Act) -> Told
    requires { PagesServe files.old (L.state dev.old).medium }
    ensures { PagesServe files.new (L.state dev.new).medium }
{
    match act {
        Act::Map(span, kind) => map(maps, dev, files, span, kind),
        Act::Fill => fill(maps, dev, files),
        Act::Unmap(handle) => match maps.unmap(handle) {
            Ok(()) => Ok(0),
            Err(fault) => Err(fault),
        },
        Act::Touches(span) => Ok(u64::from(touches(maps, span))),
        Act::Has(handle) => Ok(u64::from(maps.get(handle).is_some())),
        Act::IsMapped => Ok(u64::from(is_mapped(maps))),
        Act::Owns(handle) => Ok(u64::from(maps.copy(handle).is_some())),
        Act::IsAll(handle, byte) => Ok(u64::from(is_all(maps, handle, byte))),
        Act::Overwrite(handle) => Ok(u64::from(overwrite(maps, handle))),
    }
}

// Goes through a story of a device with the file.
fn follow(rt: &impl Abort, alloc: Global, story: &[(Act, Told)]) -> Result<(), Fail> {
    let (mut files, mut device) = begun(alloc)?;
    let mut maps = Mappings::new(alloc);
    for &(act, told) in story {
        let found = perform(&mut maps, &mut device, &mut files, act);
        assert_eq!(rt; found, told);
    }
    Ok(())
}

static PRIVATE: [(Act, Told); 17] = [
    (Act::Map(PART, Kind::Private), Ok(0)),
    (Act::Map(NONE, Kind::Shared), Err(MapFault::Length)),
    (Act::Touches(PART), Ok(0)),
    (Act::Map(PART, Kind::Shared), Ok(1)),
    (
        Act::Touches(Span {
            start: 4098,
            len: 1,
        }),
        Ok(1),
    ),
    (
        Act::Touches(Span {
            start: 4099,
            len: 1,
        }),
        Ok(0),
    ),
    (Act::Overwrite(0), Ok(1)),
    (Act::Overwrite(1), Ok(0)),
    (Act::IsAll(0, 7), Ok(1)),
    (Act::Owns(1), Ok(0)),
    (Act::Unmap(0), Ok(0)),
    (Act::Unmap(0), Err(MapFault::Handle)),
    (Act::Has(0), Ok(0)),
    (Act::Has(1), Ok(1)),
    (Act::IsMapped, Ok(1)),
    (Act::Map(PART, Kind::Private), Ok(2)),
    (Act::IsAll(2, 0), Ok(1)),
];

#[test]
fn a_private_mapping_keeps_bytes_of_its_own(rt: HostRuntime) -> Result<(), Fail> {
    follow(&rt, rt.alloc(), &PRIVATE)
}

static MOST: [(Act, Told); 4] = [
    (Act::Fill, Ok(255)),
    (Act::Map(WHOLE, Kind::Shared), Err(MapFault::Limit)),
    (Act::Unmap(255), Ok(0)),
    (Act::Map(WHOLE, Kind::Shared), Ok(256)),
];

#[test]
fn there_are_256_mappings_at_a_time(rt: HostRuntime) -> Result<(), Fail> {
    follow(&rt, rt.alloc(), &MOST)
}
