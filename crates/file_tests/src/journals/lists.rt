// The list of files, as changes are made.
ghost use Rattle.std.specs.Prelude.{IfOk, IsTrue};
ghost use Rattle.line_device.specs.Plain.{device_of};
ghost use Rattle.file_journal.specs.Object.{JournalServes};

use super::{Change, make, name, open};
use crate::devices::fresh;
use file_journal::{Journal, JournalFault};
use line_device::{Choice, Lines, Plain};
use nvm_base::FileEntry;
use std::alloc::{AllocError, Global};
use std::test::Fail;

// The files of a list: their names, and how many pages they have.
type Listed = &'static [(&'static [u8], u64)];

static STEPS: [(Change, Listed); 10] = [
    (Change::Create(b"b", 2), &[(b"b", 2)]),
    (Change::Create(b"a.b", 0), &[(b"a.b", 0), (b"b", 2)]),
    (
        Change::Create(b"a", 256),
        &[(b"a", 256), (b"a.b", 0), (b"b", 2)],
    ),
    (
        Change::Create(b"a_", 1),
        &[(b"a", 256), (b"a.b", 0), (b"a_", 1), (b"b", 2)],
    ),
    (
        Change::Create(b"a-", 7),
        &[(b"a", 256), (b"a-", 7), (b"a.b", 0), (b"a_", 1), (b"b", 2)],
    ),
    (
        Change::Rename(b"a", b"z"),
        &[(b"a-", 7), (b"a.b", 0), (b"a_", 1), (b"b", 2), (b"z", 256)],
    ),
    (
        Change::Delete(b"a.b"),
        &[(b"a-", 7), (b"a_", 1), (b"b", 2), (b"z", 256)],
    ),
    (
        Change::Create(b"a0", 3),
        &[(b"a-", 7), (b"a0", 3), (b"a_", 1), (b"b", 2), (b"z", 256)],
    ),
    (
        Change::Resize(b"b", 9),
        &[(b"a-", 7), (b"a0", 3), (b"a_", 1), (b"b", 9), (b"z", 256)],
    ),
    (
        Change::Rename(b"a-", b"a1"),
        &[(b"a0", 3), (b"a1", 7), (b"a_", 1), (b"b", 9), (b"z", 256)],
    ),
];

fn is_listed(alloc: Global, journal: &Journal, files: Listed) -> Result<bool, AllocError> {
    let list = journal.list(alloc)?;
    let same = list.as_slice().iter().zip(files).all(|(file, (name, pages))| file.name.bytes()
        == *name
        && file.pages == *pages);
    Ok(same && list.len() == files.len() as u64)
}

// Whether the files are these after a cut and a change, of which nothing else is reported.
fn lists_changed(
    alloc: Global,
    dev: &mut Plain,
    change: Change,
    files: Listed,
) -> Result<bool, Fail> {
    let mut journal = open(alloc, dev, Choice::Firsts)?;
    let changed = make(&mut journal, dev, change).is_ok();
    Ok(changed && is_listed(alloc, &journal, files)?)
}

// The same after a cut alone.
fn lists_again(alloc: Global, dev: &mut Plain, files: Listed) -> Result<bool, Fail> {
    let journal = open(alloc, dev, Choice::Firsts)?;
    Ok(is_listed(alloc, &journal, files)?)
}

#[test]
fn files_are_listed_in_order_of_name(rt: HostRuntime) -> Result<(), Fail> {
    let mut device = fresh(rt.alloc())?;
    for &(change, files) in &STEPS {
        assert!(rt; lists_changed(rt.alloc(), &mut device, change, files)?);
        assert!(rt; lists_again(rt.alloc(), &mut device, files)?);
    }
    Ok(())
}

// Makes 64 files, from `hh` down to `aa`.
fn make_all<L: Lines>(journal: &mut Journal, dev: &mut L) -> Result<(), JournalFault>
    requires { IsTrue journal.old.settled → JournalServes journal.old (L.state dev.old).medium }
    ensures { IsTrue journal.new.settled → JournalServes journal.new (L.state dev.new).medium }
{
    for n in 0..64_u8 {
        if !journal.settled() || !dev.power() {
            return Err(JournalFault::Device);
        }
        let file = name(&[b'h' - n / 8, b'h' - n % 8])?;
        journal.create(dev, &file, u64::from(n))?;
    }
    Ok(())
}

// A device with these files, and its journal.
fn filled(alloc: Global) -> Result<(Journal, Plain), Fail>
    ensures { IfOk result (λ r. IsTrue r.0.settled → JournalServes r.0 (device_of r.1).medium) }
{
    let mut device = fresh(alloc)?;
    let mut journal = open(alloc, &mut device, Choice::Lasts)?;
    if make_all(&mut journal, &mut device).is_err() {
        return Err(Fail::from("a file"));
    }
    Ok((journal, device))
}

// Whether the list has file k of the 64.
fn is_there(list: &[FileEntry], k: u8) -> bool {
    let text = [b'a' + k / 8, b'a' + k % 8];
    match list.get(k as usize) {
        Some(file) => file.name.bytes() == text.as_slice()
            && file.pages == 63_u64.saturating_sub(u64::from(k)),
        None => false,
    }
}

// Whether the 64 files are listed, and no other.
fn are_listed(alloc: Global, journal: &Journal) -> Result<bool, AllocError> {
    let list = journal.list(alloc)?;
    for k in 0..64_u8 {
        if !is_there(list.as_slice(), k) {
            return Ok(false);
        }
    }
    Ok(list.len() == 64)
}

#[test]
fn sixty_four_files_are_listed(rt: HostRuntime) -> Result<(), Fail> {
    let (mut journal, mut device) = filled(rt.alloc())?;
    let one_more = make(&mut journal, &mut device, Change::Create(b"i", 0));
    assert_eq!(rt; one_more, Err(JournalFault::Slots));
    assert!(rt; are_listed(rt.alloc(), &journal)?);
    Ok(())
}
