// Stories of files on a plain device, as a caller sees them.
ghost use Rattle.std.specs.Prelude.{IfOk, IsTrue};
ghost use Rattle.line_device.specs.Plain.{device_of};
ghost use Rattle.file_journal.specs.Object.{JournalServes};

use crate::devices::{SMALL, fresh, is_restarted};
use file_journal::{Journal, JournalFault, MountFault};
use line_device::{Choice, LineDevice, Lines, Plain};
use nvm_base::Name;
use std::alloc::Global;
use std::test::Fail;
use test_devices::Fuse;

mod lists;
mod wrong_words;

// A change of files, by their names.
#[derive(Clone, Copy)]
enum Change {
    Create(&'static [u8], u64),
    Delete(&'static [u8]),
    Rename(&'static [u8], &'static [u8]),
    Resize(&'static [u8], u64),
}

// Takes a device through a cut, and mounts its files.
fn open<D: LineDevice>(alloc: Global, dev: &mut D, choice: Choice) -> Result<Journal, MountFault>
    ensures { IfOk result (λ journal. IsTrue journal.settled → JournalServes journal (D.state dev.new).medium) }
{
    if !is_restarted(dev, choice) {
        return Err(MountFault::Device);
    }
    Journal::mount(alloc, dev, SMALL)
}

fn name(text: &[u8]) -> Result<Name, JournalFault> {
    Name::read(text).ok_or(JournalFault::Missing)
}

// The names of the file before the change and after it.
fn names(change: Change) -> Result<(Name, Name), JournalFault> {
    let (file, to) = match change {
        Change::Create(file, _) => (file, file),
        Change::Delete(file) => (file, file),
        Change::Rename(file, to) => (file, to),
        Change::Resize(file, _) => (file, file),
    };
    Ok((name(file)?, name(to)?))
}

fn make<L: Lines>(journal: &mut Journal, dev: &mut L, change: Change) -> Result<(), JournalFault>
    requires { IsTrue journal.old.settled → JournalServes journal.old (L.state dev.old).medium }
    ensures { IsTrue journal.new.settled → JournalServes journal.new (L.state dev.new).medium }
{
    let (file, to) = names(change)?;
    if !journal.settled() || !dev.power() {
        return Err(JournalFault::Device);
    }
    match change {
        Change::Create(_, pages) => journal.create(dev, &file, pages),
        Change::Delete(_) => journal.delete(dev, &file),
        Change::Rename(_, _) => journal.rename(dev, &file, &to),
        Change::Resize(_, pages) => journal.resize(dev, &file, pages),
    }
}

// How many pages a file has.
fn pages(journal: &Journal, file: &[u8]) -> Option<u64> {
    let inode = journal.find(&Name::read(file)?)?;
    Some(journal.pages(inode))
}

// How many pages a file has after a cut.
fn pages_found<D: LineDevice>(
    alloc: Global,
    dev: &mut D,
    choice: Choice,
    file: &[u8],
) -> Result<Option<u64>, MountFault> {
    let journal = open(alloc, dev, choice)?;
    Ok(pages(&journal, file))
}

// Makes a change after a cut.
fn make_anew(
    alloc: Global,
    dev: &mut Plain,
    change: Change,
) -> Result<Result<(), JournalFault>, MountFault> {
    let mut journal = open(alloc, dev, Choice::Firsts)?;
    Ok(make(&mut journal, dev, change))
}

// Changes, their answers, and how many pages the file `a` has then.
static CHANGES: [(Change, Result<(), JournalFault>, Option<u64>); 5] = [
    (Change::Delete(b"a"), Err(JournalFault::Missing), None),
    (Change::Create(b"a", 256), Ok(()), Some(256)),
    (
        Change::Create(b"a", 257),
        Err(JournalFault::Exists),
        Some(256),
    ),
    (Change::Resize(b"a", 3), Ok(()), Some(3)),
    (Change::Rename(b"a", b"c"), Ok(()), None),
];

#[test]
fn each_change_is_there_after_a_cut(rt: HostRuntime) -> Result<(), Fail> {
    let mut device = fresh(rt.alloc())?;
    for &(change, answer, left) in &CHANGES {
        assert_eq!(rt; make_anew(rt.alloc(), &mut device, change)?, answer);
        assert_eq!(rt;
            pages_found(rt.alloc(), &mut device, Choice::Firsts, b"a")?,
            left
        );
    }
    Ok(())
}

// A device with the file `settings.new`, and its journal.
fn begun(alloc: Global, choice: Choice) -> Result<(Journal, Plain), Fail>
    ensures { IfOk result (λ r. IsTrue r.0.settled → JournalServes r.0 (device_of r.1).medium) }
{
    let mut device = fresh(alloc)?;
    let mut journal = open(alloc, &mut device, choice)?;
    if make(
        &mut journal,
        &mut device,
        Change::Create(b"settings.new", 2),
    )
    .is_err()
    {
        return Err(Fail::from("no file"));
    }
    Ok((journal, device))
}

// Gives it the name `settings` on a fuse of this number of calls.
fn rename_behind<D: LineDevice>(
    journal: &mut Journal,
    dev: D,
    calls: u64,
) -> (Result<(), JournalFault>, Fuse<D>)
    requires { IsTrue journal.old.settled → JournalServes journal.old (D.state dev).medium }
{
    let mut fuse = Fuse::new(dev, calls);
    let answer = make(
        journal,
        &mut fuse,
        Change::Rename(b"settings.new", b"settings"),
    );
    (answer, fuse)
}

// How many pages are found under the old name and under the new one after a restart.
fn names_found<D: LineDevice>(
    alloc: Global,
    dev: &mut D,
    choice: Choice,
) -> Result<(Option<u64>, Option<u64>), MountFault> {
    let journal = open(alloc, dev, choice)?;
    Ok((
        pages(&journal, b"settings.new"),
        pages(&journal, b"settings"),
    ))
}

// Whether that ended with Ok, and how many pages are found under the old name and under the new one.
fn renamed(
    alloc: Global,
    choice: Choice,
    calls: u64,
) -> Result<(bool, Option<u64>, Option<u64>), Fail> {
    let (mut journal, device) = begun(alloc, choice)?;
    let (answer, mut fuse) = rename_behind(&mut journal, device, calls);
    let done = answer.is_ok();
    if journal.settled() != done || !done && answer != Err(JournalFault::PowerLost) {
        return Err(Fail::from("the answer"));
    }
    let (old, new) = names_found(alloc, &mut fuse, choice)?;
    Ok((done, old, new))
}

#[test]
fn a_file_has_one_of_its_two_names_wherever_the_power_goes(rt: HostRuntime) -> Result<(), Fail> {
    for choice in [Choice::Firsts, Choice::Lasts] {
        let mut done = false;
        for calls in 0..40_u64 {
            let (ended, old, new) = renamed(rt.alloc(), choice, calls)?;
            done = ended;
            assert!(rt; (old, new) == (None, Some(2)) || (old, new) == (Some(2), None) && !done);
            if done {
                break;
            }
        }
        assert!(rt; done);
    }
    Ok(())
}
