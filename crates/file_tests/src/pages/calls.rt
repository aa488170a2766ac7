// Calls on the bytes of the file.
ghost use Rattle.std.specs.Prelude.{◌≡◌, ◌<◌, IsTrue};
ghost use Rattle.file_journal.specs.Tables.{known_units};
ghost use Rattle.file_pages.specs.Object.{PagesServe, is_settled};

use super::Told;
use file_actions::{ActionFault, atomic_multiwrite, atomic_write};
use file_pages::{FilePages, PageFault, borrow_line};
use line_device::Lines;
use nvm_base::{Name, Span};

// The file's inode; with no file one that has no bytes.
pub(super) fn file(files: &FilePages) -> u64
    ensures { result < 64 }
{
    match Name::read(b"a") {
        Some(name) => files.journal().find(&name).unwrap_or(63),
        None => 63,
    }
}

pub(super) fn store<L: Lines>(files: &mut FilePages, dev: &mut L, offset: u64, bytes: &[u8]) -> Told
    requires serves { IsTrue (is_settled files.old) → PagesServe files.old (L.state dev.old).medium }
    requires held { IsTrue (is_settled files.old) → known_units files.old.journal.tables.pages files.old.journal.free ≡ files.old.journal.geo.fpages }
    ensures serves { IsTrue (is_settled files.new) → PagesServe files.new (L.state dev.new).medium }
    ensures held { IsTrue (is_settled files.new) → known_units files.new.journal.tables.pages files.new.journal.free ≡ files.new.journal.geo.fpages }
{
    let inode = file(files);
    if !files.settled() || !dev.power() || 65_536 < bytes.len() {
        return Told::Page(PageFault::Device);
    }
    let persists = dev.counts().persists;
    let answer = files.store(dev, inode, offset, bytes);
    told_of_store(answer, dev.counts().persists == persists)
}

fn told_of_store(answer: Result<(), PageFault>, in_place: bool) -> Told {
    match answer {
        Ok(()) if in_place => Told::Done,
        Ok(()) => Told::Filled,
        Err(fault) => Told::Page(fault),
    }
}

pub(super) fn load<L: Lines>(
    files: &mut FilePages,
    dev: &mut L,
    offset: u64,
    out: &mut [u8],
) -> Result<(), PageFault>
    requires serves { IsTrue (is_settled files.old) → PagesServe files.old (L.state dev.old).medium }
    requires held { IsTrue (is_settled files.old) → known_units files.old.journal.tables.pages files.old.journal.free ≡ files.old.journal.geo.fpages }
    ensures serves { IsTrue (is_settled files.new) → PagesServe files.new (L.state dev.new).medium }
    ensures held { IsTrue (is_settled files.new) → known_units files.new.journal.tables.pages files.new.journal.free ≡ files.new.journal.geo.fpages }
{
    let inode = file(files);
    if !files.settled() || !dev.power() {
        return Err(PageFault::Device);
    }
    files.load_into(dev, inode, offset, out)
}

// It tells how many lines were made durable.
pub(super) fn persist<L: Lines>(files: &mut FilePages, dev: &mut L, span: Span) -> Told
    requires serves { IsTrue (is_settled files.old) → PagesServe files.old (L.state dev.old).medium }
    requires held { IsTrue (is_settled files.old) → known_units files.old.journal.tables.pages files.old.journal.free ≡ files.old.journal.geo.fpages }
    ensures serves { IsTrue (is_settled files.new) → PagesServe files.new (L.state dev.new).medium }
    ensures held { IsTrue (is_settled files.new) → known_units files.new.journal.tables.pages files.new.journal.free ≡ files.new.journal.geo.fpages }
{
    let inode = file(files);
    if !files.settled() || !dev.power() {
        return Told::Page(PageFault::Device);
    }
    let persists = dev.counts().persists;
    let answer = files.persist(dev, inode, span);
    told_of_persist(answer, dev.counts().persists.saturating_sub(persists))
}

fn told_of_persist(answer: Result<(), PageFault>, lines: u64) -> Told {
    match answer {
        Ok(()) => Told::Is(lines),
        Err(fault) => Told::Page(fault),
    }
}

fn first_of(bytes: &[u8]) -> Told {
    match bytes.first() {
        Some(byte) => Told::Is(u64::from(*byte)),
        None => Told::Hole,
    }
}

// The first byte of a line, where it is no hole's.
pub(super) fn first_byte<L: Lines>(files: &FilePages, dev: &mut L, line: u64) -> Told
    requires { PagesServe files.now (L.state dev.old).medium }
{
    let inode = file(files);
    if !dev.power() {
        return Told::Page(PageFault::Device);
    }
    match borrow_line(dev, files, inode, line) {
        Ok(Some(bytes)) => first_of(bytes),
        Ok(None) => Told::Hole,
        Err(fault) => Told::Page(fault),
    }
}

pub(super) fn write<L: Lines>(files: &mut FilePages, dev: &mut L, offset: u64, bytes: &[u8]) -> Told
    requires serves { IsTrue (is_settled files.old) → PagesServe files.old (L.state dev.old).medium }
    requires held { IsTrue (is_settled files.old) → known_units files.old.journal.tables.pages files.old.journal.free ≡ files.old.journal.geo.fpages }
    ensures serves { IsTrue (is_settled files.new) → PagesServe files.new (L.state dev.new).medium }
    ensures held { IsTrue (is_settled files.new) → known_units files.new.journal.tables.pages files.new.journal.free ≡ files.new.journal.geo.fpages }
{
    let inode = file(files);
    if !files.settled() || !dev.power() {
        return Told::Action(ActionFault::Device);
    }
    told_of_write(atomic_write(dev, files, inode, offset, bytes))
}

pub(super) fn write_both<L: Lines>(files: &mut FilePages, dev: &mut L, starts: [u64; 2]) -> Told
    requires serves { IsTrue (is_settled files.old) → PagesServe files.old (L.state dev.old).medium }
    requires held { IsTrue (is_settled files.old) → known_units files.old.journal.tables.pages files.old.journal.free ≡ files.old.journal.geo.fpages }
    ensures serves { IsTrue (is_settled files.new) → PagesServe files.new (L.state dev.new).medium }
    ensures held { IsTrue (is_settled files.new) → known_units files.new.journal.tables.pages files.new.journal.free ≡ files.new.journal.geo.fpages }
{
    let inode = file(files);
    if !files.settled() || !dev.power() {
        return Told::Action(ActionFault::Device);
    }
    let first = Span {
        start: starts[0],
        len: 7,
    };
    let second = Span {
        start: starts[1],
        len: 3,
    };
    let bytes = [7, 7, 7, 7, 7, 7, 7, 3, 3, 3];
    told_of_write(atomic_multiwrite(dev, files, inode, &[first, second], &bytes))
}

fn told_of_write(answer: Result<(), ActionFault>) -> Told {
    match answer {
        Ok(()) => Told::Done,
        Err(fault) => Told::Action(fault),
    }
}
