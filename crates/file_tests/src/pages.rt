// What is done with the bytes of a file of three pages, and what it tells.
ghost use Rattle.std.specs.Prelude.{◌≡◌, IfOk, IsTrue};
ghost use Rattle.file_journal.specs.Tables.{known_units};
ghost use Rattle.file_pages.specs.Object.{PagesServe, is_settled};

use crate::devices::{SMALL, fresh, is_restarted, make};
use calls::{persist, store, write, write_both};
use file_actions::ActionFault;
use file_journal::MountFault;
use file_pages::{FilePages, PageFault};
use line_device::{Choice, LineDevice, Lines, Plain};
use lines::run_is;
use nvm_base::Span;
use shown::shows;
use std::alloc::Global;
use std::test::Fail;

mod calls;
mod cuts;
mod lines;
mod shown;
mod stories;

// Acts by offsets and lengths in bytes; what is stored or written is bytes of one value.
#[derive(Clone, Copy)]
enum Act {
    Store(u64, usize, u8),
    // Whether the bytes from an offset on are these: some of one value, then some of the next one.
    Shows(u64, &'static [(usize, u8)]),
    Persist(u64, u64),
    Write(u64, usize, u8),
    // Seven bytes of 7 at one offset and three of 3 at another one, together.
    Both([u64; 2]),
    // How many pages of files lie on units.
    Used,
    // Whether the run of the second page has one of these numbers of pages.
    RunIs([u64; 2]),
}

// What an act tells: a value, or 1 for what is so and else 0, or a fault.
#[derive(Clone, Copy, Debug, PartialEq, Eq)]
enum Told {
    Done,
    // The same of a store that made lines durable.
    Filled,
    Is(u64),
    Hole,
    Page(PageFault),
    Action(ActionFault),
}

// A device with the file `a`, all of it holes.
fn with_file(alloc: Global) -> Result<Plain, Fail> {
    let mut device = fresh(alloc)?;
    make(alloc, &mut device, b"a", 3)?;
    Ok(device)
}

// Takes a device through a cut, and mounts its files.
fn open<D: LineDevice>(alloc: Global, dev: &mut D, choice: Choice) -> Result<FilePages, MountFault>
    ensures serves { IfOk result (λ files. PagesServe files (D.state dev.new).medium) }
    ensures held { IfOk result (λ files. known_units files.journal.tables.pages files.journal.free ≡ files.journal.geo.fpages) }
{
    if !is_restarted(dev, choice) {
        return Err(MountFault::Device);
    }
    FilePages::mount(alloc, dev, SMALL)
}

// Bytes of one value; no act here has more.
fn many(bytes: &[u8; 4098], len: usize) -> &[u8] {
    bytes.get(..len).unwrap_or(&[])
}

fn perform<L: Lines>(files: &mut FilePages, dev: &mut L, act: Act) -> Told
    requires serves { IsTrue (is_settled files.old) → PagesServe files.old (L.state dev.old).medium }
    requires held { IsTrue (is_settled files.old) → known_units files.old.journal.tables.pages files.old.journal.free ≡ files.old.journal.geo.fpages }
    ensures serves { IsTrue (is_settled files.new) → PagesServe files.new (L.state dev.new).medium }
    ensures held { IsTrue (is_settled files.new) → known_units files.new.journal.tables.pages files.new.journal.free ≡ files.new.journal.geo.fpages }
{
    match act {
        Act::Store(offset, len, byte) => store(files, dev, offset, many(&[byte; 4098], len)),
        Act::Shows(offset, runs) => shows(files, dev, offset, runs),
        Act::Persist(start, len) => persist(files, dev, Span { start, len }),
        Act::Write(offset, len, byte) => write(files, dev, offset, many(&[byte; 4098], len)),
        Act::Both(starts) => write_both(files, dev, starts),
        Act::Used => Told::Is(files.journal().used()),
        Act::RunIs(lens) => run_is(files, lens),
    }
}
