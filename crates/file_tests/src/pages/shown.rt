// Whether a file has certain bytes.
ghost use Rattle.std.specs.Prelude.{◌≡◌, IsTrue};
ghost use Rattle.file_journal.specs.Tables.{known_units};
ghost use Rattle.file_pages.specs.Object.{PagesServe, is_settled};

use super::Told;
use super::calls::load;
use file_pages::{FilePages, PageFault};
use line_device::Lines;

// No act here loads more.
const MOST: usize = 4098;

// Bytes of one value, then bytes of the next one, and how many these are.
fn spread(runs: &[(usize, u8)]) -> (usize, [u8; MOST]) {
    let mut bytes = [0xee; MOST];
    let mut at: usize = 0;
    for &(count, byte) in runs {
        let end = at.saturating_add(count);
        if let Some(part) = bytes.get_mut(at..end) {
            part.fill(byte);
        }
        at = end;
    }
    (at, bytes)
}

fn load_part<L: Lines>(
    files: &mut FilePages,
    dev: &mut L,
    offset: u64,
    len: usize,
    out: &mut [u8; MOST],
) -> Result<(), PageFault>
    requires serves { IsTrue (is_settled files.old) → PagesServe files.old (L.state dev.old).medium }
    requires held { IsTrue (is_settled files.old) → known_units files.old.journal.tables.pages files.old.journal.free ≡ files.old.journal.geo.fpages }
    ensures serves { IsTrue (is_settled files.new) → PagesServe files.new (L.state dev.new).medium }
    ensures held { IsTrue (is_settled files.new) → known_units files.new.journal.tables.pages files.new.journal.free ≡ files.new.journal.geo.fpages }
{
    match out.get_mut(..len) {
        Some(part) => load(files, dev, offset, part),
        None => Err(PageFault::Length),
    }
}

// It tells whether the bytes from an offset on are these.
pub(super) fn shows<L: Lines>(
    files: &mut FilePages,
    dev: &mut L,
    offset: u64,
    runs: &[(usize, u8)],
) -> Told
    requires serves { IsTrue (is_settled files.old) → PagesServe files.old (L.state dev.old).medium }
    requires held { IsTrue (is_settled files.old) → known_units files.old.journal.tables.pages files.old.journal.free ≡ files.old.journal.geo.fpages }
    ensures serves { IsTrue (is_settled files.new) → PagesServe files.new (L.state dev.new).medium }
    ensures held { IsTrue (is_settled files.new) → known_units files.new.journal.tables.pages files.new.journal.free ≡ files.new.journal.geo.fpages }
{
    let (len, wanted) = spread(runs);
    let mut out = [0xee; MOST];
    match load_part(files, dev, offset, len, &mut out) {
        Ok(()) => Told::Is(u64::from(out == wanted)),
        Err(fault) => Told::Page(fault),
    }
}
