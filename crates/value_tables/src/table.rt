// A table as it is printed, place by place.
ghost use Rattle.std.specs.Prelude.{◌≡◌, ◌++◌, [], IfOk, OnOk, slice_get};
ghost use Rattle.value_tables.specs.Sides.{is_row, texts};
ghost use Rattle.value_tables.specs.Tables.{changed, part, place_line};

use cut_places::CutPlace;
use nvm_base::{Bytes, print_number};
use std::alloc::{AllocError, Global};

/// Text that is printed, and the rows of the last place.
#[derive(Drop)]
pub struct Table {
    pub text: Bytes,
    pub last: Vec<Bytes>,
}

impl Table {
    pub fn new(alloc: Global) -> Self
        ensures text { result.text.items ≡ [] }
        ensures last { result.last.items ≡ [] }
    {
        Table {
            text: Bytes::new(alloc),
            last: Vec::new(alloc),
        }
    }

    /// Prints those of the rows of a place that are not as at the last one.
    pub fn print(
        &mut self,
        alloc: Global,
        place: CutPlace,
        rows: Vec<Bytes>,
    ) -> Result<(), AllocError>
        ensures text { OnOk result (self.new.text.items ≡ self.old.text.items ++ part place (changed (texts self.old.last.items) (texts rows.items))) }
        ensures last { OnOk result (texts self.new.last.items ≡ texts rows.items) }
    {
        let changed = changed_rows(alloc, &self.last, &rows)?;
        print_part(place, changed.as_slice(), &mut self.text)?;
        self.last = rows;
        Ok(())
    }
}

fn changed_rows(alloc: Global, last: &[Bytes], rows: &[Bytes]) -> Result<Bytes, AllocError>
    ensures { IfOk result (λ text. text.items ≡ changed (texts last.now) (texts rows.now)) }
{
    let mut text = Bytes::new(alloc);
    for (i, row) in rows.iter().enumerate() {
        if !is_there(last, i, row) {
            text.extend(row.as_slice())?;
        }
    }
    Ok(text)
}

// Whether row i is this one.
fn is_there(rows: &[Bytes], i: usize, row: &Bytes) -> bool
    ensures { result ≡ is_row (slice_get rows.now i) row.now.items }
{
    match rows.get(i) {
        Some(other) => other.as_slice() == row.as_slice(),
        None => false,
    }
}

// The line of a place, and the rows below it; nothing where there are none.
fn print_part(place: CutPlace, rows: &[u8], out: &mut Bytes) -> Result<(), AllocError>
    ensures { OnOk result (out.new.items ≡ out.old.items ++ part place rows.now) }
{
    if rows.is_empty() {
        return Ok(());
    }
    print_place(place, out)?;
    out.extend(rows)
}

fn print_place(place: CutPlace, out: &mut Bytes) -> Result<(), AllocError>
    ensures { OnOk result (out.new.items ≡ out.old.items ++ place_line place) }
{
    match place {
        CutPlace::Before(n) => {
            out.extend(b"before ")?;
            print_number(n, out)?;
        }
        CutPlace::Inside(n) => {
            out.extend(b"inside ")?;
            print_number(n, out)?;
        }
    }
    out.push(b'\n')
}
