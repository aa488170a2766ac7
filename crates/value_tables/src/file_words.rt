// The rows of a read of a file.
ghost use Rattle.std.specs.Prelude.{◌≡◌, ◌+◌, ◌*◌, ◌%◌, ◌≤◌, ◌<◌, ◌^◌, ◌++◌, ◌∷◌, [], true, IfOk, OnOk, codes, decimal, map};
ghost use Rattle.std.specs.List.{list_all, range_with_len};
ghost use Rattle.std.specs.Option.{option_copied};
ghost use Rattle.nvm_base.specs.Units.{units_of};
ghost use Rattle.cut_places.specs.SeesFiles.{is_held};
ghost use Rattle.value_tables.specs.declared.shown.Shown.TheVariants.{FileWord};
ghost use Rattle.value_tables.specs.Adding.{Adds};
ghost use Rattle.value_tables.specs.Left.{Found};
ghost use Rattle.value_tables.specs.Looking.{lines_spanned};
ghost use Rattle.value_tables.specs.Rows.{row_text, sides_text};
ghost use Rattle.value_tables.specs.Sides.{AreFilesLeft, new_side, side_at, texts};

use crate::file_values::FileValues;
use crate::keeping::keep;
use crate::sides::Sides;
use cut_places::FilesSeen;
use nvm_base::{Bytes, Name, Span, WORD, print_number};
use std::alloc::{AllocError, Global};

/// Rows of the words of a file that a span touches, of which the lines are held.
pub fn add_file_words(
    alloc: Global,
    k: u64,
    name: &Name,
    span: Span,
    sides: &Sides,
    rows: &mut Vec<Bytes>,
) -> Result<(), AllocError>
    requires some { 1 ≤ span.len }
    requires within { span.start + span.len ≤ 2 ^ 34 }
    requires held { list_all (is_held sides.now.files.now.numbers) (lines_spanned span.start span.len) ≡ true }
    ensures { (may : Found) → AreFilesLeft may.files sides.now.files.now (option_copied sides.now.new_files)
        → OnOk result (texts rows.new.items
        ≡ texts rows.old.items ++ map (row_text may k) (map (FileWord name.now) (range_with_len (units_of 8 span).start (units_of 8 span).len))) }
{
    for p in span.start / WORD..(span.start + span.len - 1) / WORD + 1 {
        let row = file_row(alloc, k, name, p, sides)?;
        keep(rows, row)?;
    }
    Ok(())
}

// That of word p.
fn file_row(alloc: Global, k: u64, name: &Name, p: u64, sides: &Sides) -> Result<Bytes, AllocError>
    requires { p < 2 ^ 34 }
    ensures { IfOk result (λ row. row.items ≡ decimal k ++ (codes " file " ++ (name.now ++ (32 ∷ (decimal (8 * p)
        ++ (sides_text (p % 8) (side_at sides.now.files.now name.now p ++ new_side (option_copied sides.now.new_files) name.now p) ++ 10 ∷ [])))))) }
{
    let mut values = FileValues::none(alloc);
    values.add(sides.files, name, p)?;
    add_new(&mut values, sides.new_files, name, p)?;
    let mut row = begun(alloc, k, name, WORD * p)?;
    values.print(&mut row)?;
    row.push(b'\n')?;
    Ok(row)
}

// What the word may be in the new files, if there are such.
fn add_new(
    values: &mut FileValues,
    files: Option<&FilesSeen>,
    name: &Name,
    p: u64,
) -> Result<(), AllocError>
    requires { p < 2 ^ 34 }
    ensures { OnOk result (Adds (p % 8) (new_side (option_copied files.entry) name.now p) values.old values.new) }
{
    match files {
        Some(files) => values.add(files, name, p),
        None => Ok(()),
    }
}

fn begun(alloc: Global, k: u64, name: &Name, offset: u64) -> Result<Bytes, AllocError>
    ensures { IfOk result (λ row. row.items ≡ decimal k ++ (codes " file " ++ (name.now ++ (32 ∷ decimal offset)))) }
{
    let mut row = Bytes::new(alloc);
    print_number(k, &mut row)?;
    row.extend(b" file ")?;
    row.extend(name.bytes())?;
    row.push(b' ')?;
    print_number(offset, &mut row)?;
    Ok(row)
}
