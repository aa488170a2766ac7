// One row as text.
ghost use Rattle.std.specs.Prelude.{◌≡◌, ◌*◌, ◌%◌, ◌<◌, ◌^◌, ◌++◌, ◌||◌, [], ◌∷◌, IfOk, OnOk, codes, decimal, length};
ghost use Rattle.value_tables.specs.Left.{Found};
ghost use Rattle.value_tables.specs.Sides.{block_at, line_at};
ghost use Rattle.value_tables.specs.Values.{block_values, may_be_bad, values_with};
ghost use Rattle.value_tables.specs.Rows.{row_text, sights_text, word_text};
ghost use Rattle.value_tables.specs.declared.shown.Shown.TheVariants.{Refuses};

use crate::sides::Sides;
use crate::values::WordValues;
use cut_places::sights_seen::{LineSeen, print_sight, same_block};
use nvm_base::{Bytes, LINE, WORD, print_number};
use reply_text::{Reply, Why, print};
use std::alloc::{AllocError, Global};

/// Words of a line.
pub const WORDS: u64 = LINE / WORD;

/// Row of word p, whose line is the one at that place of those looked at.
pub fn word_row(alloc: Global, k: u64, p: u64, at: u64, sides: &Sides) -> Result<Bytes, AllocError>
    requires { p < 2 ^ 32 }
    ensures { IfOk result (λ row. row.items
        ≡ decimal k ++ (codes " volume " ++ (decimal (8 * p) ++ (word_text (p % 8) (line_at sides.now.lines.now at ++ line_at sides.now.new_lines.now at) ++ 10 ∷ [])))) }
{
    let w = p % WORDS;
    let mut values = WordValues::none(alloc);
    add_line(sides.lines, at, w, &mut values)?;
    add_line(sides.new_lines, at, w, &mut values)?;
    let mut row = begun(alloc, k, b" volume ", WORD * p)?;
    values.print(&mut row)?;
    row.push(b'\n')?;
    Ok(row)
}

/// Row of block b, which is at that place.
pub fn block_row(alloc: Global, k: u64, b: u64, at: u64, sides: &Sides) -> Result<Bytes, AllocError>
    requires { at < length sides.now.blocks.now }
    ensures { IfOk result (λ row. row.items
        ≡ decimal k ++ (codes " block " ++ (decimal b ++ (sights_text (block_values (block_at sides.now.blocks.now at ++ block_at sides.now.new_blocks.now at)) ++ 10 ∷ [])))) }
{
    let mut row = begun(alloc, k, b" block ", b)?;
    print_sides(sides, at, &mut row)?;
    row.push(b'\n')?;
    Ok(row)
}

/// Row of a read that is refused.
pub fn refused_row(alloc: Global, k: u64, why: Why) -> Result<Bytes, AllocError>
    ensures { (may : Found) → IfOk result (λ row. row.items ≡ row_text may k (Refuses why)) }
{
    let mut row = Bytes::new(alloc);
    print_number(k, &mut row)?;
    row.push(b' ')?;
    print(&Reply::Refused(why), &mut row)?;
    Ok(row)
}

fn begun(alloc: Global, k: u64, words: &[u8], number: u64) -> Result<Bytes, AllocError>
    ensures { IfOk result (λ row. row.items ≡ decimal k ++ (words.now ++ decimal number)) }
{
    let mut row = Bytes::new(alloc);
    print_number(k, &mut row)?;
    row.extend(words)?;
    print_number(number, &mut row)?;
    Ok(row)
}

// What word w may be in the line at that place, if there is one.
fn add_line(lines: &[LineSeen], at: u64, w: u64, values: &mut WordValues) -> Result<(), AllocError>
    requires { w < 8 }
    ensures bad { OnOk result (values.new.is_bad ≡ (values.old.is_bad || may_be_bad (line_at lines.now at))) }
    ensures values { OnOk result (values.new.values.items ≡ values_with w values.old.values.items (line_at lines.now at)) }
{
    match lines.get(at as usize) {
        Some(seen) => values.add(&seen.line, w),
        None => Ok(()),
    }
}

// The block at that place, and the new one, unless reads see the same of both.
fn print_sides(sides: &Sides, at: u64, row: &mut Bytes) -> Result<(), AllocError>
    requires { at < length sides.now.blocks.now }
    ensures { OnOk result (row.new.items ≡ row.old.items ++ sights_text (block_values (block_at sides.now.blocks.now at ++ block_at sides.now.new_blocks.now at))) }
{
    let old = &sides.blocks[at as usize].block;
    print_sight(old, row)?;
    match sides.new_blocks.get(at as usize) {
        Some(new) if !same_block(&new.block, old) => print_sight(&new.block, row),
        Some(_) | None => Ok(()),
    }
}
