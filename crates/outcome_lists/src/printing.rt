// A list of outcomes as text.
ghost use Rattle.std.specs.Prelude.{◌≡◌, ◌++◌, ◌∷◌, [], IfOk, OnOk, codes};
ghost use Rattle.outcome_walk.specs.Holding.{parts_held, trail_held, trails_held};
ghost use Rattle.outcome_walk.specs.Numbers.{numeral};
ghost use Rattle.outcome_lists.specs.Lists.{place_text};
ghost use Rattle.outcome_lists.specs.Walks.{first_place, rows_of, trail_line, trail_lines, walk_text};

use crate::place::Place;
use explorer::places::CutPlace;
use nvm_base::{Bytes, print_number};
use outcome_walk::{Found, Level, Rows, Sides, Tally, count, walk};
use std::alloc::{AllocError, Global};

/// The most outcomes that are listed.
const MOST: u32 = 65_536;

/// Appends a line for each outcome of these parts, where they are few enough, and one with their number.
pub fn print_outcomes(
    alloc: Global,
    places: &[Place],
    levels: &[Level],
    out: &mut Bytes,
) -> Result<(), AllocError>
    ensures { OnOk result (out.new.items ≡ out.old.items ++ walk_text places.now (parts_held levels.now)) }
{
    let rows = rows_of(alloc, places)?;
    let number = count(alloc, &rows, levels)?;
    if number.is_at_most(MOST) {
        print_lines(places, &walk(alloc, &rows, levels)?, out)?;
    }
    print_count(&number, out)
}

fn rows_of(alloc: Global, places: &[Place]) -> Result<Vec<Rows>, AllocError>
    ensures { IfOk result (λ rows. rows.items ≡ rows_of places.now) }
{
    let mut rows = Vec::new(alloc);
    for place in places {
        rows.push(place.rows)?;
    }
    Ok(rows)
}

fn print_lines(places: &[Place], outcomes: &[Found], out: &mut Bytes) -> Result<(), AllocError>
    ensures { OnOk result (out.new.items ≡ out.old.items ++ trail_lines places.now (trails_held outcomes.now)) }
{
    for outcome in outcomes {
        print_line(places, outcome, out)?;
    }
    Ok(())
}

fn print_line(places: &[Place], outcome: &Found, out: &mut Bytes) -> Result<(), AllocError>
    ensures { OnOk result (out.new.items ≡ out.old.items ++ trail_line places.now (trail_held outcome.now)) }
{
    let Some(place) = first_place(places, &outcome.sides) else {
        return Ok(());
    };
    print_place(place, out)?;
    out.extend(outcome.text.as_slice())?;
    out.push(b'\n')
}

fn first_place(places: &[Place], sides: &[Sides]) -> Option<CutPlace>
    ensures { result ≡ first_place places.now sides.now }
{
    for (place, sides) in places.iter().zip(sides) {
        if sides.stands() {
            return Some(place.at);
        }
    }
    None
}

fn print_count(number: &Tally, out: &mut Bytes) -> Result<(), AllocError>
    ensures { OnOk result (out.new.items ≡ out.old.items ++ (codes "outcomes " ++ (numeral number.now ++ 10 ∷ []))) }
{
    out.extend(b"outcomes ")?;
    number.print(out)?;
    out.push(b'\n')
}

/// Appends where a cut falls.
pub fn print_place(place: CutPlace, out: &mut Bytes) -> Result<(), AllocError>
    ensures { OnOk result (out.new.items ≡ out.old.items ++ place_text place) }
{
    let (word, n) = match place {
        CutPlace::Before(n) => (b"before ".as_slice(), n),
        CutPlace::Inside(n) => (b"inside ".as_slice(), n),
    };
    out.extend(word)?;
    print_number(n, out)
}
