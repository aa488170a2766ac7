// Which units a cut inside a command leaves as they are, and what the command makes of the others.
ghost use Rattle.std.specs.Prelude.{◌≡◌, IfOk, option_and_then, option_map};
ghost use Rattle.std.specs.Option.{option_copied};
ghost use Rattle.word_tables.specs.Bounds.{IsValid};
ghost use Rattle.script_text.specs.Action.{action_of};
ghost use Rattle.cut_places.specs.AskedReads.Program.{IsBounded};
ghost use Rattle.cut_places.specs.SightsSeen.Ways.{blocks_way, lines_way};
ghost use Rattle.witnesses.specs.Leaving.{made_by, mixing, stays};

use cut_places::reads_asked::Question;
use cut_places::sights_seen::{Unit, Way, all_fit, page_fits};
use script_text::Command;
use std::alloc::AllocError;
use word_tables::Geometry;

/// Whether the unit is left as it is: where it fits the question so, or where all do that are changed together with it.
pub fn stays<U: Unit>(units: &[U], question: &Question, way: Option<Way>, unit: &U) -> bool
    ensures { result ≡ stays way (U.may_fit question.now) U.page_of units.now unit.now }
{
    match way {
        None => true,
        Some(Way::Each) => unit.fits(question),
        Some(Way::Together) => all_fit(units, question),
        Some(Way::ByPage) => page_fits(units, question, unit.page()),
    }
}

/// How a cut inside the command mixes lines of the volume, if there is one.
pub fn way_of_lines(inside: Option<&Command>) -> Option<Way>
    ensures { result ≡ option_and_then lines_way (option_map action_of (option_copied inside.entry)) }
{
    inside.and_then(Way::of_lines)
}

/// How it mixes blocks.
pub fn way_of_blocks(inside: Option<&Command>) -> Option<Way>
    ensures { result ≡ option_and_then blocks_way (option_map action_of (option_copied inside.entry)) }
{
    inside.and_then(Way::of_blocks)
}

/// The command, where a cut inside it may leave some units as it makes them.
pub fn mixing(way: Option<Way>, inside: Option<&Command>) -> Option<&Command>
    requires { IsBounded (option_copied inside) }
    ensures command { option_map action_of (option_copied result) ≡ mixing way (option_map action_of (option_copied inside.entry)) }
    ensures bounded { IsBounded (option_copied result) }
{
    match way {
        None => None,
        Some(_) => inside,
    }
}

/// The unit once the command is done, or the same where there is none.
pub fn make<U: Unit>(
    unit: &U,
    geometry: Geometry,
    inside: Option<&Command>,
) -> Result<U, AllocError>
    requires valid { IsValid geometry }
    requires bounded { IsBounded (option_copied inside) }
    ensures { IfOk result (λ made. made ≡ made_by (U.once_done geometry) (option_map action_of (option_copied inside.entry)) unit.now) }
{
    let mut made = unit.duplicate()?;
    if let Some(command) = inside {
        made.change(geometry, command)?;
    }
    Ok(made)
}
