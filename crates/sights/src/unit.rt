// What a question looks at, line by line and block by block, and how a cut inside a command may leave it.
ghost use Rattle.std.specs.Prelude.{◌≡◌, ◌&&◌, ◌||◌, ◌==◌, ℕ, Bool, map, not, IfOk, OnOk};
ghost use Rattle.std.specs.List.{list_all};
ghost use Rattle.script_text.specs.Action.{Action, action_of};
ghost use Rattle.script_text.specs.Parsing.{InBounds};
ghost use Rattle.word_tables.specs.Bounds.{IsValid};
ghost use Rattle.word_tables.specs.declared.geometry.Geometry.{Geometry as Sizes};
ghost use Rattle.asked_reads.specs.declared.question.Question.{Question as Asked};
ghost use Rattle.sights.specs.Ways.{passes_by, passes_inside};

use crate::way::Way;
use asked_reads::Question;
use script_text::Command;
use std::alloc::AllocError;
use word_tables::Geometry;

/// A line or a block that a question looks at, with all that it may be once the power is back.
pub trait Unit: Drop {
    /// Whether the unit may be as the question asks.
    ghost may_fit: { Asked → Self → Bool };

    /// Unit once a command is done.
    ghost once_done: { Sizes → Action → Self → Self };

    /// Which units of the volume are discarded together.
    ghost page_of: { Self → ℕ };

    fn fits(&self, question: &Question) -> bool
        ensures { result ≡ may_fit question.now self.now };

    fn change(&mut self, geometry: Geometry, command: &Command) -> Result<(), AllocError>
        requires valid { IsValid geometry }
        requires bounded { InBounds (action_of command.now) }
        ensures { OnOk result (self.new ≡ once_done geometry (action_of command.now) self.old) };

    fn duplicate(&self) -> Result<Self, AllocError>
        ensures { IfOk result (λ unit. unit ≡ self.now) };

    fn page(&self) -> u64
        ensures { result ≡ page_of self.now };
}

/// Whether all units may be as the question asks.
pub fn all_fit<U: Unit>(units: &[U], question: &Question) -> bool
    ensures { result ≡ list_all (U.may_fit question.now) units.now }
{
    units.iter().all(|unit| unit.fits(question))
}

/// Whether they may, where the cut falls inside a command, which leaves them so.
pub fn fit_inside<U: Unit>(
    units: &[U],
    question: &Question,
    geometry: Geometry,
    command: &Command,
    way: Option<Way>,
) -> Result<bool, AllocError>
    requires valid { IsValid geometry }
    requires bounded { InBounds (action_of command.now) }
    ensures { IfOk result (λ fit. fit ≡ passes_inside way (U.may_fit question.now)
        (λ unit. U.may_fit question.now (U.once_done geometry (action_of command.now) unit)) U.page_of units.now) }
{
    match way {
        None => Ok(all_fit(units, question)),
        Some(Way::Each) => each_fits(units, question, geometry, command),
        Some(Way::Together) => {
            Ok(all_fit(units, question) || all_fit_after(units, question, geometry, command)?)
        }
        Some(Way::ByPage) => pages_fit(units, question, geometry, command),
    }
}

/// All units once a command is done.
pub fn change_all<U: Unit>(
    units: &mut Vec<U>,
    geometry: Geometry,
    command: &Command,
) -> Result<(), AllocError>
    requires valid { IsValid geometry }
    requires bounded { InBounds (action_of command.now) }
    ensures { OnOk result (units.new.items ≡ map (U.once_done geometry (action_of command.now)) units.old.items) }
{
    for unit in units.iter_mut() {
        unit.change(geometry, command)?;
    }
    Ok(())
}

fn fits_after<U: Unit>(
    unit: &U,
    question: &Question,
    geometry: Geometry,
    command: &Command,
) -> Result<bool, AllocError>
    requires valid { IsValid geometry }
    requires bounded { InBounds (action_of command.now) }
    ensures { IfOk result (λ fits. fits ≡ U.may_fit question.now (U.once_done geometry (action_of command.now) unit.now)) }
{
    let mut after = unit.duplicate()?;
    after.change(geometry, command)?;
    Ok(after.fits(question))
}

fn all_fit_after<U: Unit>(
    units: &[U],
    question: &Question,
    geometry: Geometry,
    command: &Command,
) -> Result<bool, AllocError>
    requires valid { IsValid geometry }
    requires bounded { InBounds (action_of command.now) }
    ensures { IfOk result (λ fit. fit
        ≡ list_all (λ unit. U.may_fit question.now (U.once_done geometry (action_of command.now) unit)) units.now) }
{
    for unit in units {
        if !fits_after(unit, question, geometry, command)? {
            return Ok(false);
        }
    }
    Ok(true)
}

fn each_fits<U: Unit>(
    units: &[U],
    question: &Question,
    geometry: Geometry,
    command: &Command,
) -> Result<bool, AllocError>
    requires valid { IsValid geometry }
    requires bounded { InBounds (action_of command.now) }
    ensures { IfOk result (λ fit. fit ≡ list_all (λ unit. U.may_fit question.now unit
        || U.may_fit question.now (U.once_done geometry (action_of command.now) unit)) units.now) }
{
    for unit in units {
        if !unit.fits(question) && !fits_after(unit, question, geometry, command)? {
            return Ok(false);
        }
    }
    Ok(true)
}

// Page by page, each time over all units: only few commands come to this.
fn pages_fit<U: Unit>(
    units: &[U],
    question: &Question,
    geometry: Geometry,
    command: &Command,
) -> Result<bool, AllocError>
    requires valid { IsValid geometry }
    requires bounded { InBounds (action_of command.now) }
    ensures { IfOk result (λ fit. fit ≡ passes_by Way.ByPage (U.may_fit question.now)
        (λ unit. U.may_fit question.now (U.once_done geometry (action_of command.now) unit)) U.page_of units.now) }
{
    for unit in units {
        let page = unit.page();
        if !page_fits(units, question, page)
            && !page_fits_after(units, question, geometry, command, page)?
        {
            return Ok(false);
        }
    }
    Ok(true)
}

/// Whether all units of a page may be as the question asks.
pub fn page_fits<U: Unit>(units: &[U], question: &Question, page: u64) -> bool
    ensures { result ≡ list_all (λ unit. not (U.page_of unit == page) || U.may_fit question.now unit) units.now }
{
    units
        .iter()
        .all(|unit| unit.page() != page || unit.fits(question))
}

fn page_fits_after<U: Unit>(
    units: &[U],
    question: &Question,
    geometry: Geometry,
    command: &Command,
    page: u64,
) -> Result<bool, AllocError>
    requires valid { IsValid geometry }
    requires bounded { InBounds (action_of command.now) }
    ensures { IfOk result (λ fit. fit ≡ list_all (λ unit. not (U.page_of unit == page)
        || U.may_fit question.now (U.once_done geometry (action_of command.now) unit)) units.now) }
{
    for unit in units {
        if unit.page() == page && !fits_after(unit, question, geometry, command)? {
            return Ok(false);
        }
    }
    Ok(true)
}
