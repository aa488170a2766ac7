// Where the lines of units lie that no page has yet.
ghost use Rattle.std.specs.Prelude.{◌≡◌, None, slice_index_or};
ghost use Rattle.word_tables.specs.Bounds.{IsValid};
ghost use Rattle.file_pages.specs.Fresh.{AreOwn, switch_units};
ghost use Rattle.file_pages.specs.Object.{unit_place};

use nvm_base::PAGE_LINES;
use page_lines::{Places, Stretch};
use std::marker::Model;
use word_tables::Geometry;

/// The lines of the units of switches, one unit's after the other's.
#[derive(Drop)]
pub(crate) struct UnitLines<'a> {
    geo: Geometry,
    switches: &'a [(u64, Option<u64>)],
}

impl<'a> Model for UnitLines<'a> {
    ghost use Rattle.word_tables.specs.Bounds.{IsValid};
    ghost use Rattle.file_pages.specs.Fresh.{AreOwn, switch_units};
    ghost use Rattle.file_pages.specs.Object.{PlacesState};

    ghost Value = { PlacesState };

    ghost view = { λ l. record { geo = l.geo; units = switch_units l.switches.now } };

    ghost invariant = { λ l. IsValid l.geo × AreOwn l.geo.fpages (switch_units l.switches.now) };
}

impl<'a> UnitLines<'a> {
    pub(crate) fn of(geo: Geometry, switches: &'a [(u64, Option<u64>)]) -> Self
        requires valid { IsValid geo }
        requires own { AreOwn geo.fpages (switch_units switches.now) }
        ensures { result ≡ record { geo = geo; units = switch_units switches.now } }
    {
        UnitLines { geo, switches }
    }

    // The unit of a switch.
    fn unit(&self, k: u64) -> Option<u64>
        ensures { result ≡ slice_index_or self.now.units k None }
    {
        match self.switches.get(k as usize) {
            Some(switch) => switch.1,
            None => None,
        }
    }
}

impl<'a> Places for UnitLines<'a> {
    ghost place = { λ lines. unit_place lines.geo lines.units };

    fn line(&self, n: u64) -> Option<u64> {
        match self.unit(n / PAGE_LINES) {
            Some(unit) => Some(self.geo.file_line(unit) + n % PAGE_LINES),
            None => None,
        }
    }

    // The lines of a unit.
    fn stretch(&self, n: u64, _end: u64) -> Stretch {
        let k = n / PAGE_LINES;
        let line = match self.unit(k) {
            Some(unit) => Some(self.geo.file_line(unit)),
            None => None,
        };
        Stretch::new(PAGE_LINES * k, PAGE_LINES, line)
    }
}
