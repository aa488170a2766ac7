// Where the lines of the volume lie.
ghost use Rattle.std.specs.Prelude.{◌≡◌, length};
ghost use Rattle.word_tables.specs.Bounds.{IsValid};
ghost use Rattle.pm_volume.specs.Object.{volume_place};

use crate::Volume;
use nvm_base::{LINE, PAGE};
use page_lines::Places;
use std::marker::Model;
use word_tables::Geometry;

/// The lines of the pages that exist, or of those that are absent.
#[derive(Drop)]
pub(crate) struct PageLines<'a> {
    geo: Geometry,
    present: &'a [bool],
    wanted: bool,
}

impl<'a> Model for PageLines<'a> {
    ghost use Rattle.std.specs.Prelude.{◌≡◌, length};
    ghost use Rattle.word_tables.specs.Bounds.{IsValid};
    ghost use Rattle.pm_volume.specs.Object.{PlacesState};

    ghost Value = { PlacesState };

    ghost view = { λ l. record { geo = l.geo; present = l.present.now; wanted = l.wanted } };

    ghost invariant = { λ l. IsValid l.geo × (length l.present.now ≡ l.geo.vpages) };
}

impl<'a> PageLines<'a> {
    fn of(geo: Geometry, present: &'a [bool], wanted: bool) -> Self
        requires valid { IsValid geo }
        requires all { length present.now ≡ geo.vpages }
        ensures { result ≡ record { geo = geo; present = present.now; wanted = wanted } }
    {
        PageLines {
            geo,
            present,
            wanted,
        }
    }
}

impl Volume {
    // The lines of the pages that are there, or of those that are absent.
    pub(crate) fn lines(&self, wanted: bool) -> PageLines<'_>
        ensures { result ≡ record { geo = self.now.geo; present = self.now.present; wanted = wanted } }
    {
        PageLines::of(self.geo, self.present.as_slice(), wanted)
    }
}

impl<'a> Places for PageLines<'a> {
    ghost place = { λ lines. volume_place lines.geo lines.present lines.wanted };

    fn line(&self, n: u64) -> Option<u64> {
        let page = (n / (PAGE / LINE)) as usize;
        match self.present.get(page) {
            Some(is_there) if *is_there == self.wanted => Some(self.geo.volume_line(n)),
            _ => None,
        }
    }
}
