// A mapping as it is kept.
ghost use Rattle.std.specs.Prelude.{◌≡◌};
ghost use Rattle.std.specs.Borrow.{sem};
ghost use Rattle.std.specs.Str.{bytes_eq};
ghost use Rattle.nvm_base.specs.Units.{overlap};
ghost use Rattle.mappings.specs.KeptLends.{lends_bytes};
ghost use Rattle.mappings.specs.Object.{IsInReach};
ghost use Rattle.mappings.specs.Table.{kept_shows};

use crate::MapInfo;
use nvm_base::{Bytes, Kind, Name, Span};

/// A mapping, but for its handle.
#[derive(Drop)]
pub(crate) struct Mapping {
    pub info: MapInfo,
    // of a private one, and else empty
    pub copy: Bytes,
}

impl Mapping {
    pub fn is_of(&self, name: &Name) -> bool
        ensures { result ≡ bytes_eq self.now.info.name name.now }
    {
        self.info.name == *name
    }

    /// Whether it is shared and has a byte of that span.
    pub fn shows(&self, name: &Name, span: Span) -> bool
        requires own { IsInReach self.now.info.span }
        ensures { result ≡ kept_shows name.now span self.now }
    {
        self.info.kind == Kind::Shared && self.is_of(name) && meets(self.info.span, span)
    }

    pub fn bytes_mut(&mut self) -> &mut [u8]
        ensures* writes_back { sem 𝓛 (lends_bytes self.entry result) }
        ensures value { result.now ≡ self.old.copy.items }
    {
        self.copy.as_mut_slice()
    }
}

// Whether each begins before the other ends; the second one may end anywhere.
fn meets(own: Span, span: Span) -> bool
    requires own { IsInReach own }
    ensures { result ≡ overlap own span }
{
    own.start < span.start.saturating_add(span.len) && span.start < own.start + own.len
}
