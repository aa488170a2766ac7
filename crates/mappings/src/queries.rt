// What is known of mappings.
ghost use Rattle.std.specs.Prelude.{◌≡◌, All};
ghost use Rattle.std.specs.Option.{option_copied, option_map};
ghost use Rattle.std.specs.List.{list_any};
ghost use Rattle.std.specs.Str.{bytes_eq};
ghost use Rattle.indexmap.specs.IndexMap.{values};
ghost use Rattle.nvm_model.specs.Mappings.{copy_of, is_mapped, is_shown, mapping_of};
ghost use Rattle.mappings.specs.Object.{AreMappings, IsInReach, info_of};
ghost use Rattle.mappings.specs.Table.{kept_shows};

use crate::mapping::Mapping;
use crate::{MapInfo, Mappings};
use indexmap::IndexMap;
use nvm_base::{Kind, Name, Span};

impl Mappings {
    /// The mapping with that handle.
    pub fn get(&self, handle: u64) -> Option<MapInfo>
        ensures info { result ≡ option_map info_of (mapping_of handle self.now.mappings) }
        ensures mappings { AreMappings self.now }
    {
        Some(self.maps.get(&handle)?.info)
    }

    /// The bytes of the private mapping with that handle.
    pub fn copy(&self, handle: u64) -> Option<&[u8]>
        ensures { option_copied result ≡ copy_of handle self.now.mappings }
    {
        let mapping = self.maps.get(&handle)?;
        match mapping.info.kind {
            Kind::Shared => None,
            Kind::Private => Some(mapping.copy.as_slice()),
        }
    }

    /// Whether a file has a mapping, shared or private.
    pub fn has(&self, name: &Name) -> bool
        ensures { result ≡ is_mapped name.now self.now.mappings }
    {
        is_any_of(&self.maps, name)
    }

    /// Whether a shared mapping of a file has a byte of that span, which may end anywhere. An empty one counts where it lies inside.
    pub fn touches(&self, name: &Name, span: Span) -> bool
        ensures { result ≡ is_shown name.now span self.now.mappings }
    {
        is_any_shown(&self.maps, name, span)
    }
}

fn is_any_of(maps: &IndexMap<u64, Mapping>, name: &Name) -> bool
    ensures { result ≡ list_any (λ mapping. bytes_eq mapping.info.name name.now) (values maps.now) }
{
    maps.values().any(|mapping| mapping.is_of(name))
}

fn is_any_shown(maps: &IndexMap<u64, Mapping>, name: &Name, span: Span) -> bool
    requires { All (λ mapping. IsInReach mapping.info.span) (values maps.now) }
    ensures { result ≡ list_any (λ mapping. kept_shows name.now span mapping) (values maps.now) }
{
    maps.values().any(|mapping| mapping.shows(name, span))
}
