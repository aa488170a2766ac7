// The mappings that a program made, as far as they tell of which file a command by handle is.
ghost use Rattle.std.specs.Prelude.{◌≡◌, IfOk, OnOk, [], map, option_map};
ghost use Rattle.nvm_model.specs.Mappings.{mapping_of, without_mapping};
ghost use Rattle.cut_places.specs.Maps.{mapped, mapping_held, shown, stretch_held};

use crate::map::{MapSeen, Stretch};
use nvm_base::Kind;
use std::alloc::{AllocError, Global};
use std::marker::Model;

/// The handle at which handles end.
const LAST: u64 = 1 << 32;

/// Mappings in order of handle. Contracts see them as the machine has them, with no copies, and the next handle.
#[derive(Drop)]
pub(crate) struct MapsSeen {
    list: Vec<MapSeen>,
    next: u64,
}

impl Model for MapsSeen {
    ghost use Rattle.std.specs.Prelude.{map};
    ghost use Rattle.mappings.specs.Object.{MappingsState};
    ghost use Rattle.cut_places.specs.Maps.{mapping_held};

    ghost Value = { MappingsState };

    ghost view = { λ m. record { mappings = map mapping_held m.list.items; next = m.next } };
}

impl MapsSeen {
    pub fn new(alloc: Global) -> Self
        ensures { result ≡ record { mappings = []; next = 0 } }
    {
        MapsSeen {
            list: Vec::new(alloc),
            next: 0,
        }
    }

    pub fn duplicate(&self) -> Result<Self, AllocError>
        ensures { IfOk result (λ maps. maps ≡ self.now) }
    {
        Ok(MapsSeen {
            list: Vec::from_slice(*self.list.allocator(), &self.list)?,
            next: self.next,
        })
    }

    /// What the shared mapping with that handle shows.
    pub fn shown(&self, handle: u64) -> Option<Stretch>
        ensures { option_map stretch_held result ≡ shown handle self.now.mappings }
    {
        let map = find(&self.list, handle)?;
        match map.stretch.kind {
            Kind::Shared => Some(map.stretch),
            Kind::Private => None,
        }
    }

    /// One mapping more, under the next handle, unless handles are used up.
    pub fn map(&mut self, stretch: Stretch) -> Result<(), AllocError>
        ensures { OnOk result (self.new ≡ mapped (stretch_held stretch) self.old) }
    {
        if self.next < LAST {
            self.list.push(MapSeen {
                handle: self.next,
                stretch,
            })?;
            self.next += 1;
        }
        Ok(())
    }

    pub fn unmap(&mut self, handle: u64)
        ensures { self.new ≡ record self.old { mappings = without_mapping handle self.old.mappings } }
    {
        remove(&mut self.list, handle);
    }
}

fn find(maps: &[MapSeen], handle: u64) -> Option<MapSeen>
    ensures { option_map mapping_held result ≡ mapping_of handle (map mapping_held maps.now) }
{
    for map in maps {
        if map.handle == handle {
            return Some(*map);
        }
    }
    None
}

fn remove(maps: &mut Vec<MapSeen>, handle: u64)
    ensures { map mapping_held maps.new.items ≡ without_mapping handle (map mapping_held maps.old.items) }
{
    maps.retain(|map| map.handle != handle);
}
