//! Mappings of files, each under a handle: a shared one shows its file, a private one is a copy of its bytes.
#![tactic(auto)]

mod changing;
mod fault;
mod info;
mod lending;
mod making;
mod mapping;
mod queries;

pub use fault::MapFault;
use indexmap::IndexMap;
pub use info::MapInfo;
use mapping::Mapping;
use std::alloc::Global;
use std::marker::Model;

/// Mappings by handle. Contracts see them as the machine has them, in order of handle, and the next handle.
#[derive(Drop)]
pub struct Mappings {
    alloc: Global,
    maps: IndexMap<u64, Mapping>,
    next: u64,
}

impl Model for Mappings {
    ghost use Rattle.mappings.specs.Object.{AreMappings, MappingsState};
    ghost use Rattle.mappings.specs.Table.{listed};

    ghost Value = { MappingsState };

    ghost view = { λ m. record { mappings = listed m.maps.entries; next = m.next } };

    ghost invariant = { λ m. AreMappings (record { mappings = listed m.maps.entries; next = m.next }) };
}
