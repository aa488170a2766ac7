// Mappings made and ended.
ghost use Rattle.std.specs.Prelude.{◌≡◌, ◌+◌, ◌<◌, ◌++◌, ◌∷◌, ◌↔◌, [], IfErr, IfOk, IsErr, None, OnErr, OnOk, false};
ghost use Rattle.std.specs.Borrow.{sem};
ghost use Rattle.std.specs.Option.{option_copied_mut};
ghost use Rattle.nvm_model.specs.Mappings.{copy_of, is_full, mapping_of, without_mapping};
ghost use Rattle.mappings.specs.Lends.{lends_copy};
ghost use Rattle.mappings.specs.Object.{AreMappings, IsMapping};
ghost use Rattle.mappings.specs.Table.{mapping_under};

use crate::{MapFault, Mappings};
use indexmap::IndexMap;
use std::alloc::Global;

impl Mappings {
    /// No mappings, which takes no memory.
    pub fn new(alloc: Global) -> Self
        ensures { result ≡ record { mappings = []; next = 0 } }
    {
        Mappings {
            alloc,
            maps: IndexMap::new(alloc),
            next: 0,
        }
    }

    /// Ends a mapping. It takes no memory.
    pub fn unmap(&mut self, handle: u64) -> Result<(), MapFault>
        ensures ok { OnOk result (self.new ≡ record self.old { mappings = without_mapping handle self.old.mappings }) }
        ensures handle { IfErr result (λ fault. fault ≡ MapFault.Handle) }
        ensures refused { IsErr result ↔ (mapping_of handle self.old.mappings ≡ None) }
        ensures err { OnErr result (self.new ≡ self.old) }
    {
        let Some(_ended) = self.maps.shift_remove(&handle) else {
            return Err(MapFault::Handle);
        };
        Ok(())
    }
}
