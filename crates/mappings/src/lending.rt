// The bytes of private mappings, for writing.
ghost use Rattle.std.specs.Prelude.{◌≡◌, ◌↔◌, ◌+◌, ◌≤◌, IfSome, IsNone, IsSome, None, Some, length};
ghost use Rattle.std.specs.Borrow.{sem};
ghost use Rattle.std.specs.Option.{option_copied_mut};
ghost use Rattle.nvm_model.specs.Mappings.{change_copy, copy_of, overwritten};
ghost use Rattle.mappings.specs.Lends.{lends_copy};

use crate::Mappings;

impl Mappings {
    /// The bytes of the private mapping with that handle, for writing. `bytes_mut` says besides what is left of them.
    pub fn copy_mut(&mut self, handle: u64) -> Option<&mut [u8]>
        ensures { option_copied_mut result ≡ copy_of handle self.old.mappings }
    {
        match self.copy(handle) {
            Some(_) => Some(self.bytes_mut(handle)),
            None => None,
        }
    }

    /// Puts bytes at an offset of a private mapping.
    pub fn overwrite(&mut self, handle: u64, offset: u64, bytes: &[u8])
        requires own { IsSome (copy_of handle self.old.mappings) }
        requires within { IfSome (copy_of handle self.old.mappings) (λ copy. offset + length bytes.now ≤ length copy) }
        ensures { self.new ≡ record self.old { mappings = change_copy handle (overwritten offset bytes.now) self.old.mappings } }
    {
        let _maps = self.get(handle);
        let start = offset as usize;
        self.bytes_mut(handle)[start..start + bytes.len()].copy_from_slice(bytes);
    }

    /// The bytes of a private mapping, for writing.
    pub fn bytes_mut(&mut self, handle: u64) -> &mut [u8]
        requires { IsSome (copy_of handle self.old.mappings) }
        ensures* writes_back { sem 𝓛 (lends_copy self.entry handle result) }
        ensures value { copy_of handle self.old.mappings ≡ Some result.now }
    {
        let index = self.maps.get_index_of(&handle).unwrap();
        self.maps[index].bytes_mut()
    }
}
