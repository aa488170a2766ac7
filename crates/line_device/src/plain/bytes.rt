ghost use Rattle.std.specs.Prelude.{◌≡◌, ◌+◌, ◌<◌, ◌≤◌, ℕ, length, slice_index};
ghost use Rattle.std.specs.Vec.{vec_len};
ghost use Rattle.line_device.specs.Word.{IsPut};

// Puts bytes at an offset.
pub fn put(list: &mut Vec<u8>, at: u64, bytes: &[u8])
    requires { at + length bytes.now ≤ vec_len list.old }
    ensures len { vec_len list.new ≡ vec_len list.old }
    ensures bytes { IsPut at bytes.now list.old.items list.new.items }
    ensures small { (k : ℕ) → slice_index list.old.items k < 256 }
{
    let start = at as usize;
    list[start..start + bytes.len()].copy_from_slice(bytes);
}
