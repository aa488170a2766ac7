// Bytes put into a line.
ghost use Rattle.std.specs.Prelude.{◌+◌, ◌<◌, ◌≤◌, ℕ, length, slice_index};
ghost use Rattle.line_device.specs.Word.{IsPut};

/// Puts bytes at an offset of a line.
pub fn put(line: &mut [u8; 64], at: u64, bytes: &[u8])
    requires { at + length bytes.now ≤ 64 }
    ensures bytes { IsPut at bytes.now line.old line.new }
    ensures small { (k : ℕ) → slice_index line.old k < 256 }
{
    let start = at as usize;
    line[start..start + bytes.len()].copy_from_slice(bytes);
}
