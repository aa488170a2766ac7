// Laws of text, each a function without a body.
ghost use Rattle.std.specs.Prelude.{◌≡◌, ℕ, ◌^◌, ◌<◌, ◌≤◌, List, Some, Ok, decimal, length, slice_index};
ghost use Rattle.nvm_base.specs.Data.{data_text, data_within};
ghost use Rattle.nvm_base.specs.Numbers.{number_of};

/// Laws: what is printed is read back, bytes wherever there is room for them.
pub fn what_is_printed_is_read_back()
    ensures bytes { (bytes : List ℕ) (room : ℕ) → 0 < length bytes → length bytes ≤ room → room ≤ 65536
        → ((k : ℕ) → slice_index bytes k < 256) → data_within room (data_text bytes) ≡ Ok bytes }
    ensures number { (n : ℕ) → n < 2 ^ 32 → number_of (decimal n) ≡ Some n }
{}
