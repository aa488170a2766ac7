// Counts, which stand still at their last value.
ghost use Rattle.std.specs.Prelude.{◌≡◌, ◌+◌, ◌≤◌};
ghost use Rattle.nvm_base.specs.Counts.{raised};

/// Counts one more.
pub fn raise(count: &mut u64)
    ensures value { count.new ≡ raised count.old }
    ensures later { count.old ≤ count.new }
    ensures once { count.new ≤ count.old + 1 }
{
    *count = count.saturating_add(1);
}
