// Laws of modules, each a function without a body.
ghost use Rattle.std.specs.Prelude.{◌≡◌, ◌≤◌, ◌∷◌, [], ℕ, true, List};
ghost use Rattle.line_device.specs.declared.line.Choice.TheVariants.{Seed};
ghost use Rattle.line_module.specs.Survivors.{drawn, survivor_index, survivor_of};
ghost use Rattle.line_module.specs.Memory.{Memory};
ghost use Rattle.line_module.specs.Order.{EachOnce};
ghost use Rattle.line_module.specs.Exact.{IsInOrder, IsBareLine, StoresApart, EvictsOldest};
ghost use Rattle.line_module.specs.Module.{memory_of, module_medium, module_cells};

use crate::Module;

/// The order of a module lists exactly the dirty lines that are not weak, each once.
pub fn the_order_lists_the_dirty_lines(device: &Module)
    ensures { IsInOrder (memory_of device.now) }
{
    let _ = device;
}

/// A bad line is bare in both regions, so no call can give a byte of it.
pub fn a_bad_line_is_bare(device: &Module)
    ensures { (n : ℕ) → (module_medium device.now).is_bad n ≡ true → IsBareLine (module_cells device.now) n }
{
    let _ = device;
}

/// A store writes back another line only where it is the oldest of 1,024, and an eviction writes back the oldest ones.
pub fn only_the_oldest_lines_are_written_back()
    ensures store { (s : Memory) (line at : ℕ) (bytes : List ℕ) → StoresApart s line at bytes }
    ensures evict { (s : Memory) (n : ℕ) → EachOnce s.order → EvictsOldest s n }
{}

/// Words that a restart by a seed was worked out for by hand.
pub fn survivors_of_three_words()
    ensures drawn { (drawn 1 18432 ≡ 1015158427) × (drawn 2 18432 ≡ 1756041393) × (drawn 2 18433 ≡ 349440712) }
    ensures index { (survivor_index 1 18432 3 ≡ 1) × (survivor_index 2 18432 2 ≡ 1) × (survivor_index 2 18433 2 ≡ 0) }
{}

/// What a word of zeros and then of ones, that was worked out by hand, keeps by a seed where bytes are kept.
pub fn survivors_of_eight_bytes()
    ensures index { (survivor_index 1 147456 2 ≡ 0) × (survivor_index 1 147457 2 ≡ 0) × (survivor_index 1 147458 2 ≡ 1) × (survivor_index 1 147459 2 ≡ 0)
        × (survivor_index 1 147460 2 ≡ 0) × (survivor_index 1 147461 2 ≡ 1) × (survivor_index 1 147462 2 ≡ 0) × (survivor_index 1 147463 2 ≡ 0) }
    ensures kept { survivor_of 1 (Seed 1) 18432 (0 ∷ 18446744073709551615 ∷ []) ≡ 280375481794560 ∷ [] }
{}
