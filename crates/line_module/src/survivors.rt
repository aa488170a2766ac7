ghost use Rattle.std.specs.Prelude.{◌≡◌, ◌≤◌};
ghost use Rattle.line_module.specs.Survivors.{drawn, survivor_index};

/// Which of `len` values is kept at a place by a seed: 0 is the durable one. A module that keeps words draws for a word's place, one
/// that keeps bytes for a byte's.
pub fn survivor(seed: u64, place: u64, len: u64) -> u64
    requires { 1 ≤ len }
    ensures { result ≡ survivor_index seed place len }
{
    drawn(seed, place) % len
}

// Draws a number for a place.
fn drawn(seed: u64, place: u64) -> u64
    ensures { result ≡ drawn seed place }
{
    let start = seed.wrapping_add(place);
    let next = start
        .wrapping_mul(6364136223846793005)
        .wrapping_add(1442695040888963407);
    next >> 33
}
