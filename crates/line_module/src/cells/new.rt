// A new memory.
ghost use Rattle.std.specs.Prelude.{◌≡◌, ◌<◌, ◌≤◌, ℕ, IfOk, Some, length, replicate, slice_get};
ghost use Rattle.std.specs.Vec.{vec_len};
ghost use Rattle.line_module.specs.Memory.{memory_after_reset};
ghost use Rattle.line_module.specs.Cells.{memory_in};
ghost use Rattle.line_module.specs.declared.state.State.TheVariants.{Clean};

use super::Cells;
use crate::order::Order;
use crate::state::State;
use raw_lines::Region;
use std::alloc::{AllocError, Global};

impl Cells {
    /// Lines of zeros, with chains for those that may become dirty.
    pub fn new(alloc: Global, lines: u64) -> Result<Cells, AllocError>
        requires { lines ≤ 118016 }
        ensures { IfOk result (λ cells. memory_in cells ≡ memory_after_reset lines) }
    {
        let durable = zeros(alloc, lines)?;
        let cached = Region::new(alloc, lines)?;
        let states = clean(alloc, lines)?;
        let order = Order::new(alloc)?;
        Ok(Cells {
            durable,
            cached,
            states,
            order,
            alloc,
        })
    }
}

// So many lines of zeros.
fn zeros(alloc: Global, lines: u64) -> Result<Region, AllocError>
    ensures len { IfOk result (λ region. length region ≡ lines) }
    ensures each { IfOk result (λ region. (n : ℕ) → n < lines → slice_get region n ≡ Some (Some (replicate 64 0))) }
{
    let mut region = Region::new(alloc, lines)?;
    for line in 0..lines {
        region.hold(line, &[0; 64]);
    }
    Ok(region)
}

// The states of so many lines that are neither dirty nor weak.
fn clean(alloc: Global, lines: u64) -> Result<Vec<State>, AllocError>
    ensures len { IfOk result (λ states. length states.items ≡ lines) }
    ensures each { IfOk result (λ states. (n : ℕ) → n < lines → slice_get states.items n ≡ Some Clean) }
{
    let mut states = Vec::with_capacity(alloc, lines as usize)?;
    for _ in 0..lines {
        states.push(State::Clean)?;
    }
    Ok(states)
}
