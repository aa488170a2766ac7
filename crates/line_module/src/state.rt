// What becomes of a line's state, and of its place among the dirty lines.
ghost use Rattle.std.specs.Prelude.{◌≡◌, ◌+◌, ◌<◌, ◌≤◌, ◌∷◌, ◌++◌, [], ◌||◌, ℕ, true, false, not, length, if◌then◌else◌, Some, MatchOption};
ghost use Rattle.line_module.specs.Memory.{has, without};
ghost use Rattle.line_module.specs.Chains.{IsEmptyChain, after_durable, is_clean, is_listed, is_weak_state, is_weak_next, IsEmptyNext, grown_word};

use crate::chain::Chain;
use crate::order::Order;

/// What a module holds of a line beside its bytes. A weak line has its chain also while it is clean.
#[derive(Drop)]
pub enum State {
    Clean,
    Dirty(Chain),
    Weak(Chain),
}

/// What a line is to be once its words have one value each.
#[derive(Drop)]
pub enum Next {
    Clean,
    Weak(Chain),
    /// Weak where it was.
    Same,
}

/// The state of a line over which a number of bytes were put at an offset, so that these are its bytes.
pub fn grown(
    state: State,
    line: u64,
    at: u64,
    len: u64,
    last: &[u8; 64],
    order: &mut Order,
) -> State
    requires some { 0 < len }
    requires fits { at + len ≤ 64 }
    requires listed { has line order.old ≡ is_listed (Some state) }
    requires room { is_clean (Some state) ≡ true → length order.old < 1024 }
    ensures values { (w first : ℕ) → first ∷ after_durable (Some result) w ≡ grown_word at len last.now w (first ∷ after_durable (Some state) w) }
    ensures weak { is_weak_state (Some result) ≡ is_weak_state (Some state) }
    ensures listed { is_listed (Some result) ≡ not (is_weak_state (Some state)) }
    ensures clean { is_clean (Some result) ≡ false }
    ensures order { order.new ≡ (if is_weak_state (Some state) || has line order.old then order.old else order.old ++ line ∷ []) }
{
    match state {
        State::Clean => {
            let mut chain = order.push(line);
            chain.grow(at, len, last);
            State::Dirty(chain)
        }
        State::Dirty(mut chain) => {
            chain.grow(at, len, last);
            State::Dirty(chain)
        }
        State::Weak(mut chain) => {
            chain.grow(at, len, last);
            State::Weak(chain)
        }
    }
}

/// The state of a line whose words have one value each from now on.
pub fn turned(state: State, next: Next, line: u64, order: &mut Order) -> State
    requires listed { has line order.old ≡ is_listed (Some state) }
    requires empty { IsEmptyNext next }
    ensures values { (w : ℕ) → after_durable (Some result) w ≡ [] }
    ensures weak { is_weak_state (Some result) ≡ is_weak_next next (is_weak_state (Some state)) }
    ensures listed { is_listed (Some result) ≡ false }
    ensures clean { is_clean (Some result) ≡ not (is_weak_state (Some result)) }
    ensures order { order.new ≡ without line order.old }
{
    let spare = released(state, line, order);
    match next {
        Next::Clean => State::Clean,
        Next::Weak(chain) => State::Weak(chain),
        Next::Same => match spare {
            Some(chain) => State::Weak(chain),
            None => State::Clean,
        },
    }
}

// A dirty line gives its chain back. A weak one keeps it, without its values.
fn released(state: State, line: u64, order: &mut Order) -> Option<Chain>
    requires listed { has line order.old ≡ is_listed (Some state) }
    ensures chain { MatchOption result (is_weak_state (Some state) ≡ false) (λ k. (is_weak_state (Some state) ≡ true) × IsEmptyChain k) }
    ensures order { order.new ≡ without line order.old }
{
    match state {
        State::Clean => None,
        State::Dirty(chain) => {
            order.remove(line, chain);
            None
        }
        State::Weak(mut chain) => {
            chain.clear();
            Some(chain)
        }
    }
}

/// The state of a line that becomes weak, for which there is a chain without values. A dirty line keeps its own.
pub fn weakened(state: State, chain: Chain, line: u64, order: &mut Order) -> State
    requires listed { has line order.old ≡ is_listed (Some state) }
    requires empty { IsEmptyChain chain }
    ensures values { (w : ℕ) → after_durable (Some result) w ≡ after_durable (Some state) w }
    ensures weak { is_weak_state (Some result) ≡ true }
    ensures order { order.new ≡ without line order.old }
{
    match state {
        State::Clean => State::Weak(chain),
        State::Dirty(dirty) => {
            order.remove(line, chain);
            State::Weak(dirty)
        }
        State::Weak(weak) => State::Weak(weak),
    }
}
