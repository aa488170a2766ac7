//! Which units of a store are free: taking, marking and giving back one in constant time.
#![tactic(auto)]

mod pool;

pub use pool::Pool;
