/// What a device counts. No count falls, and each stands still at its last value.
#[derive(Clone, Copy, Debug, Default, PartialEq, Eq)]
pub struct Counts {
    /// Calls that failed.
    pub faults: u64,
    /// Calls in which an armed cut took the power.
    pub cuts: u64,
    /// Calls of `power_off`.
    pub offs: u64,
    /// Calls of `arm_cut` and `arm_fail`.
    pub arms: u64,
    /// Calls of `evict`.
    pub evicts: u64,
    /// Calls of `persist`.
    pub persists: u64,
    /// Calls of `restart`.
    pub restarts: u64,
    /// Calls of `load`, `store`, `persist` and `clear`, the counted calls.
    pub calls: u64,
    /// Calls of `reset`, `install` and `extract` that failed or lost power.
    pub setups: u64,
    /// Calls of `disarm`.
    pub disarms: u64,
}
