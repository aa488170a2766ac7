use line_device::{Choice, LineList};

/// A restart: what was asked for, the device's unit, and the lines right after it.
#[derive(Debug, Drop)]
pub struct Start {
    pub choice: Choice,
    pub unit: u64,
    pub lines: LineList,
}
