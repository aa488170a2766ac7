// The survival units that a device may have.

/// The survival unit of a device that keeps or loses a word whole at a power cut.
pub const WORD_UNIT: u64 = 8;

/// The survival unit of a device that keeps or loses each byte independently.
pub const BYTE_UNIT: u64 = 1;
