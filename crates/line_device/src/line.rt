use nvm_base::Buffer;

/// A line as it would be if the device were read out in good order.
#[derive(Clone, Copy, Debug, PartialEq, Eq)]
pub enum LineState {
    Healthy([u8; 64]),
    /// Its next persist makes it bad.
    Weak([u8; 64]),
    Bad,
}

/// A list of lines.
pub type LineList = Buffer<LineState>;

/// Which of its values a word keeps when the power comes back.
#[derive(Clone, Copy, Debug, PartialEq, Eq)]
pub enum Choice {
    /// The durable one.
    Firsts,
    /// The last one.
    Lasts,
    /// One that the device picks by this seed.
    Seed(u64),
}
