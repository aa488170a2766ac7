// What a cut may leave of a line of the volume.
ghost use Rattle.std.specs.Prelude.{◌<◌, ◌^◌};

/// A line that is bad, or the value that each of its words keeps.
#[derive(Clone, Copy, Debug, PartialEq, Eq)]
pub enum LineLeft {
    Bad,
    Words([u64; 8]),
}

/// The line of that number, as it is left.
#[derive(Drop)]
pub struct LineKept {
    pub number: u64,
    pub left: LineLeft,
    /// Which of its words the cut could have left otherwise.
    pub free: [bool; 8],
    pub ghost reach: { number < 2 ^ 32 },
}
