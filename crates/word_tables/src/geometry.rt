ghost use Rattle.std.specs.Prelude.{◌↔◌, IsTrue};
ghost use Rattle.word_tables.specs.Bounds.{IsValid};

/// The fewest logical blocks of a medium, and the most.
pub const LEAST_BLOCKS: u64 = 8;

pub const MOST_BLOCKS: u64 = 4096;

/// Fewest pages of the volume.
pub const LEAST_VPAGES: u64 = 2;

pub const MOST_VPAGES: u64 = 256;

/// Fewest physical pages of files.
pub const LEAST_FPAGES: u64 = 32;

pub const MOST_FPAGES: u64 = 1024;

/// How many logical blocks, volume pages and physical file pages a medium has.
#[derive(Clone, Copy, Debug, PartialEq, Eq)]
pub struct Geometry {
    pub blocks: u64,
    pub vpages: u64,
    pub fpages: u64,
}

impl Geometry {
    pub fn valid(&self) -> bool
        ensures { IsTrue result ↔ IsValid self.now }
    {
        self.blocks >= LEAST_BLOCKS
            && self.blocks <= MOST_BLOCKS
            && self.blocks % 8 == 0
            && self.vpages >= LEAST_VPAGES
            && self.vpages <= MOST_VPAGES
            && self.fpages >= LEAST_FPAGES
            && self.fpages <= MOST_FPAGES
    }
}
