//! The sizes of a medium, where its areas lie, and the places of the words of its tables.
#![tactic(auto)]

mod areas;
mod geometry;
mod superblock;
mod volume;
mod words;

pub use areas::areas_follow;
pub use geometry::{
    Geometry, LEAST_BLOCKS, LEAST_FPAGES, LEAST_VPAGES, MOST_BLOCKS, MOST_FPAGES, MOST_VPAGES,
};
pub use superblock::{LAYOUT, MARK, WORD_BYTES, superblocks_tell_their_sizes};
pub use volume::volume_lines_differ;
pub use words::places_differ;
