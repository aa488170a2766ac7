//! The image file: a device's lines as bytes, one spelling for each state of a device.
// All numbers are of eight bytes, the lowest first. The bytes NVMIMG01; the survival unit, 8 or 1; how many lines, 1 to
// 118,016; and then each line: its tag (0 healthy, 1 weak, 2 bad), and its 64 bytes unless it is bad. Nothing follows.
#![tactic(auto)]

mod extracting;
mod fault;
mod formatting;
mod installing;
mod laws;
mod reading;
mod writing;

pub use extracting::extract;
pub use fault::{ExtractFault, ImageFault};
pub use formatting::{fresh, fresh_byte};
pub use installing::install;
pub use laws::{
    extracted_lines_are_the_last, first_wrong_fields_are_told, images_have_one_text,
    installed_lines_are_shown, worked_images,
};
use line_device::LineList;
pub use reading::read;
pub use writing::write;

/// What an image file has of a device: its survival unit, and its lines.
#[derive(Debug, Drop)]
pub struct Image {
    pub unit: u64,
    pub lines: LineList,
}

/// Which survival units a reader takes.
#[derive(Clone, Copy, Debug, PartialEq, Eq)]
pub enum Units {
    /// 8 alone.
    Words,
    /// 8 or 1.
    All,
}

/// The first bytes of each image file.
pub const MAGIC: &[u8; 8] = b"NVMIMG01";

/// The most lines of an image.
pub const MOST_LINES: u64 = 118_016;

// The tags of lines.
const HEALTHY: u8 = 0;

const WEAK: u8 = 1;

const BAD: u8 = 2;
