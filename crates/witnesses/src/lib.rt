//! How a cut may leave what a look reads, where it leaves what a question asks: which word of the volume and of files keeps which value,
//! which line is bad, what each block has, and which files are there and how long.
#![tactic(auto)]

mod asked;
mod asking;
mod block_keeping;
mod block_kept;
mod block_text;
mod file_keeping;
mod file_kept;
mod file_lines;
mod keeping;
mod kept;
mod laws;
mod line_keeping;
mod line_kept;
mod line_text;
mod size_keeping;
mod size_kept;
mod size_text;
mod staying;
mod text;
mod words;

pub use block_kept::BlockKept;
pub use file_kept::FileLineKept;
pub use keeping::keep;
pub use kept::Kept;
pub use laws::{worked_file_witnesses, worked_witnesses};
pub use line_kept::{LineKept, LineLeft};
pub use size_kept::SizeKept;
pub use text::kept_text;
