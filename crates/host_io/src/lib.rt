//! Where scripts are read from, where replies are written to and where images are kept: as traits, in memory, and over the runtime.
#![tactic(auto)]

mod failures;
mod file_images;
mod images;
mod mem_images;
mod mem_sink;
mod mem_source;
mod sink;
mod source;
mod stdio;
mod writing;

pub use file_images::FileImages;
pub use images::{FetchFault, ImageCounts, Images};
pub use mem_images::MemImages;
pub use mem_sink::MemSink;
pub use mem_source::MemSource;
pub use sink::{Sink, WriteFault};
pub use source::{ReadFailed, Source};
pub use stdio::{StdinSource, StdoutSink};
pub use writing::write_all;
