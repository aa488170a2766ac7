// Fresh images.

use crate::numbers::only;
use host_io::MemImages;
use nvm_base::Bytes;
use std::alloc::{AllocError, Global};
use word_tables::Geometry;

const SIZES: Geometry = Geometry {
    blocks: 8,
    vpages: 2,
    fpages: 32,
};

/// A fresh image of 8 blocks, 2 pages of the volume and 32 pages of files.
pub fn fresh_image(alloc: Global) -> Result<Bytes, AllocError> {
    let image = image_file::fresh(alloc, SIZES)?;
    image_file::write(alloc, &image)
}

/// Images that hold this one under the name img, and of whose calls the one of this number fails.
pub fn holding(alloc: Global, image: &[u8], failing: u64) -> Result<MemImages, AllocError> {
    let mut images = MemImages::new(alloc, only(alloc, failing)?);
    images.put("img", image)?;
    Ok(images)
}
