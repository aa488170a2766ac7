// Whole calls of `nvmhost`.

use crate::fresh::holding;
use host_io::{MemImages, MemSink, MemSource};
use host_program::nvmhost;
use line_device::LineDevice;
use nvm_base::{Bytes, Words};
use std::alloc::{AllocError, Global};
use std::test::Fail;

mod cut_stores;
mod drawing;
mod early_ends;
mod endless;
mod pieces;
mod recording;
mod workloads;

// The text, repeated this number of times.
fn repeated(alloc: Global, text: &str, count: u64) -> Result<Bytes, AllocError> {
    let mut bytes = Bytes::new(alloc);
    for _ in 0..count {
        bytes.extend(text.as_bytes())?;
    }
    Ok(bytes)
}

// The status of a call with these words, which stand apart by single blanks.
fn call<D: LineDevice>(
    alloc: Global,
    words: &str,
    device: &mut D,
    images: &mut MemImages,
    script: &mut MemSource,
    replies: &mut MemSink,
) -> Result<u8, AllocError> {
    let mut list = Vec::new(alloc);
    for word in words.split(' ') {
        list.push(String::from_str(alloc, word)?)?;
    }
    Ok(nvmhost(alloc, &list, device, images, script, replies))
}

// The replies to a script over an image, where it comes in pieces of this size.
fn replies_to<D: LineDevice>(
    alloc: Global,
    device: &mut D,
    image: &[u8],
    script: Bytes,
    piece: usize,
) -> Result<MemSink, Fail> {
    let mut images = holding(alloc, image, 0)?;
    let mut source = MemSource::new(script, piece.max(1), Words::new(alloc));
    let mut sink = MemSink::new(alloc, Words::new(alloc));
    let status = call(
        alloc,
        "run img out",
        device,
        &mut images,
        &mut source,
        &mut sink,
    )?;
    match status {
        0 => Ok(sink),
        _ => Err(Fail::from("the status")),
    }
}
