// A workload over two devices.

use super::call;
use host_io::{MemImages, MemSink, MemSource};
use line_device::LineDevice;
use line_module::Module;
use nvm_base::{Bytes, Words};
use std::alloc::{AllocError, Global};
use std::test::Fail;
use test_devices::Recorder;

// The line of a workload over a device, where it is done.
fn summary_over<D: LineDevice>(
    alloc: Global,
    words: &str,
    device: &mut D,
) -> Result<MemSink, AllocError> {
    let mut images = MemImages::new(alloc, Words::new(alloc));
    let mut source = MemSource::new(Bytes::new(alloc), 1, Words::new(alloc));
    let mut sink = MemSink::new(alloc, Words::new(alloc));
    match call(alloc, words, device, &mut images, &mut source, &mut sink)? {
        0 => Ok(sink),
        _ => Ok(MemSink::new(alloc, Words::new(alloc))),
    }
}

#[test]
fn a_workload_says_the_same_over_a_recorder(rt: HostRuntime) -> Result<(), Fail> {
    let alloc = rt.alloc();
    let sink = summary_over(alloc, "bench 1 200", &mut Module::new(alloc))?;
    let mut recorder = Recorder::new(alloc, Module::new(alloc));
    let other = summary_over(alloc, "bench 1 200", &mut recorder)?;
    assert!(rt; sink.written().starts_with(b"bench commands 2"));
    assert!(rt; sink.written() == other.written());
    Ok(())
}
