// A source that has no end.

use crate::fresh::{fresh_image, holding};
use host_io::{MemSink, ReadFailed, Source};
use host_program::nvmhost;
use line_module::Module;
use nvm_base::Words;
use std::test::Fail;

// Each read fills the buffer with spaces.
#[derive(Drop)]
struct Spaces;

impl Source for Spaces {
    ghost use Rattle.std.specs.Prelude.{None};

    ghost left = { λ _. None };

    ghost count = { λ _. 0 };

    fn read(&mut self, buf: &mut [u8]) -> Result<usize, ReadFailed> {
        buf.fill(b' ');
        Ok(buf.len())
    }

    fn faults(&self) -> u64 {
        0
    }
}

#[test]
fn a_source_without_an_end_is_no_script(rt: HostRuntime) -> Result<(), Fail> {
    let alloc = rt.alloc();
    let image = fresh_image(alloc)?;
    let mut images = holding(alloc, image.as_slice(), 0)?;
    let mut words = Vec::new(alloc);
    for word in ["run", "img", "out"] {
        words.push(String::from_str(alloc, word)?)?;
    }
    let mut sink = MemSink::new(alloc, Words::new(alloc));
    let mut device = Module::new(alloc);
    let status = nvmhost(
        alloc,
        &words,
        &mut device,
        &mut images,
        &mut Spaces,
        &mut sink,
    );
    assert_eq!(rt; status, 7);
    assert_eq!(rt; sink.written(), b"error script\n".as_slice());
    assert!(rt; images.get("out").is_none());
    Ok(())
}
