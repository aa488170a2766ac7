// Scripts over a recorder of a module.

use super::drawing::drawn;
use super::{repeated, replies_to};
use crate::fresh::fresh_image;
use line_device::{Choice, LineState, Order};
use line_module::Module;
use std::test::Fail;
use test_devices::Recorder;

#[test]
fn a_recorder_of_a_module_gets_the_module_s_replies(rt: HostRuntime) -> Result<(), Fail> {
    let alloc = rt.alloc();
    let image = fresh_image(alloc)?;
    let script = drawn(alloc, 11, 5000)?;
    let sink = replies_to(
        alloc,
        &mut Module::new(alloc),
        image.as_slice(),
        script,
        65536,
    )?;
    let script = drawn(alloc, 11, 5000)?;
    let mut recorder = Recorder::new(alloc, Module::new(alloc));
    let other = replies_to(alloc, &mut recorder, image.as_slice(), script, 65536)?;
    assert!(rt; sink.written() == other.written());
    assert!(rt; recorder.starts().len() > 100, "so many restarts");
    Ok(())
}

// A cut at the second call of a store that touches two lines.
const TWO_RESTARTS: &str =
    "vstore 0 07*8\ncut\nrestart none\ncut in 2\nvstore 60 aa*8\nrestart all\nvload 60 8\n";

#[test]
fn a_recorder_tells_what_the_script_asked_for(rt: HostRuntime) -> Result<(), Fail> {
    let alloc = rt.alloc();
    let image = fresh_image(alloc)?;
    let mut device = Recorder::new(alloc, Module::new(alloc));
    let script = repeated(alloc, TWO_RESTARTS, 1)?;
    replies_to(alloc, &mut device, image.as_slice(), script, 7)?;
    assert_eq!(rt; device.last(), Some(Order::Cut(2)));
    let starts = device.starts();
    assert_eq!(rt; starts.len(), 2);
    assert_eq!(rt;
        (starts[0].choice, starts[1].choice),
        (Choice::Firsts, Choice::Lasts)
    );
    let lines = starts[0].lines.as_slice();
    assert_eq!(rt; lines.len(), 5056);
    let LineState::Healthy(first) = &lines[0] else {
        return Err(Fail::from("the first line"));
    };
    assert_eq!(rt; &first[..8], b"NVMPMH01".as_slice());
    assert_eq!(rt; lines[2304], LineState::Healthy([0; 64]));
    Ok(())
}
