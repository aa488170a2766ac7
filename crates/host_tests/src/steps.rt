// Stories of a host of eight blocks and two volume pages, step by step.
ghost use Rattle.std.specs.Prelude.{IfOk, OnOk};
ghost use Rattle.line_device.specs.Plain.{device_of};
ghost use Rattle.machine_host.specs.Settling.{GoesOn};

use line_device::Plain;
use machine_host::{Host, Mode};
use nvm_base::Bytes;
use script_text::parse;
use std::alloc::{AllocError, Global};
use std::test::Fail;
use word_tables::Geometry;

// A fresh device, and its host.
fn set_up(alloc: Global) -> Result<(Host, Plain), Fail>
    ensures { IfOk result (λ both. GoesOn both.0 (device_of both.1)) }
{
    let geometry = Geometry {
        blocks: 8,
        vpages: 2,
        fpages: 32,
    };
    let mut device = Plain::new(alloc);
    recovery::format(&mut device, geometry)?;
    let host = Host::mount(alloc, &mut device, 8)?;
    Ok((host, device))
}

// What is done in a story: a script's line, or the end of a run.
#[derive(Clone, Copy, Debug)]
enum Act {
    Line(&'static str),
    Settle,
}

// Does it, and appends the reply.
fn perform(
    host: &mut Host,
    device: &mut Plain,
    alloc: Global,
    act: Act,
    out: &mut Bytes,
) -> Result<(), AllocError>
    requires { GoesOn host.old (device_of device.old) }
    ensures { OnOk result (GoesOn host.new (device_of device.new)) }
{
    match act {
        Act::Line(line) => match parse(alloc, line.as_bytes()) {
            Ok(Some(command)) => host.step(device, &command, out),
            _ => Ok(()),
        },
        Act::Settle => host.settle(device),
    }
}

// What is done, the reply to it, and the mode after it: a host that is settled can be read, whatever its mode was, but for one
// that bad metadata stopped.
static STEPS: [(Act, &str, Mode); 23] = [
    (Act::Line("vstore 60 aa*8"), "ok\n", Mode::On),
    (Act::Settle, "", Mode::On),
    (Act::Line("cut"), "ok\n", Mode::Off),
    (Act::Settle, "", Mode::On),
    (Act::Line("vload 58 12"), "data 00*2,aa*8,00*2\n", Mode::On),
    (Act::Line("fail in 2"), "ok\n", Mode::On),
    (
        Act::Line("vstore 60 bb*8"),
        "refused device\n",
        Mode::Unsettled,
    ),
    (Act::Settle, "", Mode::On),
    (
        Act::Line("vload 58 12"),
        "data 00*2,bb*4,aa*4,00*2\n",
        Mode::On,
    ),
    (Act::Line("vstore 0 05"), "ok\n", Mode::On),
    (Act::Line("poison meta 2304"), "refused range\n", Mode::On),
    (Act::Line("poison meta 7"), "ok\n", Mode::On),
    (Act::Line("vsync 0 1"), "ok\n", Mode::On),
    (Act::Line("vload 0 1"), "data 05\n", Mode::On),
    (Act::Line("bscar 8 1"), "refused range\n", Mode::On),
    (Act::Line("bscar 0 1"), "refused meta 7\n", Mode::On),
    (Act::Line("cut"), "ok\n", Mode::Off),
    (Act::Line("cut in 0"), "refused range\n", Mode::Off),
    (Act::Line("restart all"), "stopped meta 7\n", Mode::Stopped),
    (Act::Line("poison meta 3"), "ok\n", Mode::Stopped),
    (Act::Line("vload 0 1"), "refused meta 3\n", Mode::Stopped),
    (Act::Line("recover"), "refused meta 3\n", Mode::Stopped),
    (Act::Settle, "", Mode::Stopped),
];

#[test]
fn each_step_has_its_reply_and_its_mode(rt: HostRuntime) -> Result<(), Fail> {
    let alloc = rt.alloc();
    let (mut host, mut device) = set_up(alloc)?;
    for &(act, reply, mode) in &STEPS {
        let mut out = Bytes::new(alloc);
        perform(&mut host, &mut device, alloc, act, &mut out)?;
        assert!(rt; out.as_slice() == reply.as_bytes(), "{reply}");
        assert_eq!(rt; host.mode(), mode);
    }
    Ok(())
}
