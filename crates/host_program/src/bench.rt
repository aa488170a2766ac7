// The stated workload on a fresh device, and the summary of its replies.
ghost use Rattle.std.specs.Prelude.{◌≡◌, ◌++◌, ℕ, List, IfErr, IfOk, OnOk, Option, decimal};
ghost use Rattle.host_io.specs.Images.{Held};
ghost use Rattle.host_io.specs.declared.images.ImageCounts.{ImageCounts};
ghost use Rattle.machine_host.specs.Costs.{Opens};
ghost use Rattle.machine_host.specs.Stands.{HostServes};
ghost use Rattle.command_line.specs.Words.Form.{of_bench};
ghost use Rattle.host_program.specs.Bench.{AddsReply, IsStarted, IsUnstarted, PerformsAll, summary_text};
ghost use Rattle.host_program.specs.Forms.{Outcome};
ghost use Rattle.program_base.specs.World.{world};

use crate::running::perform_line;
use host_io::Sink;
use line_device::{LineDevice, WORD_UNIT};
use machine_host::Host;
use nvm_base::{Bytes, print_number};
use program_base::{Ending, tell};
use std::alloc::{AllocError, Global};
use word_tables::Geometry;
use workload::{Summary, Workload};

/// The sizes of the device that a workload runs on.
const SIZES: Geometry = Geometry {
    blocks: 64,
    vpages: 8,
    fpages: 64,
};

const NOTHING: Summary = Summary {
    commands: 0,
    oks: 0,
    reads: 0,
    cuts: 0,
    sum: 0,
};

/// Runs the workload of that seed, with a number of rounds, on a new device, and writes its summary.
pub fn bench<D: LineDevice, K: Sink>(
    alloc: Global,
    seed: u64,
    count: u64,
    device: &mut D,
    replies: &mut K,
) -> Result<(), Ending>
    ensures { (held : Option Held) (images : ImageCounts) (left : Option (List ℕ)) (reads : ℕ) → Outcome (of_bench seed count) result
        (world (D.state device.old) held images left reads (K.written replies.old) (K.count replies.old))
        (world (D.state device.new) held images left reads (K.written replies.new) (K.count replies.new)) }
{
    let mut host = start(alloc, device)?;
    let summary = perform_all(alloc, &mut host, device, Workload::new(seed, count))?;
    Ok(tell(summary_line(alloc, &summary), replies)?)
}

// Makes the device a fresh one, and mounts it.
fn start<D: LineDevice>(alloc: Global, device: &mut D) -> Result<Host, Ending>
    ensures started { IfOk result (λ host. IsStarted host (D.state device.old) (D.state device.new)) }
    ensures cause { IfErr result (λ ending. IsUnstarted ending (D.state device.old).panel (D.state device.new).panel) }
    ensures opens { Opens (D.state device.old).panel (D.state device.new).panel }
{
    recovery::format(device, SIZES)?;
    Ok(Host::mount(alloc, device, WORD_UNIT)?)
}

// Performs all lines, and counts their replies.
fn perform_all<D: LineDevice>(
    alloc: Global,
    host: &mut Host,
    device: &mut D,
    workload: Workload,
) -> Result<Summary, AllocError>
    requires { HostServes host.old (D.state device.old) }
    ensures { PerformsAll host.old host.new workload result (D.state device.old) (D.state device.new) }
{
    let mut workload = workload;
    let mut summary = NOTHING;
    let mut out = Bytes::new(alloc);
    while let Some(line) = workload.next(alloc)? {
        out.clear();
        perform_line(alloc, host, device, line.as_slice(), &mut out)?;
        count_reply(line.as_slice(), out.as_slice(), &mut summary);
    }
    Ok(summary)
}

// Counts a line whose reply is there.
fn count_reply(line: &[u8], out: &[u8], summary: &mut Summary)
    ensures { AddsReply line.now out.now summary.old summary.new }
{
    if let Some(reply) = out.strip_suffix(b"\n") {
        summary.add(line, reply);
    }
}

fn summary_line(alloc: Global, summary: &Summary) -> Result<Bytes, AllocError>
    ensures { IfOk result (λ line. line.items ≡ summary_text summary.now) }
{
    let mut line = Bytes::new(alloc);
    append(b"bench commands ", summary.commands, &mut line)?;
    append(b" ok ", summary.oks, &mut line)?;
    append(b" data ", summary.reads, &mut line)?;
    append(b" cuts ", summary.cuts, &mut line)?;
    append(b" sum ", summary.sum, &mut line)?;
    line.push(b'\n')?;
    Ok(line)
}

fn append(text: &[u8], number: u64, line: &mut Bytes) -> Result<(), AllocError>
    ensures { OnOk result (line.new.items ≡ line.old.items ++ text.now ++ decimal number) }
{
    line.extend(text)?;
    print_number(number, line)
}
