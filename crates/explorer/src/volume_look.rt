// The lines of the volume that a question's reads look at, as they are before the program.
ghost use Rattle.std.specs.Prelude.{◌≡◌, ◌+◌, ◌*◌, ◌<◌, ◌≤◌, ◌++◌, ◌^◌, true, IfErr, IfOk, OnOk, length};
ghost use Rattle.std.specs.List.{list_all};
ghost use Rattle.cut_places.specs.MachineModel.Machine.{Machine};
ghost use Rattle.machine_host.specs.Settling.{GoesOn};
ghost use Rattle.machine_host.specs.Stands.{Stands};
ghost use Rattle.cut_places.specs.Outcomes.Pages.{all_lines_read, is_reply, lines_read};
ghost use Rattle.cut_places.specs.AskedReads.Reads.{page_read, page_reply, pages_asked};
ghost use Rattle.nvm_model.specs.Events.{is_weak_cell};
ghost use Rattle.cut_places.specs.SightsSeen.Seeing.{seen};
ghost use Rattle.explorer.specs.Starting.{Begins};
ghost use Rattle.explorer.specs.Stopping.{DeviceStopped, NoneFell};
ghost use Rattle.cut_places.specs.SightsSeen.Units.{AreLines, line_numbers};

use crate::fault::ExploreFault;
use cut_places::reads_asked::{PageRead, PageReply};
use cut_places::sights_seen::LineSeen;
use line_device::LineDevice;
use line_histories::HeldLine;
use machine_host::{Host, Outcome};
use nvm_base::{LINE, LineNo, PAGE, Span, lines_of};
use reply_text::Reply;
use script_text::Command;
use std::alloc::{AllocError, Global};

/// All lines that these reads look at, read by read.
pub fn look_lines<D: LineDevice>(
    alloc: Global,
    host: &mut Host,
    device: &mut D,
    reads: &[PageRead],
    work: &mut [u8],
) -> Result<Vec<LineSeen>, ExploreFault>
    requires known { GoesOn host.old (D.state device.old) }
    requires wide { length work.old ≡ 65536 }
    requires replies { list_all (is_reply (4096 * host.old.geometry.vpages)) (pages_asked reads.now) ≡ true }
    ensures numbers { IfOk result (λ lines. line_numbers lines.items ≡ all_lines_read (pages_asked reads.now)) }
    ensures sees { (h : Machine) → Stands host.old (D.state device.old) h → Begins h
        → IfOk result (λ lines. AreLines (seen h.volume) lines.items × Stands host.new (D.state device.new) h) }
    ensures geometry { OnOk result (host.new.geometry ≡ host.old.geometry) }
    ensures known { OnOk result (GoesOn host.new (D.state device.new)) }
    ensures counts { OnOk result (NoneFell (D.state device.old).panel (D.state device.new).panel) }
    ensures cause { (h : Machine) → Stands host.old (D.state device.old) h → Begins h
        → IfErr result (λ fault. fault ≡ ExploreFault.Device → DeviceStopped (D.state device.old).panel (D.state device.new).panel) }
{
    let mut lines = Vec::new(alloc);
    for read in reads {
        look_read(alloc, host, device, read, work, &mut lines)?;
    }
    Ok(lines)
}

// Those of one read. One that is to be refused looks at none.
fn look_read<D: LineDevice>(
    alloc: Global,
    host: &mut Host,
    device: &mut D,
    read: &PageRead,
    work: &mut [u8],
    lines: &mut Vec<LineSeen>,
) -> Result<(), ExploreFault>
    requires known { GoesOn host.old (D.state device.old) }
    requires wide { length work.old ≡ 65536 }
    requires reply { is_reply (4096 * host.old.geometry.vpages) (page_read read.now) ≡ true }
    ensures numbers { OnOk result (line_numbers lines.new.items
        ≡ line_numbers lines.old.items ++ lines_read read.now.start read.now.len (page_reply read.now.reply)) }
    ensures sees { (h : Machine) → Stands host.old (D.state device.old) h → Begins h
        → OnOk result ((AreLines (seen h.volume) lines.old.items → AreLines (seen h.volume) lines.new.items)
        × Stands host.new (D.state device.new) h) }
    ensures geometry { OnOk result (host.new.geometry ≡ host.old.geometry) }
    ensures known { OnOk result (GoesOn host.new (D.state device.new)) }
    ensures counts { OnOk result (NoneFell (D.state device.old).panel (D.state device.new).panel) }
    ensures cause { (h : Machine) → Stands host.old (D.state device.old) h → Begins h
        → IfErr result (λ fault. fault ≡ ExploreFault.Device → DeviceStopped (D.state device.old).panel (D.state device.new).panel) }
{
    let touched = match &read.reply {
        PageReply::Shows(_) | PageReply::Poison(_) => lines_of(Span {
            start: read.start,
            len: read.len,
        }),
        PageReply::Refuses(_) => Span { start: 0, len: 0 },
    };
    for n in touched.start..touched.start + touched.len {
        let seen = look_line(alloc, host, device, n, work)?;
        lines.push(seen).map_err(AllocError::from)?;
    }
    Ok(())
}

fn look_line<D: LineDevice>(
    alloc: Global,
    host: &mut Host,
    device: &mut D,
    n: u64,
    work: &mut [u8],
) -> Result<LineSeen, ExploreFault>
    requires known { GoesOn host.old (D.state device.old) }
    requires wide { length work.old ≡ 65536 }
    requires within { n < 64 * host.old.geometry.vpages }
    ensures number { IfOk result (λ found. found.number ≡ n) }
    ensures sees { (h : Machine) → Stands host.old (D.state device.old) h → Begins h
        → IfOk result (λ found. (found.line ≡ seen h.volume n) × Stands host.new (D.state device.new) h) }
    ensures geometry { OnOk result (host.new.geometry ≡ host.old.geometry) }
    ensures known { OnOk result (GoesOn host.new (D.state device.new)) }
    ensures counts { OnOk result (NoneFell (D.state device.old).panel (D.state device.new).panel) }
    ensures cause { (h : Machine) → Stands host.old (D.state device.old) h → Begins h
        → IfErr result (λ fault. fault ≡ ExploreFault.Device → DeviceStopped (D.state device.old).panel (D.state device.new).panel) }
{
    let weak = is_weak(host, device, n, work)?;
    let load = Command::VLoad {
        offset: LINE * n,
        len: LINE,
    };
    match host.answer(device, &load, work)? {
        Outcome::Read(_) => Ok(LineSeen {
            number: n,
            line: HeldLine::of_bytes(alloc, &work[..LINE as usize], weak),
        }),
        Outcome::Reply(Reply::PoisonVolume(_)) => Ok(LineSeen {
            number: n,
            line: HeldLine::bad(alloc),
        }),
        Outcome::Reply(_) => Err(ExploreFault::Device),
    }
}

// Whether the line's page is there, and the line is weak. No line of an absent page is.
fn is_weak<D: LineDevice>(
    host: &mut Host,
    device: &mut D,
    n: u64,
    work: &mut [u8],
) -> Result<bool, ExploreFault>
    requires known { GoesOn host.old (D.state device.old) }
    requires wide { length work.old ≡ 65536 }
    requires within { n < 64 * host.old.geometry.vpages }
    ensures sees { (h : Machine) → Stands host.old (D.state device.old) h → Begins h
        → IfOk result (λ weak. (weak ≡ is_weak_cell (seen h.volume n)) × Stands host.new (D.state device.new) h) }
    ensures geometry { OnOk result (host.new.geometry ≡ host.old.geometry) }
    ensures known { OnOk result (GoesOn host.new (D.state device.new)) }
    ensures counts { OnOk result (NoneFell (D.state device.old).panel (D.state device.new).panel) }
    ensures cause { (h : Machine) → Stands host.old (D.state device.old) h → Begins h
        → IfErr result (λ fault. fault ≡ ExploreFault.Device → DeviceStopped (D.state device.old).panel (D.state device.new).panel) }
{
    let exists = Command::VExists {
        page: n / (PAGE / LINE),
    };
    match host.answer(device, &exists, work)? {
        Outcome::Reply(Reply::Yes) => { Ok(device.is_weak(LineNo(host.geometry().volume_line(n)))) }
        Outcome::Reply(Reply::No) => Ok(false),
        Outcome::Reply(_) | Outcome::Read(_) => Err(ExploreFault::Device),
    }
}
