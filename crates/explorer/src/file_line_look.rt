// A line of a file, as it is before the program.
ghost use Rattle.std.specs.Prelude.{◌≡◌, IfErr, IfOk, OnOk, length};
ghost use Rattle.nvm_model.specs.Storage.{File};
ghost use Rattle.cut_places.specs.MachineModel.Machine.{Machine};
ghost use Rattle.machine_host.specs.Settling.{GoesOn};
ghost use Rattle.machine_host.specs.Stands.{Stands};
ghost use Rattle.cut_places.specs.SightsSeen.Seeing.{seen};
ghost use Rattle.explorer.specs.Files.{HasFewPages, IsListed};
ghost use Rattle.explorer.specs.Starting.{Begins};
ghost use Rattle.explorer.specs.Stopping.{DeviceStopped, NoneFell};

use crate::fault::ExploreFault;
use line_device::LineDevice;
use line_histories::HeldLine;
use machine_host::{Host, Outcome};
use nvm_base::{FileEntry, LINE, PAGE_LINES};
use reply_text::Reply;
use script_text::Command;
use std::alloc::Global;

/// Line n of the file. Past the end it is one of zeros.
pub fn look_line<D: LineDevice>(
    alloc: Global,
    host: &mut Host,
    device: &mut D,
    entry: &FileEntry,
    n: u32,
    work: &mut [u8],
) -> Result<HeldLine, ExploreFault>
    requires known { GoesOn host.old (D.state device.old) }
    requires wide { length work.old ≡ 65536 }
    requires small { HasFewPages entry.now }
    ensures sees { (h : Machine) (file : File) → Stands host.old (D.state device.old) h → Begins h → IsListed entry.now file h.files
        → IfOk result (λ line. (line ≡ seen file.pages n) × Stands host.new (D.state device.new) h) }
    ensures geometry { OnOk result (host.new.geometry ≡ host.old.geometry) }
    ensures known { OnOk result (GoesOn host.new (D.state device.new)) }
    ensures counts { OnOk result (NoneFell (D.state device.old).panel (D.state device.new).panel) }
    ensures cause { (h : Machine) (file : File) → Stands host.old (D.state device.old) h → Begins h → IsListed entry.now file h.files
        → IfErr result (λ fault. fault ≡ ExploreFault.Device → DeviceStopped (D.state device.old).panel (D.state device.new).panel) }
{
    let line = u64::from(n);
    if line / PAGE_LINES >= entry.pages {
        return Ok(HeldLine::zeros(alloc));
    }
    let _is_name = entry.name.bytes();
    let read = Command::FRead {
        name: entry.name,
        offset: LINE * line,
        len: LINE,
    };
    match host.answer(device, &read, work)? {
        Outcome::Read(_) => {
            let weak = host.is_weak_in_file(device, &entry.name, n);
            Ok(HeldLine::of_bytes(alloc, &work[..LINE as usize], weak))
        }
        Outcome::Reply(Reply::PoisonFile(_, _)) => Ok(HeldLine::bad(alloc)),
        Outcome::Reply(_) => Err(ExploreFault::Device),
    }
}
