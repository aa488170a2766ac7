// The files, with the lines that a question's reads look at, as they are before the program.
ghost use Rattle.std.specs.Prelude.{◌≡◌, true, All, IfErr, IfOk, OnOk, length, map};
ghost use Rattle.std.specs.List.{list_all};
ghost use Rattle.nvm_model.specs.Files.{entry_of_file};
ghost use Rattle.nvm_model.specs.Storage.{File};
ghost use Rattle.cut_places.specs.MachineModel.Machine.{Machine};
ghost use Rattle.machine_host.specs.Settling.{GoesOn};
ghost use Rattle.machine_host.specs.Stands.{Stands};
ghost use Rattle.cut_places.specs.AskedReads.Asking.{may_be_file_reply};
ghost use Rattle.cut_places.specs.AskedReads.Reads.{file_reads_asked};
ghost use Rattle.cut_places.specs.SeesFiles.{SeesFile, SeesFiles, are_held};
ghost use Rattle.explorer.specs.Files.{HasFewPages, IsListed};
ghost use Rattle.explorer.specs.Starting.{Begins};
ghost use Rattle.explorer.specs.Stopping.{DeviceStopped, NoneFell};

use crate::fault::ExploreFault;
use crate::file_line_look::look_line;
use crate::file_numbers::file_numbers;
use cut_places::reads_asked::FileRead;
use cut_places::{FileSeen, FilesSeen};
use line_device::LineDevice;
use machine_host::{Host, Outcome};
use nvm_base::{FileEntry, FileList};
use reply_text::Reply;
use script_text::Command;
use std::alloc::Global;

/// All files, each with the lines that some of these reads look at.
pub fn look_files<D: LineDevice>(
    alloc: Global,
    host: &mut Host,
    device: &mut D,
    reads: &[FileRead],
    work: &mut [u8],
) -> Result<FilesSeen, ExploreFault>
    requires known { GoesOn host.old (D.state device.old) }
    requires wide { length work.old ≡ 65536 }
    requires replies { list_all may_be_file_reply (file_reads_asked reads.now) ≡ true }
    ensures held { IfOk result (λ files. are_held files.numbers (file_reads_asked reads.now) ≡ true) }
    ensures sees { (h : Machine) → Stands host.old (D.state device.old) h → Begins h
        → IfOk result (λ files. SeesFiles files h × Stands host.new (D.state device.new) h) }
    ensures geometry { OnOk result (host.new.geometry ≡ host.old.geometry) }
    ensures known { OnOk result (GoesOn host.new (D.state device.new)) }
    ensures counts { OnOk result (NoneFell (D.state device.old).panel (D.state device.new).panel) }
    ensures cause { (h : Machine) → Stands host.old (D.state device.old) h → Begins h
        → IfErr result (λ fault. fault ≡ ExploreFault.Device → DeviceStopped (D.state device.old).panel (D.state device.new).panel) }
{
    let numbers = file_numbers(alloc, reads)?;
    let listed = list_files(host, device, work)?;
    let mut files = FilesSeen::new(alloc, Vec::from_slice(alloc, &numbers)?);
    for entry in listed.as_slice() {
        let file = look_file(alloc, host, device, entry, &numbers, work)?;
        files.add_file(file)?;
    }
    Ok(files)
}

// The name and page count of each file, in order of name.
fn list_files<D: LineDevice>(
    host: &mut Host,
    device: &mut D,
    work: &mut [u8],
) -> Result<FileList, ExploreFault>
    requires known { GoesOn host.old (D.state device.old) }
    requires wide { length work.old ≡ 65536 }
    ensures small { IfOk result (λ listed. All HasFewPages listed.items) }
    ensures lists { (h : Machine) → Stands host.old (D.state device.old) h → Begins h
        → IfOk result (λ listed. (listed.items ≡ map entry_of_file h.files) × Stands host.new (D.state device.new) h) }
    ensures geometry { OnOk result (host.new.geometry ≡ host.old.geometry) }
    ensures known { OnOk result (GoesOn host.new (D.state device.new)) }
    ensures counts { OnOk result (NoneFell (D.state device.old).panel (D.state device.new).panel) }
    ensures cause { (h : Machine) → Stands host.old (D.state device.old) h → Begins h
        → IfErr result (λ fault. fault ≡ ExploreFault.Device → DeviceStopped (D.state device.old).panel (D.state device.new).panel) }
{
    match host.answer(device, &Command::List, work)? {
        Outcome::Reply(Reply::Files(files)) => Ok(files),
        Outcome::Reply(_) | Outcome::Read(_) => Err(ExploreFault::Device),
    }
}

// One file, with its lines of these numbers.
fn look_file<D: LineDevice>(
    alloc: Global,
    host: &mut Host,
    device: &mut D,
    entry: &FileEntry,
    numbers: &[u32],
    work: &mut [u8],
) -> Result<FileSeen, ExploreFault>
    requires known { GoesOn host.old (D.state device.old) }
    requires wide { length work.old ≡ 65536 }
    requires small { HasFewPages entry.now }
    ensures named { IfOk result (λ seen. seen.name ≡ entry.now.name) }
    ensures sees { (h : Machine) (file : File) → Stands host.old (D.state device.old) h → Begins h → IsListed entry.now file h.files
        → IfOk result (λ seen. SeesFile numbers.now seen file × Stands host.new (D.state device.new) h) }
    ensures geometry { OnOk result (host.new.geometry ≡ host.old.geometry) }
    ensures known { OnOk result (GoesOn host.new (D.state device.new)) }
    ensures counts { OnOk result (NoneFell (D.state device.old).panel (D.state device.new).panel) }
    ensures cause { (h : Machine) (file : File) → Stands host.old (D.state device.old) h → Begins h → IsListed entry.now file h.files
        → IfErr result (λ fault. fault ≡ ExploreFault.Device → DeviceStopped (D.state device.old).panel (D.state device.new).panel) }
{
    let mut file = FileSeen::new(alloc, entry.name, entry.pages as u32);
    for n in numbers {
        let line = look_line(alloc, host, device, entry, *n, work)?;
        file.add_line(*n, line)?;
    }
    Ok(file)
}
