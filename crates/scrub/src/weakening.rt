// Lines that wear out.
ghost use Rattle.std.specs.Prelude.{◌≡◌, ◌<◌, Err};
ghost use Rattle.line_device.specs.Medium.{WritesBack};
ghost use Rattle.nvm_model.specs.Cell.{weaken_cell};
ghost use Rattle.file_pages.specs.Object.{PagesServe};
ghost use Rattle.pm_volume.specs.Object.{VolumeServes};
ghost use Rattle.scrub.specs.declared.fault.WeakenFault.TheVariants.{Memory};
ghost use Rattle.scrub.specs.Calls.{MarksFile, MarksVolume};
ghost use Rattle.scrub.specs.Refusals.{weaken_says};

use crate::WeakenFault;
use crate::places::{line_in_file, line_of_byte};
use file_pages::FilePages;
use line_device::Lines;
use pm_volume::Volume;

/// Makes the line of a byte of the volume weak: its next persist makes it bad. One that is bad stays as it is.
pub fn weaken_volume<L: Lines>(dev: &mut L, volume: &Volume, offset: u64) -> Result<(), WeakenFault>
    requires serves { VolumeServes volume.now (L.state dev.old).medium }
    ensures marks { MarksVolume L.state volume.now dev.old dev.new result weaken_says weaken_cell offset }
    ensures memory { result ≡ Err Memory → WritesBack (L.state dev.old).medium (L.state dev.new).medium }
{
    let line = line_of_byte(volume, offset)?;
    dev.weaken(line)?;
    Ok(())
}

/// Makes the line of a byte of a file weak: its next persist makes it bad. One that is bad stays as it is.
pub fn weaken_file<L: Lines>(
    dev: &mut L,
    files: &FilePages,
    inode: u64,
    offset: u64,
) -> Result<(), WeakenFault>
    requires serves { PagesServe files.now (L.state dev.old).medium }
    requires inode { inode < 64 }
    ensures marks { MarksFile L.state files.now dev.old dev.new result weaken_says weaken_cell inode offset }
    ensures memory { result ≡ Err Memory → WritesBack (L.state dev.old).medium (L.state dev.new).medium }
{
    let line = line_in_file(files, inode, offset)?;
    dev.weaken(line)?;
    Ok(())
}
