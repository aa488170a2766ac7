// Bad lines of the volume and of files, made zeros.
ghost use Rattle.std.specs.Prelude.{◌≡◌, ◌⊎◌, ◌/◌, ◌<◌, IsTrue, List, MatchResult, OnErr, OnOk};
ghost use Rattle.line_device.specs.Medium.{WritesBack, cleared};
ghost use Rattle.line_device.specs.Panel.{Runs};
ghost use Rattle.line_words.specs.Told.{Answers, OnRefused, OnWorked, outcome_by};
ghost use Rattle.word_tables.specs.Layout.{volume_line};
ghost use Rattle.nvm_model.specs.Cell.{clear_cell};
ghost use Rattle.nvm_model.specs.Files.{on_pages};
ghost use Rattle.nvm_model.specs.Listing.{change_file, file_name};
ghost use Rattle.nvm_model.specs.Page.{Page, change_line};
ghost use Rattle.nvm_model.specs.Storage.{File};
ghost use Rattle.page_lines.specs.Turns.{WritesBackOthers};
ghost use Rattle.file_journal.specs.Standing.{EachReadsFiles, FilesStand};
ghost use Rattle.file_pages.specs.Object.{IsFileAt, KeepsMarks, PagesServe};
ghost use Rattle.pm_volume.specs.Images.{EachReadsPages};
ghost use Rattle.pm_volume.specs.Object.{VolumeHolds, VolumeServes};
ghost use Rattle.scrub.specs.Lines.{IsFileLine};
ghost use Rattle.marked_lines.specs.Refusals.{clear_refusal, file_clear_refusal, mark_refusal};
ghost use Rattle.scrub.specs.Refusals.{scrub_says};

use crate::ScrubFault;
use crate::places::{line_in_file, line_of_byte};
use file_pages::FilePages;
use line_device::Lines;
use line_words::clear_line;
use nvm_base::LineNo;
use pm_volume::Volume;

/// Makes the bad line of a byte of the volume one of zeros: healthy, not weak and durable, by one call of the device.
pub fn clear_volume<L: Lines>(dev: &mut L, volume: &Volume, offset: u64) -> Result<(), ScrubFault>
    requires serves { VolumeServes volume.now (L.state dev.old).medium }
    requires on { IsTrue (L.state dev.old).panel.power }
    ensures refused { (pages : List Page) → VolumeHolds volume.now (L.state dev.old).medium pages
        → Answers scrub_says (clear_refusal volume.now.geo pages offset) result }
    ensures untouched { OnRefused scrub_says result (dev.new ≡ dev.old) }
    ensures ok { OnOk result ((pages : List Page) → VolumeHolds volume.now (L.state dev.old).medium pages
        → VolumeHolds volume.now (L.state dev.new).medium (change_line clear_cell (offset / 64) pages)) }
    ensures err { OnErr result (WritesBack (L.state dev.old).medium (L.state dev.new).medium) }
    ensures images { OnWorked scrub_says result ((pages : List Page) → VolumeHolds volume.now (L.state dev.old).medium pages
        → EachReadsPages volume.now.geo (L.state dev.new).medium
        (λ left. (left ≡ pages) ⊎ (left ≡ change_line clear_cell (offset / 64) pages))) }
    ensures outside { WritesBackOthers (λ line. line ≡ volume_line volume.now.geo (offset / 64))
        (L.state dev.old).medium (L.state dev.new).medium }
    ensures serves { VolumeServes volume.now (L.state dev.new).medium }
    ensures runs { Runs 1 0 (outcome_by scrub_says result) (L.state dev.old).panel (L.state dev.new).panel }
{
    let line = line_of_byte(volume, offset)?;
    clear_bad(dev, line)
}

/// Makes the bad line of a byte of a file one of zeros: healthy, not weak and durable, by one call of the device.
pub fn clear_file<L: Lines>(
    dev: &mut L,
    files: &FilePages,
    inode: u64,
    offset: u64,
) -> Result<(), ScrubFault>
    requires serves { PagesServe files.now (L.state dev.old).medium }
    requires on { IsTrue (L.state dev.old).panel.power }
    requires inode { inode < 64 }
    ensures refused { (all : List File) (file : File) → IsFileAt files.now.journal (L.state dev.old).medium inode all file
        → Answers scrub_says (file_clear_refusal file.pages offset) result }
    ensures untouched { OnRefused scrub_says result (dev.new ≡ dev.old) }
    ensures ok { OnOk result ((all : List File) (file : File) → IsFileAt files.now.journal (L.state dev.old).medium inode all file
        → FilesStand files.now.journal.geo (L.state dev.new).medium files.now.journal.tables
        (change_file file_name file.name (on_pages (λ pages. change_line clear_cell (offset / 64) pages)) all)) }
    ensures err { OnErr result (WritesBack (L.state dev.old).medium (L.state dev.new).medium) }
    ensures images { OnWorked scrub_says result ((all : List File) (file : File)
        → IsFileAt files.now.journal (L.state dev.old).medium inode all file
        → EachReadsFiles files.now.journal.geo (L.state dev.new).medium (λ left. (left ≡ all)
        ⊎ (left ≡ change_file file_name file.name (on_pages (λ pages. change_line clear_cell (offset / 64) pages)) all))) }
    ensures outside { WritesBackOthers (IsFileLine files.now.journal inode (offset / 64)) (L.state dev.old).medium (L.state dev.new).medium }
    ensures metadata { KeepsMarks files.now.journal.geo (L.state dev.old).medium (L.state dev.new).medium }
    ensures serves { PagesServe files.now (L.state dev.new).medium }
    ensures runs { Runs 1 0 (outcome_by scrub_says result) (L.state dev.old).panel (L.state dev.new).panel }
{
    let line = line_in_file(files, inode, offset)?;
    clear_bad(dev, line)
}

// Clears a line, which is to be bad.
fn clear_bad<L: Lines>(dev: &mut L, line: LineNo) -> Result<(), ScrubFault>
    requires there { line.0 < (L.state dev.old).medium.count }
    requires on { IsTrue (L.state dev.old).panel.power }
    ensures refused { Answers scrub_says (mark_refusal ((L.state dev.old).medium.is_bad line.0)) result }
    ensures untouched { OnRefused scrub_says result (dev.new ≡ dev.old) }
    ensures lines { MatchResult result
        (λ _. WritesBack (cleared (L.state dev.old).medium line.0) (L.state dev.new).medium)
        (λ _. WritesBack (L.state dev.old).medium (L.state dev.new).medium) }
    ensures runs { Runs 1 0 (outcome_by scrub_says result) (L.state dev.old).panel (L.state dev.new).panel }
{
    if !dev.is_bad(line) {
        return Err(ScrubFault::NotPoisoned);
    }
    clear_line(dev, line.0)?;
    Ok(())
}
