// Laws of the image of storage, each a function without a body.
ghost use Rattle.std.specs.Prelude.{◌≡◌, ◌≤◌, ◌<◌, ◌+◌, ◌^◌, ℕ, List, [], ◌∷◌, None, Some, false, length, slice_get};
ghost use Rattle.line_device.specs.declared.line.Choice.TheVariants.{Firsts};
ghost use Rattle.word_tables.specs.declared.geometry.Geometry.{Geometry};
ghost use Rattle.word_tables.specs.Bounds.{IsValid};
ghost use Rattle.word_tables.specs.Layout.{Area, rank, first_line, meta_lines, size, total_lines, volume_line};
ghost use Rattle.word_tables.specs.Superblock.{IsSuperblock};
ghost use Rattle.nvm_model.specs.Cell.{Cell};
ghost use Rattle.nvm_model.specs.Page.{Page, presence_of, read_pages, KeepsPages};
ghost use Rattle.nvm_model.specs.Storage.{Block, File};
ghost use Rattle.block_device.specs.Mounting.{wrong_place};
ghost use Rattle.block_device.specs.Reading.{blocks_read};
ghost use Rattle.pm_volume.specs.Presence.{presence_read, wrong_volume_place};
ghost use Rattle.file_journal.specs.Reading.{wrong_file_place};
ghost use Rattle.file_journal.specs.Standing.{files_read, KeepsFiles};
ghost use Rattle.script_text.specs.Action.Action.{Restart};
ghost use Rattle.script_text.specs.Script.Input.{Asked};
ghost use Rattle.reply_text.specs.Answer.Answer.{DoneBad};
ghost use Rattle.machine_model.specs.Commands.{fate};
ghost use Rattle.machine_model.specs.Machine.{Machine, bad_of};
ghost use Rattle.machine_model.specs.Machine.Fate.{Restarts};
ghost use Rattle.machine_model.specs.Run.{Hears, Transcript};
ghost use Rattle.machine_model.specs.Restarting.{RestartMayLeave, holding, reading};
ghost use Rattle.state_images.specs.Examples.{ImageRows};
ghost use Rattle.state_images.specs.Files.{all_present};
ghost use Rattle.state_images.specs.Fitting.{FilesFit, PagesFit};
ghost use Rattle.state_images.specs.Images.{areas_of, image_of, line_of};
ghost use Rattle.state_images.specs.Keeping.{FilesSurvive, PagesSurvive};
ghost use Rattle.state_images.specs.Left.{MayBeLeft, back_with};
ghost use Rattle.state_images.specs.Shapes.{AreFilesWhole, AreWhole, HasVolumeShape, HasFilesShape};
ghost use Rattle.state_images.specs.Storable.{AreStorableBlocks, IsStorable, IsStorableFiles, IsStorableVolume};

/// Each area has its own lines.
pub fn each_area_has_its_lines()
    ensures { (geo : Geometry) (blocks : List Block) (volume : List Page) (files : List File) (area : Area) (lines : ℕ → Cell) (i : ℕ)
        → slice_get (areas_of geo blocks volume files) (rank area) ≡ Some lines → i < size geo area
        → line_of geo blocks volume files (first_line geo area + i) ≡ lines i }
{}

/// The image has the volume's pages and which of them exist, whatever blocks and files there are.
pub fn the_volume_is_read()
    ensures there { (geo : Geometry) (blocks : List Block) (volume : List Page) (files : List File) → IsStorableVolume geo volume
        → presence_read geo (image_of geo blocks volume files).word ≡ presence_of volume }
    ensures pages { (geo : Geometry) (blocks : List Block) (volume : List Page) (files : List File) → IsStorableVolume geo volume
        → read_pages (volume_line geo) (image_of geo blocks volume files) (presence_of volume) ≡ volume }
{}

/// The image has the blocks, whatever pages and files there are.
pub fn the_blocks_are_read()
    ensures { (geo : Geometry) (blocks : List Block) (volume : List Page) (files : List File) → IsValid geo → AreStorableBlocks geo blocks
        → blocks_read geo (image_of geo blocks volume files).is_bad (image_of geo blocks volume files).word ≡ blocks }
{}

/// The image has the files, whatever blocks and pages there are.
pub fn the_files_are_read()
    ensures { (geo : Geometry) (blocks : List Block) (volume : List Page) (files : List File) → IsStorableFiles geo files
        → files_read geo (image_of geo blocks volume files) ≡ files }
{}

/// No line of metadata is bad or weak.
pub fn the_metadata_is_good()
    ensures good { (geo : Geometry) (blocks : List Block) (volume : List Page) (files : List File) (line : ℕ) → line < meta_lines geo
        → (image_of geo blocks volume files).is_bad line ≡ false }
    ensures strong { (geo : Geometry) (blocks : List Block) (volume : List Page) (files : List File) (line : ℕ) → line < meta_lines geo
        → (image_of geo blocks volume files).is_weak line ≡ false }
{}

/// A restart may leave the image of pages and files which have one value of each word that there was.
pub fn one_value_of_each_word_may_be_left()
    ensures pages { (geo : Geometry) (blocks : List Block) (left volume : List Page) (files : List File) → IsStorableVolume geo volume
        → PagesSurvive left volume → KeepsPages Firsts (volume_line geo) (image_of geo blocks volume files) left }
    ensures files { (geo : Geometry) (blocks : List Block) (volume : List Page) (left files : List File) → IsStorableFiles geo files
        → FilesSurvive left files → KeepsFiles Firsts geo (image_of geo blocks volume files) left }
{}

/// Where each word keeps one of its values, storage as commands keep it becomes storage that has an image.
pub fn what_survives_has_an_image()
    ensures volume { (geo : Geometry) (left volume : List Page) → HasVolumeShape geo left → PagesSurvive left volume → AreWhole volume
        → IsStorableVolume geo volume }
    ensures files { (geo : Geometry) (left files : List File) → HasFilesShape geo left → FilesSurvive left files → AreFilesWhole files
        → IsStorableFiles geo files }
{}

/// A mount finds nothing wrong with the image: not with its superblock, nor with a log or a table, where 16 pages are left.
pub fn a_mount_finds_nothing_wrong()
    ensures superblock { (geo : Geometry) (blocks : List Block) (volume : List Page) (files : List File) → IsValid geo
        → IsSuperblock (total_lines geo) (image_of geo blocks volume files).word }
    ensures blocks { (geo : Geometry) (blocks : List Block) (volume : List Page) (files : List File) → IsValid geo → AreStorableBlocks geo blocks
        → wrong_place geo (image_of geo blocks volume files).word ≡ None }
    ensures volume { (geo : Geometry) (blocks : List Block) (volume : List Page) (files : List File) → IsStorableVolume geo volume
        → wrong_volume_place geo (image_of geo blocks volume files).word ≡ None }
    ensures files { (geo : Geometry) (blocks : List Block) (volume : List Page) (files : List File) → IsValid geo → IsStorableFiles geo files
        → length (all_present files) + 16 ≤ geo.fpages → wrong_file_place geo (image_of geo blocks volume files).word ≡ None }
{}

/// Each word of the image has eight bytes, where those of pages and files have.
pub fn each_word_has_eight_bytes()
    ensures { (geo : Geometry) (blocks : List Block) (volume : List Page) (files : List File) → IsValid geo → AreStorableBlocks geo blocks
        → IsStorableFiles geo files → PagesFit volume → FilesFit files → (place : ℕ) → (image_of geo blocks volume files).word place < 2 ^ 64 }
{}

/// The machine reads the image as the state at rest of these blocks, pages and files.
pub fn the_machine_reads_what_is_stored()
    ensures { (geo : Geometry) (blocks : List Block) (volume : List Page) (files : List File) → IsValid geo → IsStorable geo blocks volume files
        → reading geo (image_of geo blocks volume files) ≡ holding geo blocks volume files }
{}

/// Where words are kept whole: whatever storage the interrupted action may have left, with whichever value kept of each word: a restart may leave its image, and
/// so a run comes to it.
pub fn a_restart_may_leave_what_is_stored()
    ensures image { (off : Machine) (blocks : List Block) (volume : List Page) (files : List File) → IsValid off.geometry
        → IsStorable off.geometry blocks volume files → off.unit ≡ 8 → off.bad_meta ≡ [] → MayBeLeft off blocks volume files
        → RestartMayLeave Firsts (image_of off.geometry blocks volume files) off }
    ensures run { (off : Machine) (blocks : List Block) (volume : List Page) (files : List File) → IsValid off.geometry
        → IsStorable off.geometry blocks volume files → off.unit ≡ 8 → off.bad_meta ≡ [] → MayBeLeft off blocks volume files
        → fate off (Restart Firsts) ≡ Restarts Firsts
        → (said : Transcript) × (said.answers ≡ DoneBad (bad_of (back_with off blocks volume files)) ∷ [])
        × Hears off (Asked (Restart Firsts)) said (back_with off blocks volume files) }
{}

/// Some storage, and what stands in its image.
pub fn worked_image()
    ensures { ImageRows }
{}
