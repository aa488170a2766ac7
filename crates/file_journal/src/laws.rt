// Laws of the files of tables, each a function without a body.
ghost use Rattle.std.specs.Prelude.{◌≡◌, ◌≢◌, ◌≤◌, ℕ, false, length, List, map, None, Option};
ghost use Rattle.line_device.specs.Device.{Depicts};
ghost use Rattle.line_device.specs.Medium.{Medium, Survivors};
ghost use Rattle.line_device.specs.Panel.{Image};
ghost use Rattle.line_device.specs.declared.line.Choice.{Choice};
ghost use Rattle.word_tables.specs.declared.geometry.Geometry.{Geometry};
ghost use Rattle.word_tables.specs.Bounds.{IsValid};
ghost use Rattle.word_tables.specs.Layout.{total_lines};
ghost use Rattle.word_log.specs.Replay.{Replays};
ghost use Rattle.inode_table.specs.Slots.{IsNamed, file_count};
ghost use Rattle.nvm_model.specs.Listing as list;
ghost use Rattle.nvm_model.specs.Listing.{change_file, put_file, rename_file, without_file};
ghost use Rattle.nvm_model.specs.Storage.{File};
ghost use Rattle.file_journal.specs.Area.{file_area};
ghost use Rattle.file_journal.specs.Changes.{created, deleted, renamed, resized, switched};
ghost use Rattle.file_journal.specs.Device.{device_files};
ghost use Rattle.file_journal.specs.Files.{entry_of, files_of, hole_file, named_file, resized_file, switched_file, unit_file_name};
ghost use Rattle.file_journal.specs.Holds.{Holds};
ghost use Rattle.file_journal.specs.Listing.{listed};
ghost use Rattle.file_journal.specs.Reading.{tables_read, words_read, wrong_file_place, wrong_table};
ghost use Rattle.file_journal.specs.Standing.{FilesStand, KeepsFiles, files_read};
ghost use Rattle.file_journal.specs.Tables.{AreTables, Tables, has_file};

/// Each change of tables is that of one file in the list of files, with the units of its pages, and of no other.
pub fn a_change_is_of_one_file()
    ensures created { (size pages : ℕ) (t : Tables) (name : List ℕ) → AreTables size t → pages ≤ 256 → has_file t name ≡ false
        → file_count t.files ≢ 64 → files_of (created name pages t) ≡ put_file unit_file_name (hole_file name pages) (files_of t) }
    ensures deleted { (size : ℕ) (t : Tables) (name : List ℕ) → AreTables size t
        → files_of (deleted name t) ≡ without_file unit_file_name name (files_of t) }
    ensures renamed { (size : ℕ) (t : Tables) (name to : List ℕ) → AreTables size t → has_file t to ≡ false
        → files_of (renamed name to t) ≡ rename_file unit_file_name name (named_file to) (files_of t) }
    ensures resized { (size pages : ℕ) (t : Tables) (name : List ℕ) → AreTables size t → pages ≤ 256
        → files_of (resized name pages t) ≡ change_file unit_file_name name (resized_file pages) (files_of t) }
    ensures switched { (size inode : ℕ) (t : Tables) (name : List ℕ) (switches : List (ℕ × Option ℕ)) → AreTables size t
        → IsNamed t.files inode name → files_of (switched inode switches t) ≡ change_file unit_file_name name (switched_file switches) (files_of t) }
{}

/// The list of files has the names, the page counts and the number of the tables' files.
pub fn files_are_those_of_the_inodes()
    ensures names { (size : ℕ) (t : Tables) (name : List ℕ) → AreTables size t → has_file t name ≡ list.has_file unit_file_name name (files_of t) }
    ensures entries { (t : Tables) → map entry_of (files_of t) ≡ listed t }
    ensures number { (t : Tables) → length (files_of t) ≡ file_count t.files }
{}

/// A device stands for some files, whatever its tables: those of its marks and histories. So what a contract says of any files
/// that tables and device stand for, it says of some.
pub fn a_device_stands_for_files()
    ensures { (geo : Geometry) (m : Medium) (t : Tables) → FilesStand geo m t (device_files geo m t) }
{}

/// An image whose words hold tables after the replay reads as these, and nothing is wrong with it.
pub fn words_that_hold_tables_read_as_them()
    ensures tables { (geo : Geometry) (image word : ℕ → ℕ) (t : Tables) → Replays (file_area geo) image word → Holds geo word t
        → AreTables geo.fpages t → tables_read geo image ≡ t }
    ensures none_wrong { (geo : Geometry) (image word : ℕ → ℕ) (t : Tables) → Replays (file_area geo) image word → Holds geo word t
        → AreTables geo.fpages t → wrong_file_place geo image ≡ None }
    ensures right { (geo : Geometry) (image : ℕ → ℕ) → IsValid geo → wrong_table geo (words_read geo image) ≡ None
        → AreTables geo.fpages (tables_read geo image) }
{}

/// A restart leaves of files what it may leave, and the device stands for what is read of it; that may be left again.
pub fn files_come_back()
    ensures keeps { (choice : Choice) (geo : Geometry) (old new : Medium) (image : Image) (files : List File)
        → AreTables geo.fpages (tables_read geo image.word) → old.count ≡ total_lines geo → FilesStand geo old (tables_read geo image.word) files
        → Survivors image.unit choice old new → Depicts new image → KeepsFiles choice geo image files }
    ensures stands { (geo : Geometry) (m : Medium) (image : Image) → AreTables geo.fpages (tables_read geo image.word)
        → m.count ≡ total_lines geo → Depicts m image → FilesStand geo m (tables_read geo image.word) (files_read geo image) }
    ensures again { (choice : Choice) (geo : Geometry) (image : Image) → KeepsFiles choice geo image (files_read geo image) }
{}
