ghost use Rattle.std.specs.Prelude.{◌≡◌, ◌≤◌, ℕ, List, Some, None, length};
ghost use Rattle.std.specs.List.{AllByRecursion, concat};
ghost use Rattle.line_device.specs.Device.{Depicts};
ghost use Rattle.line_device.specs.Medium.{IsSound, Medium};
ghost use Rattle.line_device.specs.Panel.{IsUnit};
ghost use Rattle.line_device.specs.declared.line.LineState.{LineState};
ghost use Rattle.image_file.specs.Devices.{DepictsLast, IsLastImage, image_of, medium_of};
ghost use Rattle.image_file.specs.Fields.{IsFirstWrong, image_fields};
ghost use Rattle.image_file.specs.Text.{AreFileBytes, FitImage, IsImageLine, IsSnapshot, Snapshot, TakesUnit, image_text};
ghost use Rattle.image_file.specs.WrongField.{first_wrong_offset};
ghost use Rattle.image_file.specs.Laws.{ImageRows, IsSpelled, UnitRows};
ghost use Rattle.image_file.specs.declared.Units.{Units};

/// Laws: no two images have the same bytes, and bytes of which no field is wrong are those of an image whose unit is taken.
pub fn images_have_one_text()
    ensures one { (m n : Snapshot) → IsSnapshot m → IsSnapshot n → image_text m ≡ image_text n → m ≡ n }
    ensures right { (units : Units) (m : Snapshot) → IsSnapshot m → TakesUnit units m.unit → first_wrong_offset units (image_text m) ≡ None }
    ensures spelled { (units : Units) (bytes : List ℕ) → AreFileBytes bytes → first_wrong_offset units bytes ≡ None → IsSpelled units bytes }
{}

/// Laws: an image's bytes are its fields, and the offset of what is wrong is that of the first field by which bytes are no
/// image's whose unit is taken.
pub fn first_wrong_fields_are_told()
    ensures fields { (m : Snapshot) → image_text m ≡ concat (image_fields m) }
    ensures first { (units : Units) (bytes : List ℕ) (offset : ℕ) → AreFileBytes bytes → first_wrong_offset units bytes ≡ Some offset
        → IsFirstWrong units bytes offset }
{}

/// Where images of one line and of three are wrong once they are changed, and one of unit 1.
pub fn worked_images()
    ensures rows { (units : Units) → ImageRows units }
    ensures units { UnitRows }
{}

/// Laws: a device that has just the lines of an image is a sound one, shows that image, and is read out as these lines.
pub fn installed_lines_are_shown()
    ensures depicted { (unit : ℕ) (lines : List LineState) → Depicts (medium_of lines) (image_of unit lines) }
    ensures sound { (lines : List LineState) → length lines ≤ 118016 → IsSound (medium_of lines) }
    ensures back { (lines : List LineState) → AllByRecursion IsImageLine lines → IsLastImage (medium_of lines) lines }
{}

/// Laws: lines that were read out have the marks of the device's lines and the last value of each healthy word, and they may
/// stand in an image.
pub fn extracted_lines_are_the_last()
    ensures words { (m : Medium) (unit : ℕ) (lines : List LineState) → IsSound m → IsLastImage m lines → DepictsLast m (image_of unit lines) }
    ensures image { (m : Medium) (unit : ℕ) (lines : List LineState) → IsUnit unit → FitImage m.count → IsLastImage m lines
        → IsSnapshot (record { unit = unit; lines = lines }) }
{}
