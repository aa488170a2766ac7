// Laws of whole runs, each a function without a body.
ghost use Rattle.std.specs.Prelude.{◌≡◌, ◌≢◌, ◌⊎◌, ◌+◌, ◌-◌, ◌*◌, ◌/◌, ℕ, true, false, List, [], ◌∷◌, ◌++◌, length, slice_index, Some, None};
ghost use Rattle.word_tables.specs.declared.geometry.Geometry.{Geometry};
ghost use Rattle.std.specs.List.{Contains};
ghost use Rattle.durable.specs.Touching.{is_made_durable, made_durable, unmounts, wears};
ghost use Rattle.nvm_base.specs.declared.files.FileEntry.{FileEntry};
ghost use Rattle.nvm_base.specs.declared.units.Span.{Span};
ghost use Rattle.reply_text.specs.Answer.Answer.{Files, RefusedMeta, Stopped as StoppedMeta, VerifyFile};
ghost use Rattle.nvm_model.specs.Cell.{covers, touches};
ghost use Rattle.nvm_model.specs.Numbered.{is_among};
ghost use Rattle.nvm_model.specs.Blocks.{write};
ghost use Rattle.nvm_model.specs.Page.{Page, cell_of, discard, touches_absent};
ghost use Rattle.nvm_model.specs.Storage.{File, Mapping};
ghost use Rattle.range_sets.specs.Ranges.{total_of};
ghost use Rattle.line_device.specs.Panel.{Image};
ghost use Rattle.word_tables.specs.Layout.{volume_line};
ghost use Rattle.pm_volume.specs.Presence.{presence_read};
ghost use Rattle.pm_volume.specs.Refusals.{physical_offset};
ghost use Rattle.script_text.specs.Action.{Action};
ghost use Rattle.script_text.specs.Action.Action.{BRead, BWrite, BAtomic, VLoad, VStore, VSync, VPSync, FRead, FWrite, FAtomic, FMulti, Load, Store, FlushVerify, PoisonBlock, PoisonFile, PoisonVolume, ClearFile, ClearVolume, Cut, Recover, Restart, ListFiles, NextEvent};
ghost use Rattle.script_text.specs.Script.{Input, inputs};
ghost use Rattle.script_text.specs.Script.Input.{Asked};
ghost use Rattle.line_device.specs.declared.line.Choice.{Choice};
ghost use Rattle.line_device.specs.declared.line.Choice.TheVariants.{Firsts};
ghost use Rattle.machine_model.specs.declared.mode.Mode.TheVariants.{On, Stopped};
ghost use Rattle.machine_model.specs.declared.needs.Needs.TheVariants.{Usable};
ghost use Rattle.machine_model.specs.Lines.{lowest};
ghost use Rattle.machine_model.specs.Machine.{Machine};
ghost use Rattle.machine_model.specs.OnFileActions.{discarded_in, written_together};
ghost use Rattle.machine_model.specs.OnPages.{pages_named};
ghost use Rattle.machine_model.specs.Restarting.{reading};
ghost use Rattle.machine_model.specs.Commands.{early_refusal, meaning};
ghost use Rattle.machine_model.specs.Run.{Hears, Transcript, Run};
ghost use Rattle.durable.specs.Mapped.{AreWithin, but_for_copies, commands_begun, exchanges, mappings_after};
ghost use Rattle.durable.specs.Place.{Place, byte_at_place, is_weak_at, is_weak_line};
ghost use Rattle.durable.specs.Naming.{Names, NamesLine, NamesLineOf, NamesObstacle, refused_before};
ghost use Rattle.durable.specs.Place.Place.{of_volume, of_blocks, of_file};
ghost use Rattle.durable.specs.Durable.{BringBytes, BringsBytes, Does, Finishes, HasNothing, IsDurable, IsComplete, IsShown, KeepsByte, KeepsThrough, Lasts, LastsPowered, Spares};
ghost use Rattle.durable.specs.Whole.{BreaksOffFor, HasEither, ShowsEither, ShowsFiles, ShowsVolume, WholeWrite, command};
ghost use Rattle.durable.specs.Events.{AreMounted, FindsAnew, Mounts, NoneMounts, TellsInOrder, TellsLines, TellsOldest, all_told};
ghost use Rattle.durable.specs.Files.{BreaksOff, FilesLast, FilesSettle, FilesThrough, IsStopped, LeavesFiles, changes_files, files_after, files_listed};

/// A command that covers a byte of the blocks, the volume or a file was done, a flush also where it lost a line: in every later state,
/// whatever is cut, fails, and is restarted or recovered, the byte is the same or its line is lost, until a command that changes it is
/// begun; or nothing is there, since metadata is bad. It is lost only where a command poisons its line, or one that makes it durable in
/// place is begun once another has made the line weak. A store or a flush through a handle is of the bytes that the handle is mapped to.
pub fn what_was_made_durable_stays()
    ensures stays { (h next : Machine) (action : Action) (x : Place) → Finishes h action next → is_made_durable h action x ≡ true → IsDurable next x }
    ensures whole { (h end : Machine) (before after : List Input) (action : Action) (said : Transcript) (x : Place) → IsComplete h
        → BringBytes after → Run h (before ++ Asked action ∷ after) said end → KeepsThrough h before action after said end x }
    ensures scripts { (script : List ℕ) → BringBytes (inputs script) }
{}

/// The bytes that were written are the ones that last: those of a write of blocks, those of a store to the volume, in a file or through
/// a mapping of it that is then made durable, but in a weak line that is made so in place, and the zeros of a line that is cleared; and at once those of a
/// write of ranges of a file as a whole, in weak lines too.
pub fn what_was_written_lasts()
    ensures write { (h next : Machine) (block i : ℕ) (bytes : List ℕ) → Does h (BWrite block bytes) next
        → is_among block (length bytes / 512) (i / 512) ≡ true
        → Lasts next (of_blocks i) (Some (slice_index bytes (i - 512 * block))) }
    ensures together { (h next : Machine) (block i : ℕ) (bytes : List ℕ) → Does h (BAtomic block bytes) next
        → is_among block (length bytes / 512) (i / 512) ≡ true
        → Lasts next (of_blocks i) (Some (slice_index bytes (i - 512 * block))) }
    ensures synced { (h stored next : Machine) (offset start len i : ℕ) (bytes : List ℕ) → BringsBytes (VStore offset bytes)
        → Does h (VStore offset bytes) stored → Does stored (VSync start len) next
        → is_among offset (length bytes) i ≡ true → touches start len (i / 64) ≡ true
        → is_weak_line (cell_of stored.volume (i / 64)) ≡ false
        → Lasts next (of_volume i) (Some (slice_index bytes (i - offset))) }
    ensures by_address { (h stored next : Machine) (offset address start len i : ℕ) (bytes : List ℕ) → BringsBytes (VStore offset bytes)
        → Does h (VStore offset bytes) stored → Does stored (VPSync address len) next
        → physical_offset h.geometry address len ≡ Some start
        → is_among offset (length bytes) i ≡ true → touches start len (i / 64) ≡ true
        → is_weak_line (cell_of stored.volume (i / 64)) ≡ false
        → Lasts next (of_volume i) (Some (slice_index bytes (i - offset))) }
    ensures cleared { (h next : Machine) (offset i : ℕ) → Does h (ClearVolume offset) next → i / 64 ≡ offset / 64
        → Lasts next (of_volume i) (Some 0) }
    ensures flushed { (h stored next : Machine) (name : List ℕ) (offset i : ℕ) (bytes : List ℕ) (action : Action) → BringsBytes (FWrite name offset bytes)
        → BringsBytes action → Does h (FWrite name offset bytes) stored → Finishes stored action next
        → is_made_durable stored action (of_file name i) ≡ true → is_among offset (length bytes) i ≡ true → KeepsByte stored action (of_file name i)
        → Lasts next (of_file name i) (Some (slice_index bytes (i - offset))) }
    ensures through_a_mapping { (h stored next : Machine) (handle offset i : ℕ) (bytes : List ℕ) (m : Mapping) (action : Action) → BringsBytes (Store handle offset bytes)
        → BringsBytes action → IsShown h handle m → AreWithin h.mappings h.files → Does h (Store handle offset bytes) stored
        → Finishes stored action next → is_made_durable stored action (of_file m.name i) ≡ true → is_among (m.start + offset) (length bytes) i ≡ true
        → KeepsByte stored action (of_file m.name i) → Lasts next (of_file m.name i) (Some (slice_index bytes (i - (m.start + offset)))) }
    ensures cleared_in_file { (h next : Machine) (name : List ℕ) (offset i : ℕ) → Does h (ClearFile name offset) next → i / 64 ≡ offset / 64
        → Lasts next (of_file name i) (Some 0) }
    ensures in_one_range { (h next : Machine) (name : List ℕ) (offset i : ℕ) (bytes : List ℕ) → BringsBytes (FAtomic name offset bytes)
        → Does h (FAtomic name offset bytes) next → is_among offset (length bytes) i ≡ true
        → Lasts next (of_file name i) (Some (slice_index bytes (i - offset))) }
    ensures in_ranges { (h next : Machine) (name : List ℕ) (i : ℕ) (before after : List Span) (range : Span) (bytes : List ℕ)
        → BringsBytes (FMulti name (before ++ range ∷ after) bytes) → Does h (FMulti name (before ++ range ∷ after) bytes) next
        → is_among range.start range.len i ≡ true
        → Lasts next (of_file name i) (Some (slice_index bytes (total_of before + (i - range.start)))) }
{}

/// While the power stays on, whatever calls fail and however often the storage is recovered, a byte is the one that was last
/// stored, synced or not, until a command that changes it is begun. It is lost only as one that was made durable may be. The
/// bytes of a file change where its pages do, and where it is made, renamed, resized or deleted.
pub fn what_is_there_stays_while_powered()
    ensures stays { (h : Machine) (x : Place) → IsComplete h → h.mode ≡ On → is_weak_at h x ≡ false → LastsPowered h x (byte_at_place h x) }
    ensures stored { (h stored : Machine) (offset i : ℕ) (bytes : List ℕ) → BringsBytes (VStore offset bytes)
        → Does h (VStore offset bytes) stored → is_among offset (length bytes) i ≡ true → is_weak_line (cell_of stored.volume (i / 64)) ≡ false
        → LastsPowered stored (of_volume i) (Some (slice_index bytes (i - offset))) }
    ensures in_file { (h stored : Machine) (name : List ℕ) (offset i : ℕ) (bytes : List ℕ) → BringsBytes (FWrite name offset bytes)
        → Does h (FWrite name offset bytes) stored → is_among offset (length bytes) i ≡ true
        → is_weak_line (cell_of (pages_named name stored.files) (i / 64)) ≡ false
        → LastsPowered stored (of_file name i) (Some (slice_index bytes (i - offset))) }
    ensures through_a_mapping { (h stored : Machine) (handle offset i : ℕ) (bytes : List ℕ) (m : Mapping) → BringsBytes (Store handle offset bytes)
        → IsShown h handle m → AreWithin h.mappings h.files → Does h (Store handle offset bytes) stored → is_among (m.start + offset) (length bytes) i ≡ true
        → is_weak_line (cell_of (pages_named m.name stored.files) (i / 64)) ≡ false
        → LastsPowered stored (of_file m.name i) (Some (slice_index bytes (i - (m.start + offset)))) }
{}

/// A line that is poisoned is lost at once, and so is one that was weak when it was synced or flushed, though the answer is `ok`.
/// A flush that looks again names a line that is lost, and is answered `ok` only where it leaves none lost. What is lost stays lost,
/// whatever is cut, fails, and is restarted or recovered, until a command that changes it is begun.
pub fn what_is_lost_stays_lost()
    ensures poisoned { (h next : Machine) (offset i : ℕ) → Does h (PoisonVolume offset) next → i / 64 ≡ offset / 64
        → byte_at_place next (of_volume i) ≡ None }
    ensures poisoned_in_file { (h next : Machine) (name : List ℕ) (offset i : ℕ) → Does h (PoisonFile name offset) next → i / 64 ≡ offset / 64
        → byte_at_place next (of_file name i) ≡ None }
    ensures of_a_block { (h next : Machine) (block line i : ℕ) → Does h (PoisonBlock block line) next → i / 64 ≡ 8 * block + line
        → byte_at_place next (of_blocks i) ≡ None }
    ensures worn_out { (h next : Machine) (action : Action) (x : Place) → Finishes h action next → wears h action x ≡ true
        → is_weak_at h x ≡ true → byte_at_place next x ≡ None }
    ensures verified { (h next : Machine) (handle offset i : ℕ) (spans : List Span) (name : List ℕ) (said : Transcript)
        → Hears h (Asked (FlushVerify handle spans)) said next → said.answers ≡ VerifyFile name offset ∷ [] → i / 64 ≡ offset / 64
        → byte_at_place next (of_file name i) ≡ None }
    ensures none_lost { (h next : Machine) (handle i : ℕ) (spans : List Span) (name : List ℕ) → Does h (FlushVerify handle spans) next
        → is_made_durable h (FlushVerify handle spans) (of_file name i) ≡ true → byte_at_place next (of_file name i) ≢ None }
    ensures stays { (h : Machine) (x : Place) → IsComplete h → h.mode ≡ On → byte_at_place h x ≡ None → Lasts h x None }
{}

/// A read over a lost byte gives no data. Unless its mode or its span refuses it, it names the lowest bad line of its span, in the
/// volume or in a file, also through a mapping that shows it, or the lowest block that is scarred or has a bad line.
pub fn reads_name_what_is_lost()
    ensures volume { (h next : Machine) (offset len i : ℕ) (said : Transcript) → byte_at_place h (of_volume i) ≡ None
        → is_among offset len i ≡ true → Hears h (Asked (VLoad offset len)) said next
        → Names (early_refusal h.mode h.bad_meta h.geometry (VLoad offset len)) (NamesLine h.volume offset len) said.answers }
    ensures blocks { (h next : Machine) (block count i : ℕ) (said : Transcript) → IsComplete h → byte_at_place h (of_blocks i) ≡ None
        → is_among block count (i / 512) ≡ true → Hears h (Asked (BRead block count)) said next
        → Names (early_refusal h.mode h.bad_meta h.geometry (BRead block count)) (NamesObstacle h.blocks block count) said.answers }
    ensures in_file { (h next : Machine) (name : List ℕ) (offset len i : ℕ) (said : Transcript) → byte_at_place h (of_file name i) ≡ None
        → is_among offset len i ≡ true → Hears h (Asked (FRead name offset len)) said next
        → Names (refused_before h (FRead name offset len)) (NamesLineOf name (pages_named name h.files) offset len) said.answers }
    ensures through_a_mapping { (h next : Machine) (handle offset len i : ℕ) (m : Mapping) (said : Transcript) → IsShown h handle m
        → byte_at_place h (of_file m.name i) ≡ None → is_among (m.start + offset) len i ≡ true → Hears h (Asked (Load handle offset len)) said next
        → Names (refused_before h (Load handle offset len)) (NamesLineOf m.name (pages_named m.name h.files) (m.start + offset) len) said.answers }
{}

/// A line of metadata goes bad only by a command that poisons one, and stays bad. Where a mount is stopped by one, nothing of the
/// storage is there, then and in any later state, and a command on it is answered with the lowest one.
pub fn what_bad_metadata_stops()
    ensures same { (h later : Machine) (x : Place) (inputs : List Input) (said : Transcript) → Run h inputs said later
        → Spares (λ mappings. unmounts) x (commands_begun h.mappings inputs said.answers) → later.bad_meta ≡ h.bad_meta }
    ensures stays { (h later : Machine) (line : ℕ) (inputs : List Input) (said : Transcript) → Run h inputs said later
        → Contains h.bad_meta line → Contains later.bad_meta line }
    ensures stopped { (h next : Machine) (action : Action) (line : ℕ) (said : Transcript) → Hears h (Asked action) said next
        → said.answers ≡ StoppedMeta line ∷ [] → HasNothing next × (next.mode ≡ Stopped) × (line ≡ lowest next.bad_meta) }
    ensures nothing { (h later : Machine) (inputs : List Input) (said : Transcript) → HasNothing h → Run h inputs said later → HasNothing later }
    ensures named { (h next : Machine) (action : Action) (said : Transcript) → (meaning action).needs ≡ Usable → h.mode ≡ Stopped
        → Hears h (Asked action) said next → said.answers ≡ RefusedMeta (lowest h.bad_meta) ∷ [] }
{}

/// No more lasts than that: a store that is not synced may be lost, though no later command changes anything. Of a machine as a
/// restart left it, where the pages exist and no bad line is stored over whole, a run leads back to where it began.
pub fn what_is_not_synced_may_go()
    ensures { (geo : Geometry) (image : Image) (stored : Machine) (offset : ℕ) (bytes : List ℕ)
        → touches_absent offset (length bytes) (presence_read geo image.word) ≡ false
        → ((n : ℕ) → covers offset (length bytes) n ≡ true → image.is_bad (volume_line geo n) ≡ false)
        → Does (reading geo image) (VStore offset bytes) stored
        → (said : Transcript) × Run stored (Asked Cut ∷ Asked (Restart Firsts) ∷ []) said (reading geo image) }
{}

/// Which files there are, by name and page count, stays, whatever is cut, fails, and is restarted or recovered, until a command that
/// changes them is begun; or nothing is there, since metadata is bad. A change that was answered `ok` is there at once and lasts
/// likewise. One that was stopped is done as a whole or not at all, and which of the two lasts once the storage is mounted.
pub fn what_files_there_are_stays()
    ensures listed { (h next : Machine) (files : List FileEntry) (said : Transcript) → Hears h (Asked ListFiles) said next
        → said.answers ≡ Files files ∷ [] → files ≡ files_listed h }
    ensures stays { (h : Machine) → LeavesFiles h.interrupted → FilesLast h (files_listed h) }
    ensures done { (h next : Machine) (action : Action) → Does h action next → changes_files action ≡ true → FilesLast next (files_after h action) }
    ensures stopped { (h next : Machine) (action : Action) → BreaksOff h action next → changes_files action ≡ true
        → FilesSettle next (files_listed h) (files_after h action) }
    ensures whole { (h end : Machine) (before after : List Input) (action : Action) (said : Transcript) → IsComplete h
        → changes_files action ≡ true → Run h (before ++ Asked action ∷ after) said end → FilesThrough h before action after said end }
{}

/// An atomic write of blocks or of a file, a discard of blocks or pages, a scar or a clear that was stopped is done as a whole or not at
/// all. The next recovery leaves the storage as before, or as it was to be, where it is done. So does the next restart, where each word
/// of a page shows a value that it had since it was last durable, or where bytes are kept, each byte that of one; the last one where
/// that was asked for: what was written shows as it was written, and what was discarded as zeros.
pub fn a_stopped_write_is_whole_or_not()
    ensures recovered { (write : WholeWrite) (h next later : Machine) (said : Transcript) → BreaksOffFor h (command write) next
        → Hears next (Asked Recover) said later → AreMounted said.answers → HasEither write h later }
    ensures restarted { (write : WholeWrite) (h next later : Machine) (choice : Choice) (said : Transcript) → BreaksOffFor h (command write) next
        → Hears next (Asked (Restart choice)) said later → AreMounted said.answers ⊎ IsStopped said.answers → ShowsEither choice write h later }
    ensures shown { (h next later : Machine) (name : List ℕ) (i : ℕ) (before after : List Span) (range : Span) (bytes : List ℕ) (choice : Choice)
        → BringsBytes (FMulti name (before ++ range ∷ after) bytes) → BreaksOff h (FMulti name (before ++ range ∷ after) bytes) next
        → ShowsFiles choice (written_together name (before ++ range ∷ after) bytes h.files) later → is_among range.start range.len i ≡ true
        → byte_at_place later (of_file name i) ≡ Some (slice_index bytes (total_of before + (i - range.start))) }
    ensures shown_alone { (h next later : Machine) (name : List ℕ) (offset i : ℕ) (bytes : List ℕ) (choice : Choice)
        → BringsBytes (FAtomic name offset bytes) → BreaksOff h (FAtomic name offset bytes) next
        → ShowsFiles choice (written_together name (record { start = offset; len = length bytes } ∷ []) bytes h.files) later → is_among offset (length bytes) i ≡ true
        → byte_at_place later (of_file name i) ≡ Some (slice_index bytes (i - offset)) }
    ensures shown_holes { (later : Machine) (name : List ℕ) (page count i : ℕ) (files : List File) (choice : Choice)
        → ShowsFiles choice (discarded_in name page count files) later → is_among page count (i / 4096) ≡ true
        → byte_at_place later (of_file name i) ≡ Some 0 }
    ensures shown_blocks { (h next later : Machine) (block i : ℕ) (bytes : List ℕ) → BreaksOff h (BAtomic block bytes) next
        → later.blocks ≡ write block bytes h.blocks → is_among block (length bytes / 512) (i / 512) ≡ true
        → byte_at_place later (of_blocks i) ≡ Some (slice_index bytes (i - 512 * block)) }
    ensures shown_discarded { (later : Machine) (page count i : ℕ) (pages : List Page) (choice : Choice)
        → ShowsVolume choice (discard page count pages) later → is_among page count (i / 4096) ≡ true
        → byte_at_place later (of_volume i) ≡ Some 0 }
{}

/// Media errors of files are reported once, in the order in which they came, and are found again at a mount. While nothing is mounted again,
/// what is told, and then what is still to be told, is what was to be told and then what came. One event comes of each line of a
/// file that goes bad, and no other; a bad line that another name gets is no news. In mode On `event` tells the oldest, where there is one.
/// After a mount there is an event of each bad line of the files that there are then.
pub fn media_errors_are_told_once()
    ensures told { (h later : Machine) (inputs : List Input) (said : Transcript) → Run h inputs said later → NoneMounts inputs said.answers
        → TellsInOrder h said.answers later }
    ensures oldest { (h next : Machine) (said : Transcript) → h.mode ≡ On → Hears h (Asked NextEvent) said next
        → TellsOldest h.events said.answers next.events × (next ≡ record h { events = next.events }) }
    ensures waits { (h next : Machine) (said : Transcript) → h.mode ≢ On → Hears h (Asked NextEvent) said next
        → (next ≡ h) × (all_told said.answers ≡ []) }
    ensures noted { (h next : Machine) (action : Action) (said : Transcript) → Hears h (Asked action) said next → changes_files action ≡ false
        → (Mounts action said.answers → ⊥) → TellsLines h said.answers next }
    ensures renamed { (h next : Machine) (action : Action) (said : Transcript) → Hears h (Asked action) said next → changes_files action ≡ true
        → next.events ≡ h.events }
    ensures found { (h next : Machine) (action : Action) (said : Transcript) → Hears h (Asked action) said next → Mounts action said.answers
        → FindsAnew next }
{}

/// The commands and their answers say which handle is of which file: the mappings of each later state are those, but for the
/// bytes of copies. What a command makes durable is the same whatever copies have. Each mapping lies within its file.
pub fn what_is_mapped_is_told()
    ensures within { (h later : Machine) (inputs : List Input) (said : Transcript) → AreWithin h.mappings h.files → Run h inputs said later
        → AreWithin later.mappings later.files }
    ensures told { (h later : Machine) (inputs : List Input) (said : Transcript) → Run h inputs said later
        → but_for_copies later.mappings ≡ but_for_copies (mappings_after h.mappings (exchanges inputs said.answers)) }
    ensures blind { (geo : Geometry) (one other : List Mapping) (action : Action) → but_for_copies one ≡ but_for_copies other
        → made_durable geo one action ≡ made_durable geo other action }
{}

/// A machine that is read from an image is in such a state, whatever is armed, and no run leaves them.
pub fn runs_come_to_whole_states()
    ensures read { (geo : Geometry) (image : Image) (h : Machine)
        → h ≡ record (reading geo image) { cut_armed = h.cut_armed; fail_armed = h.fail_armed } → IsComplete h }
    ensures runs { (h later : Machine) (inputs : List Input) (said : Transcript) → IsComplete h → Run h inputs said later → IsComplete later }
{}
