// Laws of mounts and of what they find, each a function without a body.
ghost use Rattle.std.specs.Prelude.{◌≡◌, ◌≤◌, ◌<◌, ℕ, Bool, [], false, IsTrue, None, Some};
ghost use Rattle.line_device.specs.Medium.{Medium, IsSound, Survivors, Waits, WritesBack, Weakens, poisoned, with_at};
ghost use Rattle.line_device.specs.declared.line.Choice.{Choice};
ghost use Rattle.line_words.specs.Words.{WritesBackBeside, WritesBackOutside};
ghost use Rattle.nvm_model.specs.Numbered.{list_from};
ghost use Rattle.nvm_model.specs.Page.{Page};
ghost use Rattle.nvm_model.specs.Storage.Block.{Absent};
ghost use Rattle.word_tables.specs.declared.geometry.Geometry.{Geometry};
ghost use Rattle.word_tables.specs.Bounds.{IsValid};
ghost use Rattle.word_tables.specs.Layout.{total_lines};
ghost use Rattle.word_tables.specs.Superblock.{superblock_word};
ghost use Rattle.block_device.specs.Images.{EachReads, KeepsReads};
ghost use Rattle.block_device.specs.Object.{HasGoodMetadata, HasStrongMetadata};
ghost use Rattle.pm_volume.specs.Images.{EachReadsPages};
ghost use Rattle.file_journal.specs.Standing.{EachReadsFiles};
ghost use Rattle.recovery.specs.Findings.{geometry_told, early_finding, first_finding};
ghost use Rattle.word_log.specs.Mount.Finding.{bad_line, wrong_word};
ghost use Rattle.recovery.specs.Fresh.{HasSuperblock, IsFresh};
ghost use Rattle.recovery.specs.Examples.{smallest, nowhere, only, small_device, superblock_but};
ghost use Rattle.recovery.specs.Mounting.{HasDurableBlocks, IsMountable, IsOfLogs, GoesOn};

/// A mount that was cut or refused can be begun again, after a restart or before one.
pub fn mounts_again()
    ensures durable { (m : Medium) → IsSound m → IsMountable m → HasDurableBlocks m }
    ensures mounted { (old new : Medium) → IsMountable old → WritesBackOutside (IsOfLogs (geometry_told old)) old new
        → (early_finding old ≡ None → KeepsReads (geometry_told old) old new) → GoesOn old new }
    ensures restarted { (unit : ℕ) (choice : Choice) (old new : Medium) → IsSound old → IsMountable old → Survivors unit choice old new → GoesOn old new }
    ensures waited { (unit : ℕ) (old new : Medium) → IsMountable old → Waits unit old new → GoesOn old new }
{}

/// Findings of small devices: none of a fresh one, and of others what was changed.
pub fn findings_of_small_devices()
    ensures fresh { first_finding (small_device nowhere nowhere (superblock_word smallest)) ≡ None }
    ensures word { first_finding (small_device nowhere nowhere (superblock_but 3 1)) ≡ Some (wrong_word 3) }
    ensures first { first_finding (small_device (only 0) nowhere (superblock_word smallest)) ≡ Some (bad_line 0) }
    ensures bad { first_finding (small_device (only 2_303) nowhere (superblock_word smallest)) ≡ Some (bad_line 2_303) }
    ensures weak { first_finding (small_device nowhere (only 2_303) (superblock_word smallest)) ≡ Some (wrong_word 18_424) }
    ensures log { first_finding (small_device nowhere nowhere (superblock_but 8 2)) ≡ Some (wrong_word 8) }
    ensures map { first_finding (small_device nowhere nowhere (superblock_but 144 74)) ≡ Some (wrong_word 144) }
    ensures volume_log { first_finding (small_device nowhere nowhere (superblock_but 152 2)) ≡ Some (wrong_word 152) }
    ensures presence { first_finding (small_device nowhere nowhere (superblock_but 673 2)) ≡ Some (wrong_word 673) }
    ensures file_log { first_finding (small_device nowhere nowhere (superblock_but 680 2)) ≡ Some (wrong_word 680) }
    ensures inode { first_finding (small_device nowhere nowhere (superblock_but 1_232 1)) ≡ Some (wrong_word 1_233) }
    ensures page { first_finding (small_device nowhere nowhere (superblock_but 1_744 1)) ≡ Some (wrong_word 1_744) }
    ensures both { first_finding (small_device nowhere nowhere (with_at (superblock_but 144 74) 152 2)) ≡ Some (wrong_word 152) }
{}

/// A first line that is the superblock of some sizes has them, and nothing is found of a device of these sizes before
/// its log. Where nothing is found, it is one.
pub fn superblocks_are_found()
    ensures told { (geo : Geometry) (m : Medium) → IsSound m → 1 ≤ m.count → m.is_bad 0 ≡ false → HasSuperblock geo m → IsValid geo
        → geometry_told m ≡ geo }
    ensures right { (geo : Geometry) (m : Medium) → IsSound m → IsValid geo → m.count ≡ total_lines geo → HasGoodMetadata geo m
        → HasStrongMetadata geo m → HasSuperblock geo m → early_finding m ≡ None }
    ensures found { (m : Medium) → early_finding m ≡ None → IsMountable m → HasSuperblock (geometry_told m) m }
{}

/// A superblock stays where other lines are changed or become bad, and in a cut.
pub fn superblocks_stay()
    ensures outside { (geo : Geometry) (inside : ℕ → Bool) (old new : Medium) → WritesBackOutside (λ p. IsTrue (inside p)) old new
        → ((p : ℕ) → p < 8 → inside p ≡ false) → HasSuperblock geo old → HasSuperblock geo new }
    ensures beside { (geo : Geometry) (lines : ℕ → Bool) (old new : Medium) → WritesBackBeside (λ n. IsTrue (lines n)) old new
        → lines 0 ≡ false → HasSuperblock geo old → HasSuperblock geo new }
    ensures poisoned { (geo : Geometry) (line : ℕ) (old new : Medium) → WritesBack (poisoned old line) new → HasSuperblock geo old
        → HasSuperblock geo new }
    ensures weakened { (geo : Geometry) (line : ℕ) (old new : Medium) → Weakens line old new → HasSuperblock geo old
        → HasSuperblock geo new }
    ensures restarted { (geo : Geometry) (unit : ℕ) (choice : Choice) (old new : Medium) → IsSound old → 1 ≤ old.count
        → Survivors unit choice old new → HasSuperblock geo old → HasSuperblock geo new }
    ensures waited { (geo : Geometry) (unit : ℕ) (old new : Medium) → Waits unit old new → HasSuperblock geo old → HasSuperblock geo new }
{}

/// A fresh device is in order, and has no blocks, no pages and no files.
pub fn fresh_devices_are_in_order()
    ensures told { (geo : Geometry) (m : Medium) → IsSound m → IsFresh geo m → geometry_told m ≡ geo }
    ensures mountable { (geo : Geometry) (m : Medium) → IsSound m → IsFresh geo m → IsMountable m }
    ensures early { (geo : Geometry) (m : Medium) → IsSound m → IsFresh geo m → early_finding m ≡ None }
    ensures right { (geo : Geometry) (m : Medium) → IsSound m → IsFresh geo m → first_finding m ≡ None }
    ensures blocks { (geo : Geometry) (m : Medium) → IsFresh geo m → EachReads geo m (λ bs. bs ≡ list_from (λ _. Absent) 0 geo.blocks) }
    ensures pages { (geo : Geometry) (m : Medium) → IsFresh geo m
        → EachReadsPages geo m (λ ps. ps ≡ list_from (λ _. Page.Absent) 0 geo.vpages) }
    ensures files { (geo : Geometry) (m : Medium) → IsFresh geo m → EachReadsFiles geo m (λ files. files ≡ []) }
{}
