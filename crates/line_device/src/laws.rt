// Laws of what calls do to lines, each a function without a body.
ghost use Rattle.std.specs.Prelude.{◌≡◌, ◌⊎◌, ◌<◌, ◌^◌, ◌↔◌, ℕ, false, List, [], ◌∷◌};
ghost use Rattle.std.specs.Int.{byte_at};
ghost use Rattle.line_device.specs.History.{IsIn, IsPart, IsTorn};
ghost use Rattle.line_device.specs.Medium.{Medium, WritesBack, IsImage, IsBetweenWriteBacks, stored, persisted, cleared, poisoned};

/// A call is its effect between two write-backs. The clauses of the calls say only the second one, since the first comes to
/// the same.
pub fn effects_stand_between_write_backs()
    ensures stored { (line at : ℕ) (bytes : List ℕ) → IsBetweenWriteBacks (λ m. stored m line at bytes) }
    ensures persisted { (line : ℕ) → IsBetweenWriteBacks (λ m. persisted m line) }
    ensures cleared { (line : ℕ) → IsBetweenWriteBacks (λ m. cleared m line) }
    ensures poisoned { (line : ℕ) → IsBetweenWriteBacks (λ m. poisoned m line) }
{}

/// Write-back only takes from what a cut may leave, and a persist of a line that is not weak is write-back.
pub fn write_back_leaves_fewer_images()
    ensures images { (old new : Medium) (image : ℕ → ℕ) → WritesBack old new → IsImage new image → IsImage old image }
    ensures persist { (m : Medium) (line : ℕ) → m.is_weak line ≡ false → WritesBack m (persisted m line) }
{}

/// A word that a cut keeps is torn: each byte is that byte of some value that the word had. So a value that it had is, and what
/// is torn of fewer values is so of more. Of one value only this one is, and of 0 and 1 only these two. For values of 64 bits
/// it speaks of the eight bytes alone.
pub fn a_cut_may_tear_a_word()
    ensures whole { (v : ℕ) (history : List ℕ) → IsIn v history → IsTorn v history }
    ensures fewer { (v : ℕ) (part whole : List ℕ) → IsPart part whole → IsTorn v part → IsTorn v whole }
    ensures one { (v x : ℕ) → IsTorn v (x ∷ []) → v ≡ x }
    ensures gate { (v : ℕ) (history : List ℕ) → ((x : ℕ) → IsIn x history → (x ≡ 0) ⊎ (x ≡ 1)) → IsTorn v history → (v ≡ 0) ⊎ (v ≡ 1) }
    ensures eight { (v : ℕ) (history : List ℕ) → v < 2 ^ 64 → ((x : ℕ) → IsIn x history → x < 2 ^ 64)
        → (IsTorn v history ↔ ((k : ℕ) → k < 8 → (x : ℕ) × IsIn x history × (byte_at k v ≡ byte_at k x))) }
{}
