// Laws of files listed in order of name, each a function without a body.
ghost use Rattle.std.specs.Prelude.{◌≡◌, ◌↔◌, ℕ, true, List, [], ◌∷◌, Option, Some, None, codes, count_by, is_some, length, slice_get, slice_set};
ghost use Rattle.std.specs.List.{Contains};
ghost use Rattle.nvm_model.specs.Listing.{AreApart, MayTake, change_file, file_of, in_order, put_file, rename_file, rises, without_file};

/// The files in slots are listed, each once and no other, and their names rise.
pub fn the_files_in_slots_are_listed<F>()
    ensures rises { (name : F → List ℕ) (slots : List (Option F)) → AreApart name slots → rises name (in_order name slots) ≡ true }
    ensures files { (name : F → List ℕ) (slots : List (Option F)) (file : F) → Contains (in_order name slots) file ↔ Contains slots (Some file) }
    ensures once { (name : F → List ℕ) (slots : List (Option F)) → length (in_order name slots) ≡ count_by is_some slots }
{}

/// A change of one slot is a change of its file in the list: it is put, taken out, put elsewhere or changed.
pub fn slots_and_lists_keep_step<F>()
    ensures created { (name : F → List ℕ) (slots : List (Option F)) (i : ℕ) (file : F) → slice_get slots i ≡ Some None
        → MayTake name slots i (name file) → in_order name (slice_set slots i (Some file)) ≡ put_file name file (in_order name slots) }
    ensures deleted { (name : F → List ℕ) (slots : List (Option F)) (i : ℕ) (file : F) → slice_get slots i ≡ Some (Some file)
        → MayTake name slots i (name file) → in_order name (slice_set slots i None) ≡ without_file name (name file) (in_order name slots) }
    ensures renamed { (name : F → List ℕ) (slots : List (Option F)) (i : ℕ) (file : F) (f : F → F) → slice_get slots i ≡ Some (Some file)
        → MayTake name slots i (name file) → MayTake name slots i (name (f file))
        → in_order name (slice_set slots i (Some (f file))) ≡ rename_file name (name file) f (in_order name slots) }
    ensures changed { (name : F → List ℕ) (slots : List (Option F)) (i : ℕ) (file : F) (f : F → F) → slice_get slots i ≡ Some (Some file)
        → MayTake name slots i (name file) → name (f file) ≡ name file
        → in_order name (slice_set slots i (Some (f file))) ≡ change_file name (name file) f (in_order name slots) }
{}

/// A listed file is found by its name, and no other name finds one.
pub fn listed_files_are_found<F>()
    ensures found { (name : F → List ℕ) (slots : List (Option F)) (i : ℕ) (file : F) → slice_get slots i ≡ Some (Some file)
        → MayTake name slots i (name file) → file_of name (name file) (in_order name slots) ≡ Some file }
    ensures missing { (name : F → List ℕ) (slots : List (Option F)) (text : List ℕ)
        → ((i : ℕ) (file : F) → slice_get slots i ≡ Some (Some file) → name file ≡ text → ⊥)
        → file_of name text (in_order name slots) ≡ None }
{}

/// How some names are ordered.
pub fn orders_of_names()
    ensures start { in_order (λ name. name) (Some (codes "b") ∷ None ∷ Some (codes "a.b") ∷ Some (codes "a") ∷ [])
        ≡ codes "a" ∷ codes "a.b" ∷ codes "b" ∷ [] }
    ensures last_byte { in_order (λ name. name) (Some (codes "aa") ∷ Some (codes "a_") ∷ Some (codes "a0") ∷ Some (codes "a.") ∷ Some (codes "a-") ∷ [])
        ≡ codes "a-" ∷ codes "a." ∷ codes "a0" ∷ codes "a_" ∷ codes "aa" ∷ [] }
    ensures digits { in_order (λ name. name) (Some (codes "2") ∷ Some (codes "10") ∷ []) ≡ codes "10" ∷ codes "2" ∷ [] }
{}
