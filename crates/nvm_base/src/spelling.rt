// Worked spellings, as facts.
ghost use Rattle.std.specs.Prelude.{◌≡◌, [], ◌∷◌, ◌++◌, Some, None, Ok, Err, replicate, codes};
ghost use Rattle.nvm_base.specs.Data.{data_of, data_text, data_within};
ghost use Rattle.nvm_base.specs.Numbers.{number_of};
ghost use Rattle.nvm_base.specs.declared.reading.TextFault.TheVariants.{Bad, TooLong};

/// What some numbers and DATA spell, and how some bytes are printed.
pub fn spellings()
    ensures leading_zeros { number_of (codes "0000000042") ≡ Some 42 }
    ensures greatest { number_of (codes "4294967295") ≡ Some 4294967295 }
    ensures too_great { number_of (codes "4294967296") ≡ None }
    ensures eleven_digits { number_of (codes "00000000001") ≡ None }
    ensures no_digits { number_of [] ≡ None }
    ensures zeros { data_of (codes "00*8") ≡ Some (replicate 8 0) }
    ensures items { data_of (codes "07*3,fF,0a0B") ≡ Some (7 ∷ 7 ∷ 7 ∷ 255 ∷ 10 ∷ 11 ∷ []) }
    ensures no_count { data_of (codes "00*0") ≡ None }
    ensures odd { data_of (codes "000") ≡ None }
    ensures two_pairs_repeated { data_of (codes "0102*3") ≡ None }
    ensures empty_item { data_of (codes "00,,01") ≡ None }
    ensures empty { data_of [] ≡ None }
    ensures much { data_within 65536 (codes "00*4294967295") ≡ Err TooLong }
    ensures much_and_bad { data_within 65536 (codes "00*4294967295,0") ≡ Err Bad }
    ensures run { data_text (replicate 8 0) ≡ codes "00*8" }
    ensures singles { data_text (codes "rec 1") ≡ codes "72,65,63,20,31" }
    ensures runs { data_text (7 ∷ 7 ∷ 255 ∷ 7 ∷ []) ≡ codes "07*2,ff,07" }
    ensures nothing { data_text [] ≡ [] }
{}
