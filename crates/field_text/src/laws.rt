ghost use Rattle.std.specs.Prelude.{◌≡◌, ◌∷◌, [], Some, None, codes, false, filter, map, replicate, true};
ghost use Rattle.std.specs.List.{range_with_len};
ghost use Rattle.field_text.specs.Cut.{halves_of};
ghost use Rattle.field_text.specs.Number.{number_of};
ghost use Rattle.field_text.specs.Word.{is_blank, is_word};

/// Worked cases.
pub fn fields_are_worked()
    ensures first_mark { halves_of 44 (codes "a,b,c") ≡ Some (record { before = codes "a"; behind = codes "b,c" }) }
    ensures no_mark { halves_of 44 (codes "abc") ≡ None }
    ensures mark_alone { halves_of 44 (codes ",") ≡ Some (record { before = []; behind = [] }) }
    ensures other_mark { halves_of 59 (codes "a,b;c") ≡ Some (record { before = codes "a,b"; behind = codes "c" }) }
    ensures nothing { halves_of 44 [] ≡ None }
    ensures numbers { map number_of (codes "0" ∷ codes "007" ∷ codes "18446744073709551615" ∷ [])
        ≡ Some 0 ∷ Some 7 ∷ Some 18446744073709551615 ∷ [] }
    ensures no_numbers { map number_of
        (codes "18446744073709551616" ∷ codes "" ∷ codes "+1" ∷ codes "1 " ∷ codes "0x1" ∷ codes "1_0" ∷ [])
        ≡ None ∷ None ∷ None ∷ None ∷ None ∷ None ∷ [] }
    ensures blanks { filter is_blank (range_with_len 0 256) ≡ 9 ∷ 10 ∷ 13 ∷ 32 ∷ [] }
    ensures words { map is_word ([] ∷ replicate 1 97 ∷ replicate 64 97 ∷ replicate 65 97 ∷ codes "u u" ∷ [])
        ≡ false ∷ true ∷ true ∷ false ∷ false ∷ [] }
{}
