//! The laws of the rows that stay, and the worked cases and counterexamples of their definitions.

ghost use Rattle.std.specs.Prelude.{◌≡◌, ◌≤◌, ℕ, List, [], ◌∷◌, map, replicate, slice_get, Some, None};
ghost use Rattle.floor_store.specs.Content.{opening_content_at};
ghost use Rattle.floor_store.specs.Examples.{content_at, free_row, granted_row, pass};
ghost use Rattle.floor_store.specs.Records.{PassRecord};
ghost use Rattle.floor_sql.specs.Staged.{passes_in, with_puts};
ghost use Rattle.named_store.specs.Floors.{raised_floor};
ghost use Rattle.retired_rows.specs.Examples.{enrolled_by, named_row, put_of_pass, put_of_row, retired_row, three_kept, two_kept};
ghost use Rattle.retired_rows.specs.Renewed.{place_of, puts_of, renewed_at, renumbered, row_puts};
ghost use Rattle.retired_rows.specs.Staying.{entries_in, floors_in, greatest, named_rows, staying};
ghost use Rattle.retired_rows.specs.declared.row.NumberedRow.{NumberedRow};

/// The greatest floor of each seed stays.
pub fn floors_stay()
    ensures { (rows : List NumberedRow) (seed : List ℕ) → greatest (staying rows) seed ≡ greatest rows seed }
{}

/// No return is lower: a token is enrolled at the same floor as if no row was dropped. The floor is at least that of
/// each row with its seed, also of a dropped one.
pub fn returns_are_not_lower()
    ensures same { (rows : List NumberedRow) (seed : List ℕ) (floor : ℕ)
        → raised_floor (entries_in (staying rows)) (floors_in (staying rows)) seed floor
        ≡ raised_floor (entries_in rows) (floors_in rows) seed floor }
    ensures of_each_row { (rows : List NumberedRow) (place floor : ℕ) (row : NumberedRow)
        → slice_get rows place ≡ Some row
        → row.row.next ≤ raised_floor (entries_in (staying rows)) (floors_in (staying rows)) row.entry.seed floor }
{}

/// The rows that the users file has stay, in order. The rows that stay all stay again.
pub fn named_rows_stay()
    ensures named { (rows : List NumberedRow) → named_rows (staying rows) ≡ named_rows rows }
    ensures again { (rows : List NumberedRow) → staying (staying rows) ≡ staying rows }
{}

/// A new store holds the kept rows after the puts, at its boot, and the passes of these rows with their new tokens.
pub fn renewed_content_is()
    ensures content { (boot : ℕ) (kept : List NumberedRow) (passes : List PassRecord)
        → with_puts (opening_content_at boot (floors_in kept)) (puts_of kept passes) ≡ renewed_at boot kept passes }
    ensures passes { (kept : List NumberedRow) (passes : List PassRecord)
        → passes_in (puts_of kept passes) ≡ renumbered kept passes }
{}

/// Worked cases. `named_row` and `retired_row` take the number of a row, its seed and its floor.
pub fn staying_rows_are_worked()
    ensures no_rows { staying [] ≡ [] }
    ensures renamed { staying (retired_row 0 1 20 ∷ named_row 1 1 20 ∷ []) ≡ named_row 1 1 20 ∷ [] }
    ensures renamed_and_used { staying (named_row 0 1 30 ∷ retired_row 1 1 20 ∷ []) ≡ named_row 0 1 30 ∷ [] }
    ensures retired_alone { staying (retired_row 0 1 20 ∷ []) ≡ retired_row 0 1 20 ∷ [] }
    ensures retired_is_greater { staying (retired_row 0 1 30 ∷ named_row 1 1 20 ∷ [])
        ≡ retired_row 0 1 30 ∷ named_row 1 1 20 ∷ [] }
    ensures other_seed { staying (retired_row 0 1 20 ∷ named_row 1 2 30 ∷ [])
        ≡ retired_row 0 1 20 ∷ named_row 1 2 30 ∷ [] }
    ensures lower_of_two { staying (retired_row 0 1 20 ∷ retired_row 1 1 30 ∷ named_row 2 2 40 ∷ [])
        ≡ retired_row 1 1 30 ∷ named_row 2 2 40 ∷ [] }
    ensures equal_ones { staying (retired_row 0 1 20 ∷ retired_row 1 1 20 ∷ [])
        ≡ retired_row 0 1 20 ∷ retired_row 1 1 20 ∷ [] }
    ensures equal_ones_and_a_named { staying (retired_row 0 1 20 ∷ named_row 1 1 20 ∷ retired_row 2 1 20 ∷ [])
        ≡ named_row 1 1 20 ∷ [] }
    ensures named_is_lower { staying (named_row 0 1 20 ∷ named_row 1 1 30 ∷ retired_row 2 1 40 ∷ [])
        ≡ named_row 0 1 20 ∷ named_row 1 1 30 ∷ retired_row 2 1 40 ∷ [] }
    ensures between { staying (named_row 0 1 20 ∷ retired_row 1 1 10 ∷ retired_row 2 2 5 ∷ [])
        ≡ named_row 0 1 20 ∷ retired_row 2 2 5 ∷ [] }
    ensures greatest_of_two { greatest (retired_row 0 1 30 ∷ named_row 1 1 20 ∷ named_row 2 2 40 ∷ []) (replicate 16 1)
        ≡ Some 30 }
    ensures greatest_of_none { greatest (named_row 0 1 30 ∷ []) (replicate 16 2) ≡ None }
{}

/// Worked cases. A dropped row moves the rows behind it. Its passes are left out, and the others get their new tokens.
pub fn renewals_are_worked()
    ensures places { map (place_of three_kept) (0 ∷ 1 ∷ 2 ∷ 3 ∷ 5 ∷ []) ≡ Some 0 ∷ None ∷ Some 1 ∷ None ∷ Some 2 ∷ [] }
    ensures first_of_two { place_of (named_row 4 1 20 ∷ named_row 4 2 30 ∷ []) 4 ≡ Some 0 }
    ensures passes { renumbered three_kept (pass 5 7 8 4 1 ∷ pass 1 0 0 4 2 ∷ pass 2 3 3 4 3 ∷ pass 5 9 9 4 4 ∷ [])
        ≡ pass 2 7 8 4 1 ∷ pass 1 3 3 4 3 ∷ pass 2 9 9 4 4 ∷ [] }
    ensures no_rows { puts_of [] (pass 5 7 8 4 1 ∷ []) ≡ [] }
    ensures no_passes { puts_of two_kept [] ≡ put_of_row 0 (free_row 20) ∷ put_of_row 1 granted_row ∷ [] }
    ensures puts { puts_of two_kept (pass 3 5 5 4 1 ∷ pass 2 6 6 4 2 ∷ [])
        ≡ put_of_pass granted_row (pass 1 5 5 4 1) ∷ put_of_row 0 (free_row 20) ∷ put_of_row 1 granted_row ∷ [] }
    ensures content { renewed_at 4 two_kept (pass 3 5 5 4 1 ∷ pass 0 6 6 4 2 ∷ pass 2 7 7 4 3 ∷ [])
        ≡ record { rows = free_row 20 ∷ granted_row ∷ []; boot = 4; last = Some (pass 0 6 6 4 2) } }
    ensures no_last { renewed_at 4 two_kept (pass 2 7 7 4 3 ∷ []) ≡ content_at 4 (free_row 20 ∷ granted_row ∷ []) }
{}

/// Counterexamples: each law fails for a minimal list that a weaker rule leaves.
pub fn rules_can_be_broken()
    ensures retired_alone { greatest [] (replicate 16 1) ≡ greatest (retired_row 0 1 20 ∷ []) (replicate 16 1) → ⊥ }
    ensures retired_is_greater { greatest (named_row 1 1 20 ∷ []) (replicate 16 1)
        ≡ greatest (retired_row 0 1 30 ∷ named_row 1 1 20 ∷ []) (replicate 16 1) → ⊥ }
    ensures other_seed { greatest (named_row 1 2 30 ∷ []) (replicate 16 1)
        ≡ greatest (retired_row 0 1 20 ∷ named_row 1 2 30 ∷ []) (replicate 16 1) → ⊥ }
    ensures equal_ones { greatest [] (replicate 16 1)
        ≡ greatest (retired_row 0 1 20 ∷ retired_row 1 1 20 ∷ []) (replicate 16 1) → ⊥ }
    ensures enrolled { enrolled_by (named_row 1 1 20 ∷ []) 1 25
        ≡ enrolled_by (retired_row 0 1 30 ∷ named_row 1 1 20 ∷ []) 1 25 → ⊥ }
    ensures returned { 30 ≤ enrolled_by (named_row 1 1 20 ∷ []) 1 25 → ⊥ }
    ensures named { named_rows (named_row 1 1 30 ∷ []) ≡ named_rows (named_row 0 1 20 ∷ named_row 1 1 30 ∷ []) → ⊥ }
    ensures swapped { named_rows (named_row 1 1 30 ∷ named_row 0 1 20 ∷ [])
        ≡ named_rows (named_row 0 1 20 ∷ named_row 1 1 30 ∷ []) → ⊥ }
    ensures no_puts { with_puts (opening_content_at 4 (floors_in two_kept)) [] ≡ renewed_at 4 two_kept [] → ⊥ }
    ensures no_boot { with_puts (opening_content_at 0 (floors_in two_kept)) (puts_of two_kept [])
        ≡ renewed_at 4 two_kept [] → ⊥ }
    ensures no_passes { passes_in (row_puts two_kept) ≡ renumbered two_kept (pass 3 5 5 4 1 ∷ []) → ⊥ }
    ensures former_token { pass 3 5 5 4 1 ∷ [] ≡ renumbered two_kept (pass 3 5 5 4 1 ∷ []) → ⊥ }
{}
