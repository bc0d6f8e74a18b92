ghost use Rattle.std.specs.Prelude.{[], ◌∷◌, codes};
ghost use Rattle.sqlite.specs.Effect.{Database};
ghost use Rattle.floor_sql.specs.Stored.{version_row};
ghost use Rattle.roster_sql.specs.Examples.{EnrolsTwo, entry_of, one_token, other_bond, other_entries, self_of, small_bond, store_of, three_drifts, three_entries, three_floors, three_tokens, trees_with, two_drifts, two_rows};
ghost use Rattle.roster_sql.specs.Opened.{OpensNamed};
ghost use Rattle.roster_sql.specs.Roster.{HoldsBond, HoldsRoster, bond_row, entry_row};

/// Counterexamples: a roster has the entry of each token, and a bond has each of its parts.
pub fn rosters_can_be_broken()
    ensures two { HoldsRoster (trees_with two_rows []) (entry_of 1 2 ∷ entry_of 3 4 ∷ []) }
    ensures second_missing { HoldsRoster (trees_with (entry_row 0 (entry_of 1 2) ∷ []) [])
        (entry_of 1 2 ∷ entry_of 3 4 ∷ []) → ⊥ }
    ensures second_of_another_name { HoldsRoster (trees_with two_rows []) (entry_of 1 2 ∷ entry_of 5 4 ∷ []) → ⊥ }
    ensures first_of_another_seed { HoldsRoster (trees_with two_rows []) (entry_of 1 5 ∷ entry_of 3 4 ∷ []) → ⊥ }
    ensures bond { HoldsBond (trees_with [] (bond_row small_bond ∷ [])) small_bond }
    ensures no_bond { HoldsBond (trees_with [] []) small_bond → ⊥ }
    ensures another_word { HoldsBond (trees_with [] (bond_row small_bond ∷ []))
        (record small_bond { names = codes "another-word" }) → ⊥ }
    ensures another_life { HoldsBond (trees_with [] (bond_row small_bond ∷ []))
        (record small_bond { life = codes "12" }) → ⊥ }
    ensures more_members { HoldsBond (trees_with [] (bond_row small_bond ∷ []))
        (record small_bond { members = 5 }) → ⊥ }
{}

/// Counterexamples: a new store has its node, its boot, its floors, its entries and its bond.
pub fn openings_can_be_broken()
    ensures opens { (old : Database) → OpensNamed 1 4 (9 ∷ []) (entry_of 1 2 ∷ []) small_bond old one_token }
    ensures another_node { (old : Database) → OpensNamed 2 4 (9 ∷ []) (entry_of 1 2 ∷ []) small_bond old one_token → ⊥ }
    ensures another_boot { (old : Database) → OpensNamed 1 0 (9 ∷ []) (entry_of 1 2 ∷ []) small_bond old one_token → ⊥ }
    ensures another_floor { (old : Database)
        → OpensNamed 1 4 (5 ∷ []) (entry_of 1 2 ∷ []) small_bond old one_token → ⊥ }
    ensures no_entry { (old : Database) → OpensNamed 1 4 (9 ∷ []) [] small_bond old one_token → ⊥ }
    ensures another_bond { (old : Database) → OpensNamed 1 4 (9 ∷ []) (entry_of 1 2 ∷ []) other_bond old one_token → ⊥ }
{}

/// Counterexamples: two tokens that are enrolled after one have their own floors and entries, and the rest stays.
pub fn enrolments_can_be_broken()
    ensures two { EnrolsTwo 1 1 three_tokens }
    ensures another_node { EnrolsTwo 2 1 three_tokens → ⊥ }
    ensures another_number { EnrolsTwo 1 2 three_tokens → ⊥ }
    ensures first_floor_for_both { EnrolsTwo 1 1
        (store_of (self_of 3) (three_floors 9 5 5) three_drifts three_entries small_bond) → ⊥ }
    ensures former_floor_changed { EnrolsTwo 1 1
        (store_of (self_of 3) (three_floors 5 5 6) three_drifts three_entries small_bond) → ⊥ }
    ensures second_drift_missing { EnrolsTwo 1 1
        (store_of (self_of 3) (three_floors 9 5 6) two_drifts three_entries small_bond) → ⊥ }
    ensures tokens_stay { EnrolsTwo 1 1
        (store_of (self_of 1) (three_floors 9 5 6) three_drifts three_entries small_bond) → ⊥ }
    ensures another_boot { EnrolsTwo 1 1
        (store_of (version_row 3 1 3 0) (three_floors 9 5 6) three_drifts three_entries small_bond) → ⊥ }
    ensures second_entry_missing { EnrolsTwo 1 1
        (store_of (self_of 3) (three_floors 9 5 6) three_drifts two_rows small_bond) → ⊥ }
    ensures former_entry_changed { EnrolsTwo 1 1
        (store_of (self_of 3) (three_floors 9 5 6) three_drifts other_entries small_bond) → ⊥ }
    ensures another_bond { EnrolsTwo 1 1
        (store_of (self_of 3) (three_floors 9 5 6) three_drifts three_entries other_bond) → ⊥ }
{}
