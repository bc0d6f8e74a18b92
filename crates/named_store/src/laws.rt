ghost use Rattle.std.specs.Prelude.{◌≡◌, ◌≤◌, ◌+◌, ℕ, List, [], ◌∷◌, codes, length, replicate, slice_get, Some};
ghost use Rattle.sqlite.specs.Effect.{Database};
ghost use Rattle.roster_sql.specs.Examples.{entry_of};
ghost use Rattle.roster_sql.specs.Roster.{BondRecord};
ghost use Rattle.roster_sql.specs.declared.entry.Entry.{Entry};
ghost use Rattle.token_file.specs.Examples.{event_token, time_token};
ghost use Rattle.token_file.specs.declared.token.Kind.{Kind};
ghost use Rattle.token_names.specs.Names.{name_of};
ghost use Rattle.token_names.specs.Seed.{seed_of};
ghost use Rattle.named_store.specs.Entries.{entries_of, entry_under};
ghost use Rattle.named_store.specs.Examples.{known, retired, two_new};
ghost use Rattle.named_store.specs.Floors.{raised_floor, seeded_floors};
ghost use Rattle.named_store.specs.Looked.{AreAllSeated, IsFirstNew};
ghost use Rattle.named_store.specs.Opened.{HasNames, HasNoRoom};
ghost use Rattle.named_store.specs.Seating.{AreDistinct, AreNew, AreSeatsOf, has_name, name_at, new_entries, new_places, rows_after};

/// Worked cases, and counterexamples: seats of names, a row that no name has, and two new names.
pub fn seats_are_worked()
    ensures other_order { AreSeatsOf retired known (2 ∷ 0 ∷ []) }
    ensures swapped { AreSeatsOf retired known (0 ∷ 2 ∷ []) → ⊥ }
    ensures second_missing { AreSeatsOf retired known (2 ∷ []) → ⊥ }
    ensures of_the_retired { AreSeatsOf retired known (2 ∷ 1 ∷ []) → ⊥ }
    ensures behind_the_others { AreSeatsOf retired two_new (3 ∷ 0 ∷ 4 ∷ []) }
    ensures new_swapped { AreSeatsOf retired two_new (4 ∷ 0 ∷ 3 ∷ []) → ⊥ }
    ensures both_in_one { AreSeatsOf retired two_new (3 ∷ 0 ∷ 3 ∷ []) → ⊥ }
    ensures new_ones { AreNew retired two_new (0 ∷ 2 ∷ []) (entry_of 8 1 ∷ entry_of 9 1 ∷ []) }
    ensures second_place { AreNew retired two_new (0 ∷ 1 ∷ []) (entry_of 8 1 ∷ entry_of 9 1 ∷ []) → ⊥ }
    ensures second_entry { AreNew retired two_new (0 ∷ 2 ∷ []) (entry_of 8 1 ∷ entry_of 9 2 ∷ []) → ⊥ }
    ensures no_new_ones { AreNew retired known [] [] }
    ensures another_seed { AreNew retired (entry_of 1 7 ∷ []) [] [] }
    ensures distinct { AreDistinct two_new }
    ensures twice { AreDistinct (entry_of 8 1 ∷ entry_of 9 1 ∷ entry_of 9 2 ∷ []) → ⊥ }
{}

/// Worked cases, and counterexamples: the first token without a row, and tokens that all have one.
pub fn looks_are_worked()
    ensures first { IsFirstNew retired two_new 0 }
    ensures behind_a_known_one { IsFirstNew retired (entry_of 5 1 ∷ entry_of 8 1 ∷ []) 1 }
    ensures a_known_one { IsFirstNew retired two_new 1 → ⊥ }
    ensures second { IsFirstNew retired two_new 2 → ⊥ }
    ensures past_the_last { IsFirstNew retired known 2 → ⊥ }
    ensures other_order { AreAllSeated retired known (2 ∷ 0 ∷ []) }
    ensures swapped { AreAllSeated retired known (0 ∷ 2 ∷ []) → ⊥ }
    ensures with_new_ones { AreAllSeated retired two_new (3 ∷ 0 ∷ 4 ∷ []) → ⊥ }
    ensures twice { AreAllSeated (entry_of 8 1 ∷ entry_of 8 2 ∷ []) (entry_of 8 1 ∷ []) (0 ∷ []) → ⊥ }
{}

/// Worked cases, and counterexamples: a store has no room for more than 65,536 rows.
pub fn full_stores_are_worked()
    ensures one_beyond { (db : Database) (names roster : List Entry) (own : BondRecord) → HasNames db 1 roster own
        → length (rows_after roster names) ≡ 65537 → HasNoRoom db 1 names }
    ensures last_one { (db : Database) (names : List Entry) (full : HasNoRoom db 1 names)
        → length (rows_after full.roster names) ≡ 65536 → ⊥ }
{}

/// Worked cases: the entries of two tokens, in their order, and of one device with two users.
pub fn entries_are_worked()
    ensures entry { (salt : List ℕ) → entry_under salt (event_token (codes "u"))
        ≡ record { name = name_of salt (event_token (codes "u")); seed = seed_of salt (event_token (codes "u")) } }
    ensures in_order { (salt : List ℕ) → entries_of salt (event_token (codes "u") ∷ time_token Kind.Time30 ∷ [])
        ≡ entry_under salt (event_token (codes "u")) ∷ entry_under salt (time_token Kind.Time30) ∷ [] }
    ensures no_rows { (salt : List ℕ) → entries_of salt [] ≡ [] }
    ensures one_device { (salt : List ℕ) →
        (entry_under salt (event_token (codes "u"))).seed ≡ (entry_under salt (event_token (codes "v"))).seed }
{}

/// Worked cases: floors of new tokens.
pub fn floors_are_worked()
    ensures own { raised_floor retired (20 ∷ 30 ∷ 40 ∷ []) (replicate 16 9) 25 ≡ 25 }
    ensures of_the_seed { raised_floor retired (20 ∷ 30 ∷ 40 ∷ []) (replicate 16 1) 25 ≡ 40 }
    ensures own_is_greater { raised_floor retired (20 ∷ 30 ∷ 40 ∷ []) (replicate 16 1) 45 ≡ 45 }
    ensures of_a_former_row { raised_floor retired (20 ∷ 30 ∷ 10 ∷ []) (replicate 16 1) 15 ≡ 20 }
    ensures of_each { seeded_floors retired (20 ∷ 30 ∷ 40 ∷ []) two_new (25 ∷ 0 ∷ 50 ∷ []) (0 ∷ 2 ∷ []) ≡ 40 ∷ 50 ∷ [] }
    ensures no_places { seeded_floors retired (20 ∷ 30 ∷ 40 ∷ []) two_new (25 ∷ 0 ∷ 50 ∷ []) [] ≡ [] }
{}

/// A new token's floor is at least its own one, and at least the floor of each row with its seed.
pub fn floors_are_kept()
    ensures own { (roster : List Entry) (held : List ℕ) (seed : List ℕ) (floor : ℕ)
        → floor ≤ raised_floor roster held seed floor }
    ensures of_each_row { (roster : List Entry) (held : List ℕ) (seed : List ℕ) (floor row next : ℕ) (e : Entry)
        → slice_get roster row ≡ Some e → slice_get held row ≡ Some next → e.seed ≡ seed
        → next ≤ raised_floor roster held seed floor }
{}
