ghost use Rattle.std.specs.Prelude.{◌≡◌, ℕ, List, [], ◌∷◌, length, map, Some, None, false};
ghost use Rattle.floor_store.specs.Broken.{broken_at, done, failed, store_at};
ghost use Rattle.floor_store.specs.Content.{Content};
ghost use Rattle.floor_store.specs.Examples.{free_row, granted_row, later_row, old_pass, pass, two_rows};
ghost use Rattle.floor_store.specs.Records.{RowRecord};
ghost use Rattle.floor_store.specs.declared.fault.StoreFault.TheVariants.{Disk, Unusable};
ghost use Rattle.seated_store.specs.Broken.{CommitsBelow, Puts7, floors, pass_of, refused, seen, swapped, unswapped, unusable};
ghost use Rattle.seated_store.specs.Places.{HasOwnPass, own_seats};
ghost use Rattle.seated_store.specs.Seated.{SeatedRecord, seated_held};
ghost use Rattle.seated_store.specs.Seats.{AreSeats, IsSeen, pass_above, pass_below, seated_content, seated_rows, token_of};

use floor_store::FloorStore;

/// Worked cases. Rows, passes and contents seen through seats.
pub fn seats_are_worked()
    ensures other_order { seated_rows (2 ∷ 0 ∷ []) (granted_row ∷ later_row ∷ free_row 9 ∷ [])
        ≡ free_row 9 ∷ granted_row ∷ [] }
    ensures swapped_rows { seated_rows (1 ∷ 0 ∷ []) (granted_row ∷ later_row ∷ []) ≡ later_row ∷ granted_row ∷ [] }
    ensures no_seats { seated_rows [] (granted_row ∷ []) ≡ [] }
    ensures no_row { seated_rows (1 ∷ []) (granted_row ∷ []) ≡ free_row 0 ∷ [] }
    ensures tokens { map (token_of (2 ∷ 0 ∷ [])) (0 ∷ 1 ∷ 2 ∷ 3 ∷ []) ≡ Some 1 ∷ None ∷ Some 0 ∷ None ∷ [] }
    ensures passes_above { map (pass_above (2 ∷ 0 ∷ [])) (pass 2 5 6 4 8 ∷ pass 0 5 6 4 8 ∷ pass 1 5 6 4 8 ∷ [])
        ≡ Some (pass 0 5 6 4 8) ∷ Some (pass 1 5 6 4 8) ∷ None ∷ [] }
    ensures passes_below { map (pass_below (2 ∷ 0 ∷ [])) (pass 0 5 6 4 8 ∷ pass 1 5 6 4 8 ∷ pass 2 5 6 4 8 ∷ [])
        ≡ Some (pass 2 5 6 4 8) ∷ Some (pass 0 5 6 4 8) ∷ None ∷ [] }
    ensures swapped_content { seated_content (1 ∷ 0 ∷ []) (two_rows granted_row later_row (Some old_pass))
        ≡ two_rows later_row granted_row (Some (pass 1 5 5 4 8)) }
    ensures unseen_row { seated_content (0 ∷ []) (two_rows granted_row later_row (Some old_pass))
        ≡ record { rows = granted_row ∷ []; boot = 4; last = Some old_pass } }
    ensures unseen_pass { seated_content (1 ∷ []) (two_rows granted_row later_row (Some old_pass))
        ≡ record { rows = later_row ∷ []; boot = 4; last = None } }
    ensures no_pass { seated_content (1 ∷ 0 ∷ []) (two_rows granted_row later_row None)
        ≡ two_rows later_row granted_row None }
    ensures last_token { IsSeen (2 ∷ 0 ∷ []) (pass_of 1) }
    ensures no_token { IsSeen (2 ∷ 0 ∷ []) None }
    ensures past_the_tokens { IsSeen (2 ∷ 0 ∷ []) (pass_of 2) → ⊥ }
{}

/// Counterexamples: each promise of seats, of a seated store and of its calls fails for a minimal one.
pub fn seats_can_be_broken()
    ensures seats { AreSeats 3 (2 ∷ 0 ∷ []) }
    ensures past_the_rows { AreSeats 2 (0 ∷ 2 ∷ []) → ⊥ }
    ensures same_seat { AreSeats 3 (2 ∷ 2 ∷ []) → ⊥ }

    // the contract's view of the store: a pass that it can't keep is a fault and one more failure
    ensures seen_fault { (seen (swapped (store_at 0))).fault ≡ None }
    ensures seen_failures { (seen (swapped (store_at 0))).failures ≡ 0 }
    ensures seen_content { (seen (swapped (floors 5 9 (pass_of 0)))).content
        ≡ two_rows (free_row 9) (free_row 5) (pass_of 1) }
    ensures own_fault { (seen (unusable (store_at 0))).fault ≡ Some Unusable }
    ensures own_failures { (seen (unusable (store_at 0))).failures ≡ 1 }
    ensures broken_fault { (seen (swapped (broken_at 0))).fault ≡ Some Disk }
    ensures broken_failures { (seen (swapped (broken_at 0))).failures ≡ 1 }
    ensures broken_and_unusable { (seen (unusable (broken_at 0))).failures ≡ 2 }
    ensures leaves { (seen (swapped (floors 5 9 None))).leaves (two_rows (free_row 9) (free_row 5) None) }
    ensures leaves_below { (seen (swapped (floors 5 9 None))).leaves (two_rows (free_row 5) (free_row 9) None) → ⊥ }

    ensures commits { CommitsBelow (swapped (store_at 0)) (swapped (store_at 0)) done }
    ensures commits_refused { CommitsBelow (unusable (store_at 0)) (unusable (store_at 0)) refused }
    ensures commits_other { CommitsBelow (swapped (store_at 0)) (swapped (store_at 1)) done → ⊥ }
    ensures commits_by_another_fault { CommitsBelow (unusable (store_at 0)) (unusable (store_at 0)) failed → ⊥ }
    ensures commits_after_a_fault { CommitsBelow (unusable (store_at 0)) (unusable (store_at 1)) refused → ⊥ }
    ensures commits_in_other_seats { CommitsBelow (swapped (store_at 0)) (unswapped (store_at 0)) done → ⊥ }
    ensures commits_and_is_unusable { CommitsBelow (swapped (store_at 0)) (unusable (store_at 0)) done → ⊥ }

    ensures puts { Puts7 (swapped (floors 5 9 None)) (swapped (floors 5 7 None)) 0 None done }
    ensures puts_with_pass { Puts7 (swapped (floors 5 9 None)) (swapped (floors 5 7 (pass_of 1))) 0 (pass_of 0) done }
    ensures puts_unseen { Puts7 (swapped (floors 5 9 None)) (unusable (floors 5 9 None)) 0 (pass_of 2) refused }
    ensures puts_in_the_other_row { Puts7 (swapped (floors 5 9 None)) (swapped (floors 7 9 None)) 0 None done → ⊥ }
    ensures puts_pass_as_it_is { Puts7 (swapped (floors 5 9 None)) (swapped (floors 5 7 (pass_of 0))) 0 (pass_of 0)
        done → ⊥ }
    ensures puts_and_is_unusable { Puts7 (swapped (floors 5 9 None)) (unusable (floors 5 7 None)) 0 None done → ⊥ }
    ensures puts_unseen_pass { Puts7 (swapped (floors 5 9 None)) (swapped (floors 5 9 None)) 0 (pass_of 2) done → ⊥ }
    ensures puts_unseen_row { Puts7 (swapped (floors 5 9 None)) (unusable (floors 5 7 None)) 0 (pass_of 2) refused
        → ⊥ }
    ensures puts_unseen_in_other_seats { Puts7 (swapped (floors 5 9 None)) (unswapped (floors 5 9 None)) 0 (pass_of 2)
        refused → ⊥ }
{}

/// Worked cases: own seats, and whose the last pass is.
pub fn places_are_worked()
    ensures no_token { own_seats 0 ≡ [] }
    ensures three_tokens { own_seats 3 ≡ 0 ∷ 1 ∷ 2 ∷ [] }
    ensures no_pass { HasOwnPass (two_rows granted_row later_row None) }
    ensures of_the_second { HasOwnPass (two_rows granted_row later_row (Some (pass 1 5 6 4 8))) }
    ensures of_a_third { HasOwnPass (two_rows granted_row later_row (Some (pass 2 5 6 4 8))) → ⊥ }
{}

/// Own seats: a store that is seen by its own rows is seen as it is.
pub fn places_are_the_store<S: FloorStore>()
    ensures seats { (tokens : ℕ) → AreSeats tokens (own_seats tokens) }
    ensures rows { (rows : List RowRecord) → seated_rows (own_seats (length rows)) rows ≡ rows }
    ensures content { (c : Content) → HasOwnPass c → seated_content (own_seats (length c.rows)) c ≡ c }
    ensures held { (store : S) → HasOwnPass (S.held store).content
        → (seated_held S.held (record {
          inner = store;
          seats = own_seats (length (S.held store).content.rows);
          is_unusable = false;
        })).content ≡ (S.held store).content }
    // What a stop may leave is seen as it is, if it has as many rows and its last pass is of one of them.
    ensures leaves { (store : S) (left : Content) → length left.rows ≡ length (S.held store).content.rows
        → HasOwnPass left → (S.held store).leaves left
        → (seated_held S.held (record {
          inner = store;
          seats = own_seats (length (S.held store).content.rows);
          is_unusable = false;
        })).leaves left }
{}
