//! The laws about nodes whose users files change. Floor: the first free factor of a token at a node.

ghost use Rattle.std.specs.Prelude.{◌≡◌, ◌+◌, ◌<◌, ◌≤◌, ◌++◌, ◌∷◌, [], Bool, false, length, List, map, None, Option, Some, true, ℕ};
ghost use Rattle.floor_store.specs.Content.{Content, opening_content_at, opening_row, with_next_boot};
ghost use Rattle.floor_store.specs.Records.{PassRecord, RowRecord};
ghost use Rattle.otp_core.specs.Acceptance.{HaveSingleUse, KeepRealTimeOrder, majority_of, size};
ghost use Rattle.seated_store.specs.Seats.{AreSeats, IsSeen, seated_content};
ghost use Rattle.vote_core.specs.Books.{Adds, are_apart, AreHeard, blank_opening, with_name};
ghost use Rattle.vote_core.specs.Cases.{accepted};
ghost use Rattle.vote_core.specs.Numbers.{with_new_row};
ghost use Rattle.vote_core.specs.Roster.{posted, taken};
ghost use Rattle.vote_core.specs.RosterExamples.{none_enrolled};
ghost use Rattle.vote_core.specs.Rows.{row_with_gate};
ghost use Rattle.vote_core.specs.Safety.{AreDeliverable, AreFrom, AreTold, HaveMajority, MayOpen};
ghost use Rattle.vote_core.specs.Schedule.{after_restart, Envelope, has_store, last_boot};
ghost use Rattle.vote_core.specs.Voting.{pass_of, VoterState};
ghost use Rattle.seat_law.specs.Below.{after_put, IsBelow, put_below, site_of};
ghost use Rattle.seat_law.specs.Broken.{accepted_from, begins_in_a_stop, comes_and_takes, first_taken, forgetting, in_order_of_seats, no_row, one_of, replacement, taken_content, takes_and_goes, takes_without_a_row, two_seats};
ghost use Rattle.seat_law.specs.Examples.{adds, adds_again, adds_at_a_stop, asked_again, at_the_last_boot, begins, begins_at_a_stop, both_take, comes_back, floors_at, gets, goes_unheard, granted_before, last_at, opens, outcome_at, remade_with, shut_gate, shuts, shuts_and_returns, sites_of, starts_lost, starts_wrongly, takes_first, tells, used_elsewhere};
ghost use Rattle.seat_law.specs.Seats.{after_adding, after_remaking, after_start, AreAddedFrom, AreBegun, blank_sites, Breaks, Course, free_in, go, Gone, happenings_at, IsAddedFrom, IsBegunBy, KeepsStore, may_add, may_remake, seat_content, seat_name, Sites, Starts, stored_row, with_own};

/// Safety over seats: acceptances and messages belong to a roster, whatever users files the processes start with.
///
/// Members open with empty stores. Each store gets rows while the others serve. At each start a process has seats for
/// some of the rows, in any order. The other rows stay as they are.
pub fn seats_are_safe()
    ensures single_use { (n tokens : ℕ) (boot : ℕ → ℕ) (old : List Envelope) (courses : List Course)
        → MayOpen n tokens (blank_opening boot old)
        → HaveSingleUse (go 0 courses (blank_sites n tokens boot old)).seen.own.accepted }
    ensures in_order { (n tokens : ℕ) (boot : ℕ → ℕ) (old : List Envelope) (courses : List Course)
        → MayOpen n tokens (blank_opening boot old)
        → KeepRealTimeOrder (go 0 courses (blank_sites n tokens boot old)).seen.own.accepted }
    ensures majority { (n tokens : ℕ) (boot : ℕ → ℕ) (old : List Envelope) (courses : List Course)
        → MayOpen n tokens (blank_opening boot old)
        → HaveMajority n (free_in (blank_sites n tokens boot old) courses)
        (go 0 courses (blank_sites n tokens boot old)).seen.own.accepted }
    ensures proposed { (n tokens : ℕ) (boot : ℕ → ℕ) (old : List Envelope) (courses : List Course)
        → MayOpen n tokens (blank_opening boot old)
        → AreBegun (blank_sites n tokens boot old) courses
        (go 0 courses (blank_sites n tokens boot old)).seen.own.accepted }
    ensures from_floors { (n tokens : ℕ) (boot : ℕ → ℕ) (old : List Envelope) (courses : List Course)
        → MayOpen n tokens (blank_opening boot old)
        → (token least : ℕ) → token < tokens → AreAddedFrom token least courses
        → AreFrom token least (go 0 courses (blank_sites n tokens boot old)).seen.own.accepted }
    ensures rise { (n tokens : ℕ) (boot : ℕ → ℕ) (old : List Envelope) (courses : List Course)
        → MayOpen n tokens (blank_opening boot old)
        → (node token first later : ℕ) → first ≤ later → KeepsStore courses node first later
        → free_in (blank_sites n tokens boot old) courses node token first
        ≤ free_in (blank_sites n tokens boot old) courses node token later }
    ensures told { (n tokens : ℕ) (boot : ℕ → ℕ) (old : List Envelope) (courses : List Course)
        → MayOpen n tokens (blank_opening boot old)
        → (read : ℕ → Bool) → n < size n read + majority_of n
        → AreTold n read (free_in (blank_sites n tokens boot old) courses) (length courses)
        (go 0 courses (blank_sites n tokens boot old)).seen.own.accepted }
    ensures heard { (n tokens : ℕ) (boot : ℕ → ℕ) (old : List Envelope) (courses : List Course)
        → MayOpen n tokens (blank_opening boot old)
        → AreDeliverable n tokens (go 0 courses (blank_sites n tokens boot old)).seen.own.sent }
    ensures fits { (n tokens : ℕ) (boot : ℕ → ℕ) (old : List Envelope) (courses : List Course)
        → MayOpen n tokens (blank_opening boot old)
        → AreHeard n (go 0 courses (blank_sites n tokens boot old)).seen }
    ensures accepted { (n tokens : ℕ) (boot : ℕ → ℕ) (old : List Envelope) (courses : List Course)
        → MayOpen n tokens (blank_opening boot old)
        → (go 0 courses (blank_sites n tokens boot old)).seen.own.accepted
        ≡ taken n tokens (blank_opening boot old) none_enrolled
        (happenings_at 0 courses (blank_sites n tokens boot old)) }
    ensures sent { (n tokens : ℕ) (boot : ℕ → ℕ) (old : List Envelope) (courses : List Course)
        → MayOpen n tokens (blank_opening boot old)
        → (go 0 courses (blank_sites n tokens boot old)).seen.own.sent
        ≡ posted n tokens (blank_opening boot old) none_enrolled
        (happenings_at 0 courses (blank_sites n tokens boot old)) }
{}

/// The store below: what `seated_store` shows of a node's store is what the process sees, after each start and put.
///
/// Row k of the store is of the token `name k`. It gets rows at its end, and loses none. A replacement store has a row
/// for each of the given tokens.
pub fn sites_are_seated_stores()
    ensures blank { (n tokens : ℕ) (boot : ℕ → ℕ) (old : List Envelope) (node : ℕ) (name : ℕ → ℕ)
        → IsBelow (site_of (blank_sites n tokens boot old) node) name [] (opening_content_at (boot node) []) }
    ensures shown { (sites : Sites) (node : ℕ) (name : ℕ → ℕ) (seats : List ℕ) (c : Content)
        → IsBelow (site_of sites node) name seats c
        → (others : List ℕ) → AreSeats (length c.rows) others
        → seat_content sites node (map name others) ≡ seated_content others c }
    ensures started { (sites : Sites) (node : ℕ) (name : ℕ → ℕ) (seats : List ℕ) (c : Content)
        → IsBelow (site_of sites node) name seats c
        → (others : List ℕ) → AreSeats (length c.rows) others
        → has_store sites.seen.own node ≡ true → c.boot < last_boot
        → IsBelow (site_of (after_start node (map name others) sites) node) name others (with_next_boot c) }
    ensures restarted { (sites : Sites) (node : ℕ) (name : ℕ → ℕ) (seats : List ℕ) (c : Content)
        → IsBelow (site_of sites node) name seats c → has_store sites.seen.own node ≡ true → c.boot < last_boot
        → IsBelow (site_of (with_own (after_restart (Some node) sites.seen.own) sites) node) name seats
        (with_next_boot c) }
    ensures put { (sites : Sites) (node : ℕ) (name : ℕ → ℕ) (seats : List ℕ) (c : Content)
        → IsBelow (site_of sites node) name seats c
        → (seat : ℕ) → seat < length seats → (new : RowRecord) (pass : Option PassRecord) → IsSeen seats pass
        → (voter : VoterState) (running : Bool)
        → IsBelow (site_of (after_put node seat new pass voter running sites) node) name seats
        (put_below seats seat new pass c) }
    ensures added { (sites : Sites) (node : ℕ) (name : ℕ → ℕ) (seats : List ℕ) (c : Content)
        → IsBelow (site_of sites node) name seats c
        → (token floor : ℕ) → may_add sites node token ≡ true
        → IsBelow (site_of (after_adding node token floor sites) node) (with_name (length c.rows) token name) seats
        (with_new_row floor c) }
    ensures remade { (sites : Sites) (node boot : ℕ) (given : List ℕ) (floor : ℕ → ℕ)
        → may_remake sites node boot given floor ≡ true → are_apart (length given) (seat_name given) ≡ true
        → IsBelow (site_of (after_remaking node boot given floor sites) node) (seat_name given) []
        (opening_content_at boot (map floor given)) }
{}

/// Worked cases.
pub fn sites_are_worked()
    ensures two_orders { outcome_at both_take
        ≡ record { accepted = accepted 6 8 1 0 0 0 ∷ accepted 9 11 2 1 3 3 ∷ []; sent = 6 } }
    ensures unheard { outcome_at goes_unheard ≡ record { accepted = []; sent = 2 } }
    ensures back { outcome_at comes_back
        ≡ record { accepted = accepted 8 13 1 0 0 0 ∷ accepted 15 17 2 0 1 1 ∷ []; sent = 6 } }
    ensures granted { outcome_at granted_before ≡ record { accepted = accepted 6 8 2 0 0 0 ∷ []; sent = 5 } }
    ensures elsewhere { outcome_at used_elsewhere ≡ record { accepted = accepted 7 10 2 0 0 0 ∷ []; sent = 3 } }
    ensures again { outcome_at asked_again
        ≡ record { accepted = accepted 7 10 2 0 0 0 ∷ accepted 17 19 1 0 1 1 ∷ []; sent = 10 } }
    ensures wrong_seats { outcome_at starts_wrongly ≡ record { accepted = accepted 9 11 1 1 7 7 ∷ []; sent = 3 } }
    ensures added_again { outcome_at adds_again ≡ record { accepted = accepted 6 8 1 0 0 0 ∷ []; sent = 5 } }
    ensures told { outcome_at tells ≡ record { accepted = []; sent = 4 } }
    ensures remade { outcome_at (remade_with (0 ∷ []) 1) ≡ record { accepted = accepted 6 8 1 0 0 0 ∷ []; sent = 5 } }
    ensures remade_too_low { outcome_at (remade_with (0 ∷ []) 0)
        ≡ record { accepted = accepted 6 8 1 0 0 0 ∷ []; sent = 3 } }
    ensures remade_without { outcome_at (remade_with [] 9)
        ≡ record { accepted = accepted 6 8 1 0 0 0 ∷ []; sent = 3 } }
    ensures remade_unknown { outcome_at (remade_with (0 ∷ 2 ∷ []) 1)
        ≡ record { accepted = accepted 6 8 1 0 0 0 ∷ []; sent = 3 } }
    ensures floors_seated { floors_at 2 (opens ++ takes_first) ≡ 1 ∷ 0 ∷ [] }
    ensures floors_aside { floors_at 2 (opens ++ takes_first ++ Starts 2 (1 ∷ []) ∷ []) ≡ 1 ∷ 0 ∷ [] }
    ensures floors_added { floors_at 1 (adds 1 0 4 ∷ []) ≡ 4 ∷ 0 ∷ [] }
    ensures floors_of_each { floors_at 1 (adds 1 0 4 ∷ adds 2 0 6 ∷ []) ≡ 4 ∷ 0 ∷ [] }
    ensures floors_remade { floors_at 1 (remade_with (0 ∷ []) 5) ≡ 5 ∷ 0 ∷ [] }
    ensures floors_not_remade { floors_at 1 (remade_with [] 9) ≡ 1 ∷ 0 ∷ [] }
    ensures floors_told { floors_at 1 tells ≡ 0 ∷ 4 ∷ [] }
    ensures add_kept { floors_at 1 (adds_at_a_stop true) ≡ 4 ∷ 0 ∷ [] }
    ensures add_dropped { floors_at 1 (adds_at_a_stop false) ≡ 0 ∷ 0 ∷ [] }
    ensures begin_kept { floors_at 1 (begins_at_a_stop true) ≡ 1 ∷ 0 ∷ [] }
    ensures begin_unsent { outcome_at (begins_at_a_stop true) ≡ record { accepted = []; sent = 0 } }
    ensures begin_dropped { floors_at 1 (begins_at_a_stop false) ≡ 0 ∷ 0 ∷ [] }
    ensures row_aside { stored_row (sites_of shuts) 1 0 ≡ row_with_gate shut_gate (opening_row 0) }
    ensures row_back { stored_row (sites_of shuts_and_returns) 1 0 ≡ row_with_gate shut_gate (opening_row 0) }
    ensures last_pass { last_at 1 (opens ++ takes_first) ≡ Some (pass_of 0 0 0 2 0) }
    ensures last_pass_moved { last_at 1 (opens ++ takes_first ++ Starts 1 (1 ∷ 0 ∷ []) ∷ [])
        ≡ Some (pass_of 1 0 0 2 0) }
    ensures last_pass_unseen { last_at 1 (opens ++ takes_first ++ Starts 1 (1 ∷ []) ∷ []) ≡ None }
    ensures last_pass_back { last_at 1 (opens ++ takes_first ++ Starts 1 (1 ∷ []) ∷ Starts 1 (0 ∷ []) ∷ [])
        ≡ Some (pass_of 0 0 0 2 0) }
    ensures last_pass_of_seat_1 { last_at 2 (opens ++ begins 2 1 0 ∷ gets 0 ∷ gets 2 ∷ Starts 2 (0 ∷ []) ∷ [])
        ≡ Some (pass_of 0 0 0 2 0) }
    ensures lost_seat { (sites_of starts_lost).seen.name 1 0 ≡ 0 }
    ensures last_boot_seat { at_the_last_boot.seen.name 1 0 ≡ 0 }
    ensures last_boot_stops { (at_the_last_boot.seen.own.nodes 1).running ≡ false }
{}

/// Counterexamples: a factor is accepted twice after a start that breaks one rule.
pub fn sites_can_be_broken()
    ensures kept { HaveSingleUse (accepted_from 4 (one_of takes_and_goes) comes_and_takes) }
    ensures forgotten { HaveSingleUse (accepted_from 4 (forgetting (one_of takes_and_goes)) comes_and_takes) → ⊥ }
    ensures below { IsBelow (site_of (one_of takes_and_goes) 1) (λ k. 0) [] taken_content }
    ensures forgotten_below { IsBelow (site_of (forgetting (one_of takes_and_goes)) 1) (λ k. 0) [] taken_content → ⊥ }
    ensures two_seats { HaveSingleUse (accepted_from 2 two_seats (begins 1 0 0 ∷ begins 1 1 0 ∷ [])) → ⊥ }
    ensures no_row { HaveSingleUse (accepted_from 1 no_row takes_without_a_row) → ⊥ }

    // What an acceptance was proposed in.
    ensures begun { IsBegunBy in_order_of_seats first_taken (Some (begins 1 0 0)) }
    ensures begun_at_a_kept_stop { IsBegunBy in_order_of_seats first_taken (Some (begins_in_a_stop true)) }
    ensures begun_at_a_dropped_stop { IsBegunBy in_order_of_seats first_taken (Some (begins_in_a_stop false)) → ⊥ }
    ensures begun_in_another_seat { IsBegunBy in_order_of_seats first_taken (Some (begins 1 1 0)) → ⊥ }
    ensures begun_by_a_start { IsBegunBy in_order_of_seats first_taken (Some (Starts 1 (0 ∷ []))) → ⊥ }
    ensures begun_by_a_loss { IsBegunBy in_order_of_seats first_taken (Some (Gone 1)) → ⊥ }
    ensures begun_by_a_replacement { IsBegunBy in_order_of_seats first_taken (Some replacement) → ⊥ }
    ensures begun_by_nothing { IsBegunBy in_order_of_seats first_taken None → ⊥ }

    // Rows with floors, and replaced stores.
    ensures added_lower { IsAddedFrom 0 5 (adds 1 0 4) → ⊥ }
    ensures added_for_another_token { IsAddedFrom 0 5 (adds 1 1 4) }
    ensures added_lower_at_a_stop { IsAddedFrom 0 5 (Breaks false (Adds 1 0 4)) → ⊥ }
    ensures replaced_lower { IsAddedFrom 0 5 replacement → ⊥ }
    ensures kept_until_then { KeepsStore (Gone 1 ∷ replacement ∷ []) 1 0 1 }
    ensures kept_after_then { KeepsStore (Gone 1 ∷ replacement ∷ []) 1 2 9 }
    ensures kept_at_another_node { KeepsStore (Gone 1 ∷ replacement ∷ []) 2 0 9 }
    ensures replaced { KeepsStore (Gone 1 ∷ replacement ∷ []) 1 1 2 → ⊥ }
{}
