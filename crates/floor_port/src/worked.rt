ghost use Rattle.std.specs.Prelude.{◌≡◌, ◌^◌, ◌+◌, [], ◌∷◌, ◌++◌, Some, None, false, map, replicate, slice_set, take, true};
ghost use Rattle.datagram_port.specs.Port.{Faulted, Offered, Quiet, Received};
ghost use Rattle.datagram_port.specs.declared.port.Sender.TheVariants.{Client, Peer};
ghost use Rattle.named_port.specs.Translator.{is_older};
ghost use Rattle.named_wire.specs.declared.head.Kind.TheVariants.{Ask, Deny, Floor, Floors, Grant};
ghost use Rattle.vote_wire.specs.Examples.{eight_bytes};
ghost use Rattle.floor_port.specs.Examples.{ask_of, bare_setup, body_of_two, book, claim, claims_of_1, deny_of_9, equal_floor, fallen_1, fallen_node, fell_1, floor_of, fresh_rows, from_1, gone_1, head_with, heard_1, hears_1, later_deny, left_of_1, lower_floor, name_with, node_2, node_2_knowing, node_2_over, node_2_told, node_2_with, one_floor, pace_with, rows_with, start_with, told_in_4, two_floors, zeros};
ghost use Rattle.gatekeeping.specs.Members.{nobody};
ghost use Rattle.floor_port.specs.Claims.{claims_after, falls, fell_of, is_below, is_fallen, new_claims, no_claim, place_of, with_fell};
ghost use Rattle.floor_port.specs.Floors.{IsBodyOf, floors_at, floors_body, is_body, told_in};
ghost use Rattle.floor_port.specs.Pace.{after_heard, after_quiet, due, new_pace, round_of};
ghost use Rattle.floor_port.specs.Packer.{after_event, after_next, after_offer, after_told, body_of, body_offers, fell_at, first_told, floors_datagram, handed_in, hearing, new_packer, next_bytes, told_at, told_by, turn_offers, with_boot};
ghost use Rattle.floor_port.specs.Promises.{HandsIn, IsInTime, IsNotFresh, IsOwnFloor, TellsFloors, WentBack, above};
ghost use Rattle.floor_port.specs.Rows.{after_floor, after_floors, after_news, after_telling, after_turn, after_witness, is_fresh, is_news, new_rows, news, next_floors, rows_of, turns_of, with_fresh};
ghost use Rattle.floor_port.specs.Runs.{AreUntold, Came, IsAfter, Left, Offer, at_start, below_events, fell_before, fells_over, handed_events, may_call, may_make};
ghost use Rattle.floor_port.specs.Setup.{telling_setup};
ghost use Rattle.floor_port.specs.Witness.{witness_of};

/// Worked cases. Bodies of floors, and bytes that are none.
pub fn bodies_are_worked()
    ensures written { floors_body (floor_of 0xaa 6 ∷ floor_of 0xcc 9 ∷ []) ≡ body_of_two }
    ensures read { floors_at body_of_two ≡ Some (floor_of 0xaa 6 ∷ floor_of 0xcc 9 ∷ []) }
    ensures none { floors_at (0 ∷ []) ≡ None }
    ensures no_bytes { floors_at [] ≡ None }
    ensures shorter { floors_at (take 48 body_of_two) ≡ None }
    ensures longer { floors_at (body_of_two ++ 0 ∷ []) ≡ None }
    ensures counts { map (λ count. is_body (count ∷ replicate 480 0)) (19 ∷ 20 ∷ 21 ∷ [])
        ≡ false ∷ true ∷ false ∷ [] }
    ensures too_many { is_body (21 ∷ replicate 504 0) ≡ false }
    ensures last { floors_at (1 ∷ name_with 1 ++ 0x40 ∷ replicate 7 0) ≡ Some (floor_of 1 (2 ^ 62) ∷ []) }
    ensures above { floors_at (1 ∷ name_with 1 ++ 0x40 ∷ replicate 6 0 ++ 1 ∷ []) ≡ None }
    ensures one_of_two_above { floors_at (2 ∷ name_with 1 ++ eight_bytes 1 ++ name_with 1 ++ 0x80 ∷ replicate 7 0)
        ≡ None }
    ensures several { told_in Floors body_of_two ≡ Some (floor_of 0xaa 6 ∷ floor_of 0xcc 9 ∷ []) }
    ensures one { told_in Floor (name_with 0xaa ++ eight_bytes 6) ≡ Some (floor_of 0xaa 6 ∷ []) }
    ensures one_longer { told_in Floor (name_with 0xaa ++ eight_bytes 6 ++ 0 ∷ []) ≡ None }
    ensures votes { map (λ kind. told_in kind body_of_two) (Ask ∷ Grant ∷ Deny ∷ Floor ∷ []) ≡ replicate 4 None }
{}

/// Worked cases. What datagrams of one token bear witness to.
pub fn witnesses_are_worked()
    ensures ask { map (λ low. witness_of (ask_of (eight_bytes 1) low)) (0 ∷ 1 ∷ 2 ∷ 3 ∷ [])
        ≡ None ∷ Some (floor_of 0xaa 2) ∷ Some (floor_of 0xaa 3) ∷ None ∷ [] }
    ensures over_255 { witness_of (ask_of (eight_bytes 255) 0) ≡ Some (floor_of 0xaa 257) }
    ensures grant { witness_of (slice_set (ask_of (eight_bytes 1) 1) 3 2) ≡ Some (floor_of 0xaa 2) }
    ensures deny { witness_of deny_of_9 ≡ Some (floor_of 0xaa 9) }
    ensures floor { witness_of one_floor ≡ Some (floor_of 0xaa 6) }
    ensures last { witness_of (ask_of (0x3f ∷ replicate 7 0xff) 0xff) ≡ Some (floor_of 0xaa (2 ^ 62)) }
    ensures no_factor { witness_of (ask_of (0x3f ∷ replicate 7 0xff) 0) ≡ None }
    ensures kinds { map (λ kind. witness_of (slice_set (ask_of (eight_bytes 1) 1) 3 kind)) (0 ∷ 1 ∷ 4 ∷ 5 ∷ [])
        ≡ None ∷ Some (floor_of 0xaa 2) ∷ None ∷ None ∷ [] }
    ensures shorter { map witness_of
        (take 53 one_floor ∷ take 70 deny_of_9 ∷ take 70 (ask_of (eight_bytes 1) 1) ∷ [] ∷ [])
        ≡ replicate 4 None }
    ensures floors { witness_of two_floors ≡ None }
{}

/// Worked cases. Floors of rows, what is news, and the rows whose floors are told in turn.
pub fn rows_are_worked()
    ensures news { map (is_news book (replicate 3 5))
        (floor_of 0xbb 4 ∷ floor_of 0xbb 5 ∷ floor_of 0xbb 6 ∷ floor_of 0xdd 9 ∷ [])
        ≡ false ∷ false ∷ true ∷ false ∷ [] }
    ensures raised { map (after_floor book (5 ∷ 6 ∷ 7 ∷ [])) (floor_of 0xbb 5 ∷ floor_of 0xbb 9 ∷ floor_of 0xdd 9 ∷ [])
        ≡ (5 ∷ 6 ∷ 7 ∷ []) ∷ (5 ∷ 9 ∷ 7 ∷ []) ∷ (5 ∷ 6 ∷ 7 ∷ []) ∷ [] }
    ensures some { news book (replicate 3 5)
        (floor_of 0xaa 6 ∷ floor_of 0xbb 5 ∷ floor_of 0xdd 9 ∷ floor_of 0xcc 9 ∷ [])
        ≡ floor_of 0xaa 6 ∷ floor_of 0xcc 9 ∷ [] }
    ensures known { after_floors book (replicate 3 5)
        (floor_of 0xaa 6 ∷ floor_of 0xbb 5 ∷ floor_of 0xdd 9 ∷ floor_of 0xcc 9 ∷ [])
        ≡ 6 ∷ 5 ∷ 9 ∷ [] }
    ensures same_twice { news book (replicate 3 5) (floor_of 0xaa 6 ∷ floor_of 0xaa 6 ∷ []) ≡ floor_of 0xaa 6 ∷ [] }
    ensures greater_after { news book (replicate 3 5) (floor_of 0xaa 6 ∷ floor_of 0xaa 7 ∷ [])
        ≡ floor_of 0xaa 6 ∷ floor_of 0xaa 7 ∷ [] }
    ensures smaller_after { news book (replicate 3 5) (floor_of 0xaa 7 ∷ floor_of 0xaa 6 ∷ []) ≡ floor_of 0xaa 7 ∷ [] }
    ensures rows { rows_of book (floor_of 0xbb 6 ∷ floor_of 0xdd 6 ∷ floor_of 0xaa 6 ∷ [])
        ≡ Some 1 ∷ None ∷ Some 0 ∷ [] }
    ensures next { next_floors (rows_with (5 ∷ 6 ∷ 7 ∷ []) (8 ∷ 8 ∷ 8 ∷ []) 0)
        ≡ floor_of 0xaa 5 ∷ floor_of 0xbb 6 ∷ floor_of 0xcc 7 ∷ [] }
    ensures next_from { next_floors (rows_with (5 ∷ 6 ∷ 7 ∷ []) (8 ∷ 8 ∷ 8 ∷ []) 1)
        ≡ floor_of 0xbb 6 ∷ floor_of 0xcc 7 ∷ [] }
    ensures most { next_floors (new_rows (replicate 21 (name_with 1)) (replicate 20 1 ++ 2 ∷ []))
        ≡ replicate 20 (floor_of 1 1) }
    ensures rest { next_floors (after_turn (new_rows (replicate 21 (name_with 1)) (replicate 20 1 ++ 2 ∷ [])))
        ≡ floor_of 1 2 ∷ [] }
    ensures turns { map (λ rows. (after_turn (new_rows [] (replicate rows 1))).turn) (0 ∷ 20 ∷ 21 ∷ [])
        ≡ 0 ∷ 0 ∷ 20 ∷ [] }
    ensures around { (after_turn (after_turn (new_rows [] (replicate 21 1)))).turn ≡ 0 }
    ensures all { map (λ rows. turns_of (new_rows [] (replicate rows 1))) (0 ∷ 1 ∷ 20 ∷ 21 ∷ []) ≡ 0 ∷ 1 ∷ 1 ∷ 2 ∷ [] }
{}

/// Worked cases. The rows that are fresh, and the floors of the others that are told.
pub fn fresh_rows_are_worked()
    ensures is { map (is_fresh (0 ∷ 2 ∷ [])) (0 ∷ 1 ∷ 2 ∷ 3 ∷ []) ≡ true ∷ false ∷ true ∷ false ∷ [] }
    ensures none { is_fresh [] 0 ≡ false }
    ensures more { map (with_fresh (0 ∷ 2 ∷ [])) (Some 1 ∷ Some 2 ∷ None ∷ [])
        ≡ (0 ∷ 2 ∷ 1 ∷ []) ∷ (0 ∷ 2 ∷ []) ∷ (0 ∷ 2 ∷ []) ∷ [] }
    ensures room_for_64 { with_fresh (replicate 63 9) (Some 1) ≡ replicate 63 9 ++ 1 ∷ [] }
    ensures full { with_fresh (replicate 64 9) (Some 1) ≡ replicate 64 9 }
    ensures raised { (after_witness (fresh_rows []) (Some (floor_of 0xbb 7))).fresh ≡ 1 ∷ [] }
    ensures not_raised { (after_witness (fresh_rows []) (Some (floor_of 0xbb 6))).fresh ≡ [] }
    ensures another_name { (after_witness (fresh_rows []) (Some (floor_of 0xdd 9))).fresh ≡ [] }
    ensures no_witness { after_witness (fresh_rows (2 ∷ [])) None ≡ fresh_rows (2 ∷ []) }
    ensures known_but_raised { (after_witness (fresh_rows []) (Some (floor_of 0xbb 8))).fresh ≡ 1 ∷ [] }
    ensures twice { (after_witness (fresh_rows (1 ∷ [])) (Some (floor_of 0xbb 9))).fresh ≡ 1 ∷ [] }
    ensures news { (after_news (fresh_rows (2 ∷ [])) (floor_of 0xbb 9 ∷ [])).fresh ≡ 2 ∷ [] }
    ensures others { next_floors (fresh_rows (1 ∷ [])) ≡ floor_of 0xaa 5 ∷ floor_of 0xcc 7 ∷ [] }
    ensures others_from { next_floors (record (fresh_rows (1 ∷ [])) { turn = 1 }) ≡ floor_of 0xcc 7 ∷ [] }
    ensures all { next_floors (fresh_rows (2 ∷ 0 ∷ 1 ∷ [])) ≡ [] }
    ensures twenty { next_floors (record (new_rows (replicate 20 (name_with 1)) (1 ∷ 1 ∷ 2 ∷ replicate 17 1)) {
      fresh = 0 ∷ 7 ∷ 19 ∷ [];
    })
        ≡ floor_of 1 1 ∷ floor_of 1 2 ∷ replicate 15 (floor_of 1 1) }
    ensures sixty_four { next_floors (after_witness (fresh_rows (replicate 63 9)) (Some (floor_of 0xbb 7)))
        ≡ floor_of 0xaa 5 ∷ floor_of 0xcc 7 ∷ [] }
    ensures sixty_five { next_floors (after_witness (fresh_rows (replicate 64 9)) (Some (floor_of 0xbb 7)))
        ≡ floor_of 0xaa 5 ∷ floor_of 0xbb 7 ∷ floor_of 0xcc 7 ∷ [] }
    ensures turn { (after_turn (fresh_rows (1 ∷ []))).fresh ≡ 1 ∷ [] }
    ensures told { after_telling (fresh_rows (1 ∷ [])) ≡ fresh_rows [] }
{}

/// Worked cases. Fast rounds, and the datagrams that are due.
pub fn paces_are_worked()
    ensures rounds { map round_of (0 ∷ 199 ∷ 200 ∷ 10000 ∷ []) ≡ 1 ∷ 1 ∷ 2 ∷ 51 ∷ [] }
    ensures start { new_pace 3 ≡ pace_with 0 1 }
    ensures silent { after_heard (pace_with 0 0) 1 200 ≡ pace_with 25 2 }
    ensures silent_in_a_round { after_heard (pace_with 0 9) 1 200 ≡ pace_with 25 2 }
    ensures not_silent { after_heard (pace_with 1 0) 1 200 ≡ pace_with 25 0 }
    ensures no_member { after_heard (pace_with 1 0) 10 200 ≡ pace_with 1 0 }
    ensures quiet { after_quiet (pace_with 25 2) ≡ pace_with 24 1 }
    ensures quiet_for_long { after_quiet (pace_with 0 0) ≡ pace_with 0 0 }
    ensures due { map (due (pace_with 0 0)) (0 ∷ 1 ∷ 11 ∷ []) ≡ 0 ∷ 1 ∷ 1 ∷ [] }
    ensures due_in_a_round { map (due (pace_with 0 1)) (0 ∷ 1 ∷ 11 ∷ []) ≡ 0 ∷ 1 ∷ 10 ∷ [] }
{}

/// Worked cases. The claims of member 1, and the floors by which it falls.
pub fn falls_are_worked()
    ensures new { new_claims nobody 3 ≡ claims_of_1 0 no_claim no_claim no_claim }
    ensures places { map (λ row. map (place_of row) (1 ∷ 9 ∷ [])) (0 ∷ 2 ∷ [])
        ≡ (0 ∷ 8 ∷ []) ∷ (18 ∷ 26 ∷ []) ∷ [] }
    ensures below { map (λ boot. map (is_below (claim 4 6) boot) (5 ∷ 6 ∷ [])) (3 ∷ 4 ∷ 5 ∷ [])
        ≡ (false ∷ false ∷ []) ∷ (false ∷ false ∷ []) ∷ (true ∷ false ∷ []) ∷ [] }
    ensures older_boot { falls told_in_4 book 1 3 (floor_of 0xaa 5 ∷ []) ≡ None }
    ensures older_boot_changes_nothing { claims_after told_in_4 book 1 3 (floor_of 0xaa 9 ∷ []) ≡ told_in_4 }
    ensures same_boot_lower { falls told_in_4 book 1 4 (floor_of 0xaa 5 ∷ []) ≡ None }
    ensures same_boot_keeps_the_greater { map (λ next. claims_after told_in_4 book 1 4 (floor_of 0xaa next ∷ []))
        (5 ∷ 8 ∷ [])
        ≡ told_in_4 ∷ claims_of_1 4 (claim 4 8) no_claim (claim 4 9) ∷ [] }
    ensures later_boot_lower { falls told_in_4 book 1 5 (floor_of 0xaa 5 ∷ []) ≡ Some (floor_of 0xaa 5) }
    ensures later_boot_fallen { claims_after told_in_4 book 1 5 (floor_of 0xaa 5 ∷ [])
        ≡ fallen_1 5 (claim 4 6) no_claim (claim 4 9) }
    ensures later_boot_higher { map (λ next. falls told_in_4 book 1 5 (floor_of 0xaa next ∷ [])) (6 ∷ 7 ∷ [])
        ≡ replicate 2 None }
    ensures later_boot_kept { map (λ next. claims_after told_in_4 book 1 5 (floor_of 0xaa next ∷ [])) (6 ∷ 7 ∷ [])
        ≡ claims_of_1 5 (claim 5 6) no_claim (claim 4 9) ∷ claims_of_1 5 (claim 5 7) no_claim (claim 4 9) ∷ [] }
    ensures first_told { claims_after told_in_4 book 1 5 (floor_of 0xbb 3 ∷ [])
        ≡ claims_of_1 5 (claim 4 6) (claim 5 3) (claim 4 9) }
    ensures unknown_name { falls told_in_4 book 1 5 (floor_of 0xdd 0 ∷ []) ≡ None }
    ensures unknown_name_kept { claims_after told_in_4 book 1 5 (floor_of 0xdd 0 ∷ [])
        ≡ claims_of_1 5 (claim 4 6) no_claim (claim 4 9) }
    ensures second_row { falls told_in_4 book 1 5 (floor_of 0xaa 7 ∷ floor_of 0xcc 8 ∷ []) ≡ Some (floor_of 0xcc 8) }
    ensures second_row_fallen { claims_after told_in_4 book 1 5 (floor_of 0xaa 7 ∷ floor_of 0xcc 8 ∷ [])
        ≡ fallen_1 5 (claim 5 7) no_claim (claim 4 9) }
    ensures first_of_two { falls told_in_4 book 1 5 (floor_of 0xaa 5 ∷ floor_of 0xcc 8 ∷ [])
        ≡ Some (floor_of 0xaa 5) }
    ensures twice_in_one_boot { falls told_in_4 book 1 5 (floor_of 0xaa 7 ∷ floor_of 0xaa 5 ∷ []) ≡ None }
    ensures another_member { falls told_in_4 book 3 5 (floor_of 0xaa 5 ∷ []) ≡ None }
    ensures others { map (is_fallen (fallen_1 5 no_claim no_claim no_claim)) (0 ∷ 1 ∷ 2 ∷ 9 ∷ 10 ∷ [])
        ≡ false ∷ true ∷ false ∷ false ∷ false ∷ [] }
    ensures another_fallen { is_fallen (claims_after (fallen_1 5 (claim 4 6) no_claim no_claim) book 3 5
        (floor_of 0xaa 5 ∷ [])) 1 ≡ true }
    ensures fall { map (fell_of 1) (None ∷ Some (floor_of 0xaa 5) ∷ []) ≡ None ∷ Some (fell_1 0xaa) ∷ [] }
    ensures noted { map (with_fell (fell_1 1 ∷ [])) (None ∷ Some (fell_1 2) ∷ [])
        ≡ (fell_1 1 ∷ []) ∷ (fell_1 1 ∷ fell_1 2 ∷ []) ∷ [] }
    ensures ten { map (λ count. with_fell (replicate count (fell_1 1)) (Some (fell_1 2))) (9 ∷ 10 ∷ [])
        ≡ (replicate 9 (fell_1 1) ++ fell_1 2 ∷ []) ∷ replicate 10 (fell_1 1) ∷ [] }
{}

/// Worked cases. What is handed in of a member whose floor falls or fell, and what changes.
pub fn silences_are_worked()
    ensures falls { handed_in (node_2_told (claims_of_1 3 (claim 3 7) no_claim no_claim)) (from_1 two_floors)
        ≡ from_1 [] }
    ensures fallen { after_event (node_2_told (claims_of_1 3 (claim 3 7) no_claim no_claim)) (from_1 two_floors)
        ≡ hears_1 4 (node_2_told (fallen_1 4 (claim 3 7) no_claim no_claim)) }
    ensures fell { fell_at (node_2_told (claims_of_1 3 (claim 3 7) no_claim no_claim)) (from_1 two_floors)
        ≡ Some (fell_1 0xaa) }
    ensures second_falls { handed_in (node_2_told (claims_of_1 3 no_claim no_claim (claim 3 10))) (from_1 two_floors)
        ≡ from_1 [] }
    ensures second_fallen { after_event (node_2_told (claims_of_1 3 no_claim no_claim (claim 3 10))) (from_1 two_floors)
        ≡ hears_1 4 (node_2_told (fallen_1 4 (claim 4 6) no_claim (claim 3 10))) }
    ensures second_fell { fell_at (node_2_told (claims_of_1 3 no_claim no_claim (claim 3 10))) (from_1 two_floors)
        ≡ Some (fell_1 0xcc) }
    ensures none_is_left { (after_event (record (node_2_told (claims_of_1 3 (claim 3 7) no_claim no_claim)) {
      pending = left_of_1 (floor_of 0xcc 9 ∷ []);
    }) (from_1 two_floors)).pending ≡ left_of_1 [] }
    ensures same_boot { handed_in (node_2_told (claims_of_1 4 (claim 4 7) no_claim no_claim)) (from_1 two_floors)
        ≡ from_1 one_floor }
    ensures older_boot { handed_in (node_2_told (claims_of_1 5 (claim 3 7) no_claim no_claim)) (from_1 two_floors)
        ≡ from_1 one_floor }
    ensures no_fall { map (λ claims. fell_at (node_2_told claims) (from_1 two_floors))
        (new_claims nobody 3 ∷ claims_of_1 4 (claim 4 7) no_claim no_claim
        ∷ claims_of_1 5 (claim 3 7) no_claim no_claim ∷ [])
        ≡ replicate 3 None }
    ensures silent { map (handed_in fallen_node) (from_1 two_floors ∷ from_1 deny_of_9 ∷ from_1 [] ∷ [])
        ≡ replicate 3 (from_1 []) }
    ensures unchanged { map (after_event fallen_node) (from_1 two_floors ∷ from_1 deny_of_9 ∷ [])
        ≡ replicate 2 fallen_node }
    ensures told_once { map (fell_at fallen_node) (from_1 two_floors ∷ from_1 deny_of_9 ∷ []) ≡ replicate 2 None }
    ensures another_member { handed_in fallen_node (Received (Peer 3) deny_of_9) ≡ Received (Peer 3) deny_of_9 }
    ensures known { handed_events node_2_knowing (Came (from_1 two_floors) ∷ Came (from_1 deny_of_9)
        ∷ Came (Received (Peer 3) deny_of_9) ∷ [])
        ≡ from_1 [] ∷ from_1 [] ∷ Received (Peer 3) deny_of_9 ∷ [] }
    ensures known_is_untold { fells_over node_2_knowing (Came (from_1 two_floors) ∷ Came (from_1 lower_floor) ∷ [])
        ≡ [] }
    ensures others { map (fell_at node_2)
        (Received (Client 1) two_floors ∷ Quiet ∷ Faulted ∷ Offered (Peer 1) two_floors ∷ [])
        ≡ replicate 4 None }
    ensures lower { told_by node_2 1 lower_floor ≡ Some (record (head_with Floor) { boot = 5 }, floor_of 0xaa 5 ∷ []) }
    ensures lower_falls { handed_events node_2
        (Came (from_1 one_floor) ∷ Came (from_1 lower_floor) ∷ Came (from_1 one_floor) ∷ [])
        ≡ from_1 one_floor ∷ from_1 [] ∷ from_1 [] ∷ [] }
    ensures fells { fells_over node_2
        (Came (from_1 one_floor) ∷ Came (from_1 lower_floor) ∷ Came (from_1 lower_floor) ∷ Left
        ∷ Offer (Peer 1) [] ∷ [])
        ≡ fell_1 0xaa ∷ [] }
    ensures two_fell { fell_before (Some (fell_1 1)) (fell_1 2 ∷ []) ≡ fell_1 1 ∷ fell_1 2 ∷ [] }
{}

/// Worked cases. The floors of a datagram of node 1, handed in one by one.
pub fn packers_are_worked()
    ensures told { told_by node_2 1 two_floors ≡ Some (head_with Floors, floor_of 0xaa 6 ∷ floor_of 0xcc 9 ∷ []) }
    ensures told_by_another { told_by node_2 3 two_floors ≡ None }
    ensures told_to_another { told_by (record node_2 { me = 3 }) 1 two_floors ≡ None }
    ensures another_key { told_by (record node_2 { key = replicate 32 1 }) 1 two_floors ≡ None }
    ensures first { handed_in node_2 (from_1 two_floors) ≡ from_1 one_floor }
    ensures left { after_event node_2 (from_1 two_floors) ≡ record (hears_1 4 node_2) {
      rows = rows_with (replicate 3 5) (6 ∷ 5 ∷ 9 ∷ []) 0;
      pace = pace_with 25 1;
      pending = left_of_1 (floor_of 0xcc 9 ∷ []);
      claims = claims_of_1 4 (claim 4 6) no_claim (claim 4 9);
    } }
    ensures single { handed_in node_2 (from_1 one_floor) ≡ from_1 one_floor }
    ensures single_left { after_event node_2 (from_1 one_floor) ≡ record (hears_1 4 node_2) {
      rows = rows_with (replicate 3 5) (6 ∷ 5 ∷ 5 ∷ []) 0;
      pace = pace_with 25 1;
      pending = left_of_1 [];
      claims = claims_of_1 4 (claim 4 6) no_claim no_claim;
    } }
    ensures second { handed_in (record node_2 { rows = rows_with [] (6 ∷ 5 ∷ 5 ∷ []) 0 }) (from_1 two_floors)
        ≡ from_1 (next_bytes (node_2_with (floor_of 0xcc 9))) }
    ensures no_news { handed_in (record node_2 { rows = rows_with [] (6 ∷ 5 ∷ 5 ∷ []) 0 }) (from_1 one_floor)
        ≡ from_1 one_floor }
    ensures no_news_of_two { handed_in (after_event node_2 (from_1 two_floors)) (from_1 two_floors)
        ≡ from_1 two_floors }
    ensures no_news_left { map (after_event (after_event node_2 (from_1 two_floors)))
        (from_1 two_floors ∷ from_1 one_floor ∷ [])
        ≡ replicate 2 (after_event node_2 (from_1 two_floors)) }
    ensures another_tag { handed_in (record node_2 { key = replicate 32 1 }) (from_1 two_floors) ≡ from_1 two_floors }
    ensures another_tag_left { after_event (record node_2 { key = replicate 32 1 }) (from_1 two_floors)
        ≡ record node_2 { key = replicate 32 1 } }
    ensures another_sender { handed_in node_2 (Received (Peer 3) two_floors) ≡ Received (Peer 3) two_floors }
    ensures other_names { map (λ byte. handed_in (record node_2 { rows = new_rows (name_with byte ∷ []) (5 ∷ []) })
        (from_1 two_floors)) (0xcc ∷ 0xdd ∷ [])
        ≡ from_1 (next_bytes (node_2_with (floor_of 0xcc 9))) ∷ from_1 two_floors ∷ [] }
    ensures next { next_bytes (record node_2 { pending = left_of_1 [] }) ≡ [] }
    ensures after_next { after_next (record node_2 { pending = left_of_1 (floor_of 0xaa 6 ∷ floor_of 0xcc 9 ∷ []) })
        ≡ record node_2 { pending = left_of_1 (floor_of 0xcc 9 ∷ []) } }
    ensures untold { first_told node_2 None ≡ None }
    ensures untold_left { after_told (node_2_with (floor_of 0xcc 9)) None ≡ node_2_with (floor_of 0xcc 9) }
    ensures votes { map (handed_in node_2) (from_1 deny_of_9 ∷ from_1 [] ∷ []) ≡ from_1 deny_of_9 ∷ from_1 [] ∷ [] }
    ensures unchanged { map (handed_in node_2)
        (Received (Client 1) one_floor ∷ Quiet ∷ Faulted ∷ Offered (Peer 1) one_floor ∷ [])
        ≡ Received (Client 1) one_floor ∷ Quiet ∷ Faulted ∷ Offered (Peer 1) one_floor ∷ [] }
    ensures unheard { map (after_event node_2)
        (from_1 [] ∷ from_1 deny_of_9 ∷ Received (Peer 3) two_floors ∷ Received (Client 1) one_floor ∷ Faulted
        ∷ Offered (Peer 1) [] ∷ [])
        ≡ replicate 6 node_2 }
    ensures witness { after_offer node_2 (Peer 1) deny_of_9
        ≡ record node_2 { rows = record (rows_with (9 ∷ 5 ∷ 5 ∷ []) (9 ∷ 5 ∷ 5 ∷ []) 0) { fresh = 0 ∷ [] } } }
    ensures no_witness { after_offer node_2 (Peer 1) two_floors ≡ node_2 }
    ensures answer { after_offer node_2 (Client 1) deny_of_9 ≡ node_2 }
{}

/// Worked cases. The boots that member 1 is heard in, and floors of an older boot, of which nothing is noted.
pub fn boots_are_worked()
    ensures greater { map (with_boot (heard_1 4) 1) (3 ∷ 4 ∷ 5 ∷ []) ≡ heard_1 4 ∷ heard_1 4 ∷ heard_1 5 ∷ [] }
    ensures known { (new_packer zeros book 2 5 3 (record (start_with []) { known = heard_1 4 })).heard ≡ heard_1 4 }
    ensures floors { hearing node_2 1 two_floors ≡ hears_1 4 node_2 }
    ensures vote { hearing node_2 1 later_deny ≡ hears_1 5 node_2 }
    ensures older_boot { hearing (hears_1 5 node_2) 1 two_floors ≡ hears_1 5 node_2 }
    ensures another_tag { hearing node_2 1 deny_of_9 ≡ node_2 }
    ensures another_sender { hearing node_2 3 later_deny ≡ node_2 }
    ensures fallen { hearing fallen_node 1 later_deny ≡ fallen_node }
    ensures told { map (λ boot. told_by (hears_1 boot node_2) 1 one_floor) (4 ∷ 5 ∷ [])
        ≡ Some (head_with Floor, floor_of 0xaa 6 ∷ []) ∷ None ∷ [] }
    ensures older_floors { handed_in (hears_1 5 node_2) (from_1 two_floors) ≡ from_1 two_floors }
    ensures nothing_is_noted { after_event (hears_1 5 node_2) (from_1 two_floors) ≡ hears_1 5 node_2 }
    ensures after_a_vote { handed_events node_2 (Came (from_1 later_deny) ∷ Came (from_1 two_floors) ∷ [])
        ≡ from_1 later_deny ∷ from_1 two_floors ∷ [] }
    ensures before_a_vote { handed_events node_2 (Came (from_1 two_floors) ∷ Left ∷ Came (from_1 later_deny) ∷ [])
        ≡ from_1 one_floor ∷ from_1 (next_bytes (node_2_with (floor_of 0xcc 9))) ∷ from_1 later_deny ∷ [] }
{}

/// Worked cases. What is offered at a quiet turn.
pub fn offers_are_worked()
    ensures members { body_offers node_2 body_of_two 1 3
        ≡ Offered (Peer 1) (floors_datagram node_2 1 body_of_two)
        ∷ Offered (Peer 3) (floors_datagram node_2 3 body_of_two) ∷ [] }
    ensures quiet { told_at node_2 Quiet ≡ body_offers node_2 (floors_body (next_floors node_2.rows)) 1 3 }
    ensures fresh { told_at (node_2_over (fresh_rows (1 ∷ []))) Quiet
        ≡ body_offers node_2 (floors_body (floor_of 0xaa 5 ∷ floor_of 0xcc 7 ∷ [])) 1 3 }
    ensures fresh_again { told_at (after_event (node_2_over (fresh_rows (1 ∷ []))) Quiet) Quiet
        ≡ body_offers node_2 (floors_body (floor_of 0xaa 5 ∷ floor_of 0xbb 6 ∷ floor_of 0xcc 7 ∷ [])) 1 3 }
    ensures all_fresh { told_at (node_2_over (fresh_rows (0 ∷ 1 ∷ 2 ∷ []))) Quiet ≡ [] }
    ensures voted { told_at (after_offer node_2 (Peer 1) deny_of_9) Quiet
        ≡ body_offers node_2 (floors_body (floor_of 0xbb 5 ∷ floor_of 0xcc 5 ∷ [])) 1 3 }
    ensures voted_before { told_at (after_event (after_offer node_2 (Peer 1) deny_of_9) Quiet) Quiet
        ≡ body_offers node_2 (floors_body (floor_of 0xaa 9 ∷ floor_of 0xbb 5 ∷ floor_of 0xcc 5 ∷ [])) 1 3 }
    ensures bodies { map body_of ([] ∷ (floor_of 0xaa 6 ∷ floor_of 0xcc 9 ∷ []) ∷ []) ≡ None ∷ Some body_of_two ∷ [] }
    ensures quiet_turn { after_event node_2 Quiet ≡ record node_2 { pace = pace_with 0 0 } }
    ensures quiet_turn_after_votes { after_event (node_2_over (fresh_rows (1 ∷ []))) Quiet
        ≡ record (node_2_over (fresh_rows [])) { pace = pace_with 0 0 } }
    ensures no_rows { told_at (record node_2 { rows = new_rows [] [] }) Quiet ≡ [] }
    ensures turns { turn_offers node_2 (new_rows (replicate 21 (name_with 1)) (replicate 21 2)) 2
        ≡ body_offers node_2 (floors_body (replicate 20 (floor_of 1 2))) 1 3
        ++ body_offers node_2 (floors_body (floor_of 1 2 ∷ [])) 1 3 }
    ensures others { map (told_at node_2) (from_1 two_floors ∷ Faulted ∷ Offered (Peer 1) [] ∷ []) ≡ replicate 3 [] }
{}

/// Worked cases. The events of a node's port and of the port below for some calls.
pub fn calls_are_worked()
    ensures handed { handed_events node_2
        (Came (from_1 two_floors) ∷ Offer (Client 1) [] ∷ Left ∷ Came (from_1 two_floors) ∷ Came Quiet ∷ [])
        ≡ from_1 one_floor ∷ Offered (Client 1) [] ∷ from_1 (next_bytes (node_2_with (floor_of 0xcc 9)))
        ∷ from_1 two_floors ∷ Quiet ∷ [] }
    ensures below { below_events node_2 (Came Faulted ∷ Left ∷ Offer (Peer 1) [] ∷ Came (from_1 []) ∷ [])
        ≡ Faulted ∷ Offered (Peer 1) [] ∷ from_1 [] ∷ [] }
    ensures below_quiet { below_events node_2 (Came Quiet ∷ []) ≡ Quiet ∷ told_at node_2 Quiet }
    ensures start { at_start (record node_2 { pending = left_of_1 []; pace = pace_with 3 4 })
        (start_with (replicate 3 5)) ≡ node_2 }
{}

/// Counterexamples: each promise of a port after calls fails for a minimal one.
pub fn calls_can_be_broken()
    ensures after { IsAfter (Some (Faulted ∷ from_1 [] ∷ [])) node_2 node_2 (Came Faulted ∷ Came (from_1 []) ∷ []) }
    ensures no_record { IsAfter None node_2 node_2 (Came Faulted ∷ []) }
    ensures unrecorded { IsAfter (Some []) node_2 node_2 (Came Faulted ∷ []) → ⊥ }
    ensures second_unrecorded { IsAfter (Some (Faulted ∷ [])) node_2 node_2 (Came Faulted ∷ Came (from_1 []) ∷ []) → ⊥ }
    ensures another_packer { IsAfter (Some (Faulted ∷ [])) (record node_2 { me = 3 }) node_2 (Came Faulted ∷ []) → ⊥ }
    ensures untold { AreUntold (fell_1 2 ∷ []) (fell_1 1 ∷ fell_1 2 ∷ []) }
    ensures first_untold { AreUntold (fell_1 1 ∷ []) (fell_1 1 ∷ fell_1 2 ∷ []) → ⊥ }
    ensures never_fell { AreUntold (fell_1 2 ∷ []) [] → ⊥ }
    ensures left { may_make (node_2_with (floor_of 0xcc 9)) (Left ∷ Came Quiet ∷ []) ≡ true }
    ensures nothing_left { may_call node_2 Left ≡ false }
    ensures second_not_left { may_make (node_2_with (floor_of 0xcc 9)) (Left ∷ Left ∷ []) ≡ false }
    ensures asked_too_early { may_call (node_2_with (floor_of 0xcc 9)) (Came Quiet) ≡ false }
    ensures offer_came { may_call node_2 (Came (Offered (Peer 1) [])) ≡ false }
{}

/// Counterexamples: floors of an older boot, and floors that are left while their member is heard in a later one, are
/// dropped above.
pub fn noted_floors_can_be_dropped()
    ensures same_boot { (above node_2 (Came (from_1 two_floors) ∷ [])).heard ≡ heard_1 4 }
    ensures later_boot { is_older (above node_2 (Came (from_1 two_floors) ∷ Came (from_1 later_deny) ∷ [])).heard
        (head_with Floors) ≡ true }
    ensures known_boot { is_older (above (hears_1 5 node_2) []).heard (head_with Floors) ≡ true }
    ensures too_early { may_make node_2 (Came (from_1 two_floors) ∷ Came (from_1 later_deny) ∷ []) ≡ false }
    ensures fallen { (above fallen_node (Came (from_1 later_deny) ∷ [])).heard ≡ replicate 10 0 }
    ensures in_time { IsInTime zeros (above node_2 (Came (from_1 two_floors) ∷ [])) two_floors }
    ensures not_in_time { IsInTime zeros (above (hears_1 5 node_2) []) two_floors → ⊥ }
    ensures another_tag { IsInTime zeros (above node_2 []) deny_of_9 → ⊥ }
{}

/// Counterexamples: each promise of what is handed in and of what is told fails for a minimal one.
pub fn promises_can_be_broken()
    ensures received { HandsIn zeros nobody 2 (Came Quiet ∷ Came Faulted ∷ []) Faulted }
    ensures offered { HandsIn zeros nobody 2 (Offer (Peer 1) [] ∷ []) (Offered (Peer 1) []) }
    ensures told { HandsIn zeros nobody 2 (Came (from_1 two_floors) ∷ []) (from_1 one_floor) }
    ensures silenced { HandsIn zeros nobody 2 (Came (from_1 one_floor) ∷ Came (from_1 lower_floor) ∷ []) (from_1 []) }
    ensures known { HandsIn zeros gone_1 2 (Came (from_1 one_floor) ∷ []) (from_1 []) }
    ensures not_lower { HandsIn zeros nobody 2 (Came (from_1 one_floor) ∷ []) (from_1 []) → ⊥ }
    ensures went_back { WentBack zeros 2 (Came (from_1 one_floor) ∷ Came (from_1 lower_floor) ∷ []) 1 (name_with 0xaa) }
    ensures equal_floors { WentBack zeros 2 (Came (from_1 equal_floor) ∷ Came (from_1 lower_floor) ∷ []) 1
        (name_with 0xaa) → ⊥ }
    ensures another_member { WentBack zeros 2 (Came (from_1 one_floor) ∷ Came (from_1 lower_floor) ∷ []) 3
        (name_with 0xaa) → ⊥ }
    ensures another_token { WentBack zeros 2 (Came (from_1 one_floor) ∷ Came (from_1 lower_floor) ∷ []) 1
        (name_with 0xcc) → ⊥ }
    ensures not_received { HandsIn zeros nobody 2 [] (from_1 one_floor) → ⊥ }
    ensures not_told { HandsIn zeros nobody 2 (Came (from_1 deny_of_9) ∷ []) (from_1 one_floor) → ⊥ }
    ensures from_another { HandsIn zeros nobody 2 (Came (from_1 one_floor) ∷ []) (Received (Peer 3) one_floor) → ⊥ }
    ensures to_itself { TellsFloors zeros book 2 5 (replicate 3 5) [] (Peer 2) [] → ⊥ }
    ensures to_a_client { TellsFloors zeros book 2 5 (replicate 3 5) [] (Client 1) [] → ⊥ }
    ensures own { IsOwnFloor book (5 ∷ 6 ∷ 7 ∷ []) [] (floor_of 0xbb 6) }
    ensures another_row { IsOwnFloor book (5 ∷ 6 ∷ 7 ∷ []) [] (floor_of 0xbb 5) → ⊥ }
    ensures bodies { IsBodyOf [] (0 ∷ []) → ⊥ }
    ensures not_fresh { IsNotFresh (fresh_rows (1 ∷ [])) (floor_of 0xcc 7) }
    ensures fresh { IsNotFresh (fresh_rows (1 ∷ [])) (floor_of 0xbb 6) → ⊥ }
    ensures another_floor { IsNotFresh (fresh_rows []) (floor_of 0xbb 7) → ⊥ }
{}

/// Worked cases. The setup of a port that tells floors has what it packs by, and the floors at its start.
pub fn setups_are_worked()
    ensures telling { telling_setup (new_packer (7 ∷ []) book 2 5 3 (start_with (8 ∷ 9 ∷ [])))
        (record (start_with (8 ∷ 9 ∷ [])) { gone_back = gone_1; known = heard_1 4 }) (Some bare_setup)
        ≡ Some (record bare_setup {
          namings = record {
            key = 7 ∷ [];
            names = (3 ∷ 8 ∷ 9 ∷ []) ∷ (0 ∷ 1 ∷ replicate 8 0) ∷ heard_1 4 ∷ book;
            me = 2;
            boot = 5;
          } ∷ [];
        }) }
    ensures over_none { telling_setup node_2 (start_with []) None ≡ None }
    ensures used { telling_setup (record node_2 { pace = pace_with 3 4; pending = left_of_1 [] })
        (start_with []) (Some bare_setup)
        ≡ telling_setup node_2 (start_with []) (Some bare_setup) }
{}

/// Counterexamples: the setup is another one for another key, other names, another node or boot, another number of
/// members, other floors, other members that went back, or another known boot.
pub fn setups_can_be_broken()
    ensures another_key { telling_setup (new_packer (7 ∷ []) book 2 5 3 (start_with [])) (start_with [])
        (Some bare_setup)
        ≡ telling_setup (new_packer (8 ∷ []) book 2 5 3 (start_with [])) (start_with []) (Some bare_setup) → ⊥ }
    ensures fewer_names { telling_setup (new_packer (7 ∷ []) book 2 5 3 (start_with [])) (start_with [])
        (Some bare_setup)
        ≡ telling_setup (new_packer (7 ∷ []) [] 2 5 3 (start_with [])) (start_with []) (Some bare_setup) → ⊥ }
    ensures another_node { telling_setup (new_packer (7 ∷ []) book 2 5 3 (start_with [])) (start_with [])
        (Some bare_setup)
        ≡ telling_setup (new_packer (7 ∷ []) book 1 5 3 (start_with [])) (start_with []) (Some bare_setup) → ⊥ }
    ensures another_boot { telling_setup (new_packer (7 ∷ []) book 2 5 3 (start_with [])) (start_with [])
        (Some bare_setup)
        ≡ telling_setup (new_packer (7 ∷ []) book 2 6 3 (start_with [])) (start_with []) (Some bare_setup) → ⊥ }
    ensures more_members { telling_setup (new_packer (7 ∷ []) book 2 5 3 (start_with [])) (start_with [])
        (Some bare_setup)
        ≡ telling_setup (new_packer (7 ∷ []) book 2 5 4 (start_with [])) (start_with []) (Some bare_setup) → ⊥ }
    ensures second_floor { telling_setup (new_packer (7 ∷ []) book 2 5 3 (start_with [])) (start_with (8 ∷ 9 ∷ []))
        (Some bare_setup)
        ≡ telling_setup (new_packer (7 ∷ []) book 2 5 3 (start_with [])) (start_with (8 ∷ 8 ∷ []))
        (Some bare_setup) → ⊥ }
    ensures another_gone_back { telling_setup node_2 (start_with []) (Some bare_setup)
        ≡ telling_setup node_2 (record (start_with []) { gone_back = gone_1 }) (Some bare_setup) → ⊥ }
    ensures another_known { telling_setup node_2 (start_with []) (Some bare_setup)
        ≡ telling_setup node_2 (record (start_with []) { known = heard_1 4 }) (Some bare_setup) → ⊥ }
    ensures not_telling { telling_setup node_2 (start_with []) (Some bare_setup) ≡ Some bare_setup → ⊥ }
{}
