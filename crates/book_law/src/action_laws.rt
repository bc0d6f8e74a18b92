//! The worked cases of single actions, and of nodes that lose their stores.

ghost use Rattle.std.specs.Prelude.{◌≡◌, ◌-◌, ℕ, suc, [], ◌∷◌, ◌++◌, List, true, false, map, None, codes};
ghost use Rattle.admit_core.specs.Throttle.{Accepted as Passed};
ghost use Rattle.cluster_sim.specs.Results.{results_in as results_noted};
ghost use Rattle.cluster_sim.specs.World.{note_anew};
ghost use Rattle.oath_node.specs.Machine.{Tick, opened_node};
ghost use Rattle.vote_core.specs.Schedule.{last_boot};
ghost use Rattle.book_law.specs.ActionExamples.{answer_out, floor_comes, floor_out, loses_two, made_anew, makes_two, open_machine, open_with, tells_both, uneven_rows};
ghost use Rattle.book_law.specs.Examples.{alone, maple_first, maple_line, old_floor, shut_rows, silver_alone, silver_row, three, three_with_old, two_rows};
ghost use Rattle.book_law.specs.Lives.{Down, Enrols, FailsToOpen, Loses, Offers, Opens, OpensGate, Raises, Remakes, Stops, StopsIn, Takes, ToPeer, Unlocks, Up, answers_among, first_state, floor_in, floor_of, lost_after, made_boot, notes_by, offers_by, outputs_of_step, process_after, process_cut, process_half_opened, process_opened, seen_in, state_of, store_at, store_in_next_boot, store_under, store_with_rows};
ghost use Rattle.book_law.specs.Results.{LeaveGate, results_in};
ghost use Rattle.book_law.specs.Uses.{first_store};

/// Worked cases.
pub fn actions_are_worked()
    // A process opens in the next boot. At the last boot no process opens, and none fails with a raised boot.
    ensures opens { process_opened silver_alone silver_row
        ≡ Up silver_alone silver_row (opened_node (seen_in silver_row (0 ∷ []))) [] }
    ensures boot { open_machine.content.boot ≡ 1 }
    ensures opens_no_more { process_opened silver_alone (store_with_rows last_boot (0 ∷ []) (λ token. 0))
        ≡ Down (store_with_rows last_boot (0 ∷ []) (λ token. 0)) }
    ensures half_opens { process_half_opened true (store_with_rows 3 (0 ∷ []) (λ token. 9))
        ≡ Down (store_with_rows 4 (0 ∷ []) (λ token. 9)) }
    ensures half_opens_no_more { process_half_opened true (store_with_rows last_boot (0 ∷ []) (λ token. 9))
        ≡ Down (store_with_rows last_boot (0 ∷ []) (λ token. 9)) }
    ensures opens_in_vain { process_half_opened false (store_with_rows 3 (0 ∷ []) (λ token. 9))
        ≡ Down (store_with_rows 3 (0 ∷ []) (λ token. 9)) }
    // A node has one process, and its store takes no commands.
    ensures one_process { process_after alone 0 (Opens 1 silver_alone) (open_with []) ≡ open_with [] }
    ensures half_opens_nothing { process_after alone 0 (FailsToOpen 1 true) (open_with []) ≡ open_with [] }
    ensures unlocks_at_no_process { process_after alone 0 (Unlocks 1 0) (open_with []) ≡ open_with [] }
    ensures raises_at_no_process { process_after alone 0 (Raises 1 0 9) (open_with []) ≡ open_with [] }
    // A process hands out datagrams before answers, one at a time.
    ensures handed_out { outputs_of_step maple_first 5 1 tells_both ≡ floor_out ∷ answer_out ∷ [] }
    ensures first_offered { offers_by (Offers 1) (open_with (floor_out ∷ answer_out ∷ [])) ≡ floor_out ∷ [] }
    ensures rest_waits { process_after alone 0 (Offers 1) (open_with (floor_out ∷ answer_out ∷ []))
        ≡ open_with (answer_out ∷ []) }
    ensures all_offered { offers_by (Offers 1) (open_with []) ≡ [] }
    ensures taken_is_not_offered { offers_by (Takes 1 Tick) (open_with (floor_out ∷ [])) ≡ [] }
    ensures waits_in_order { offers_by (Offers 1) (process_after alone 0 (Takes 1 maple_line)
        (open_with (floor_out ∷ []))) ≡ floor_out ∷ [] }
    ensures answers { answers_among (floor_out ∷ answer_out ∷ floor_out ∷ [])
        ≡ record { event = 5; node = 1; client = 7; bytes = codes "NO" } ∷ [] }
    // A stop keeps the boot. Inside a step it keeps the change, or loses it with its note.
    ensures stops { process_after alone 0 (Stops 1) (open_with (floor_out ∷ []))
        ≡ Down (store_with_rows 1 (0 ∷ []) (λ token. 0)) }
    ensures keeps { process_cut three 1 true floor_comes silver_alone silver_row open_machine
        ≡ Down (store_with_rows 1 (0 ∷ []) (λ token. 9)) }
    ensures loses { process_cut three 1 false floor_comes silver_alone silver_row open_machine
        ≡ Down (store_with_rows 1 (0 ∷ []) (λ token. 0)) }
    ensures note_is_lost { notes_by three 0 (StopsIn 1 false floor_comes) (open_with []) ≡ [] }
    // A command changes one row of a store.
    ensures unlocks { process_after alone 0 (Unlocks 1 3) (Down shut_rows) ≡ Down (two_rows None) }
    ensures unlocks_another { process_after alone 0 (Unlocks 1 5) (Down shut_rows) ≡ Down shut_rows }
    ensures raises { map (floor_of (store_at (process_after alone 0 (Raises 1 3 40) (Down (two_rows None)))))
        (3 ∷ 5 ∷ []) ≡ 40 ∷ 50 ∷ [] }
    ensures raises_lower { process_after alone 0 (Raises 1 3 20) (Down (two_rows None)) ≡ Down (two_rows None) }
    ensures unlocking { results_in alone (Enrols 1 0 0 ∷ Unlocks 1 0 ∷ []) 1 0 ≡ Passed ∷ [] }
    ensures unlocking_of_another { results_in alone (Enrols 1 0 0 ∷ Enrols 1 1 0 ∷ Unlocks 1 0 ∷ []) 1 1 ≡ [] }
    ensures unlocking_elsewhere { results_in three (Enrols 1 0 0 ∷ Unlocks 1 0 ∷ []) 2 0 ≡ [] }
    // An unlocking ends the count of failures, and has no note.
    ensures unlocking_is_no_note { results_noted (state_of alone (Enrols 1 0 0 ∷ Unlocks 1 0 ∷ [])).notes 1 0 ≡ [] }
    ensures leaves_the_gate { LeaveGate 1 0 (Unlocks 2 0 ∷ Unlocks 1 1 ∷ OpensGate 2 0 ∷ OpensGate 1 1 ∷ []) }
    ensures unlocks_the_gate { LeaveGate 1 0 (Stops 1 ∷ Unlocks 1 0 ∷ []) → ⊥ }
    ensures opens_the_gate { LeaveGate 1 0 (Stops 1 ∷ OpensGate 1 0 ∷ []) → ⊥ }
    // An action changes its own node alone. A floor is the one before the action.
    ensures own_node { (state_of three (Enrols 1 0 4 ∷ [])).processes 2 ≡ Down (first_store three 2) }
    ensures stranger { (state_of alone (Enrols 2 0 4 ∷ [])).processes 2 ≡ Down (first_store alone 2) }
    ensures floor_before { floor_in three (Enrols 1 0 4 ∷ Raises 1 0 9 ∷ []) 1 0 1 ≡ 4 }
    // The first stores are there, each in its boot. What was sent in former times was offered.
    ensures first_boots { map (made_boot (record three { boots = 5 ∷ 7 ∷ [] })) (1 ∷ 2 ∷ 3 ∷ []) ≡ 5 ∷ 7 ∷ 0 ∷ [] }
    ensures none_is_lost { (first_state three).lost 1 ≡ false }
    ensures sent_before { (first_state three_with_old).offered ≡ ToPeer old_floor ∷ [] }
{}

/// Worked cases.
pub fn losses_are_worked()
    // A lost node has its rows in a boot that no process used, and does nothing.
    ensures gone { (state_of three (uneven_rows ++ Loses 1 ∷ [])).processes 1
        ≡ Down (store_with_rows 1 (0 ∷ []) (λ token. 2)) }
    ensures nothing_there { (state_of three (uneven_rows ++ Loses 1 ∷ Enrols 1 1 4 ∷ [])).processes 1
        ≡ Down (store_with_rows 1 (0 ∷ []) (λ token. 2)) }
    // A replacement store needs the floors that the remaining nodes had at the latest loss.
    ensures least { (state_of three (uneven_rows ++ Loses 1 ∷ [])).least 0 ≡ 1 }
    ensures least_of_the_others { (state_of three (uneven_rows ++ Loses 2 ∷ [])).least 0 ≡ 2 }
    ensures least_stays { (state_of three (uneven_rows ++ Loses 1 ∷ Raises 2 0 9 ∷ [])).least 0 ≡ 1 }
    ensures least_of_the_third { (state_of three loses_two).least 0 ≡ 0 }
    ensures lost_before { (state_of three loses_two).lost 1 ≡ true }
    ensures lost_again { (state_of three loses_two).lost 2 ≡ true }
    ensures other_stays_lost { lost_after (Remakes 1 2 [] (λ token. 0)) (λ node. true) 2 ≡ true }
    // It has the given rows, floors and boot, and a note.
    ensures made { (state_of three (made_anew 5 3)).processes 1 ≡ Down (store_with_rows 5 (0 ∷ []) (λ token. 3)) }
    ensures there_again { (state_of three (made_anew 5 3)).lost 1 ≡ false }
    ensures noted { (state_of three makes_two).notes ≡ note_anew 6 2 ∷ note_anew 4 1 ∷ [] }
    ensures too_low { (state_of three (made_anew 5 0)).lost 1 ≡ true }
    ensures least_floor { (state_of three (made_anew 5 1)).lost 1 ≡ false }
    ensures used_boot { (state_of three (made_anew 0 1)).lost 1 ≡ true }
    ensures next_boot { (state_of three (made_anew 1 1)).lost 1 ≡ false }
    ensures in_the_last_boot { (state_of three (made_anew last_boot 1)).lost 1 ≡ false }
    ensures past_the_last_boot { (state_of three (made_anew (suc last_boot) 1)).lost 1 ≡ true }
    ensures too_many { (state_of three (loses_two ++ Remakes 1 5 (0 ∷ []) (λ token. 9) ∷ [])).lost 1 ≡ true }
    ensures not_lost { (state_of three (uneven_rows ++ Remakes 1 5 (0 ∷ []) (λ token. 9) ∷ [])).processes 1
        ≡ Down (store_with_rows 0 (0 ∷ []) (λ token. 2)) }
{}
