//! Worked interleavings, and interleavings that break one condition.

ghost use Rattle.std.specs.Prelude.{◌≡◌, ◌++◌, [], ◌∷◌, ℕ, List, Option, None, Some, codes, ◌+◌};
ghost use Rattle.client_lines.specs.declared.answer.Outcome.TheVariants.{Accepted};
ghost use Rattle.cluster_sim.specs.Examples.{told_outcome};
ghost use Rattle.otp_core.specs.Acceptance.{HaveSingleUse};
ghost use Rattle.vote_core.specs.Cases.{accepted};
ghost use Rattle.book_law.specs.Broken.{old_grant};
ghost use Rattle.book_law.specs.Examples.{alone, first_key, grant_for, maple_alone, maple_first, silver_alone, silver_first, silver_line, silver_row, silver_text, three, silver_ok};
ghost use Rattle.book_law.specs.Lives.{Enrols, Offers, Raises, Stops, Takes, accepted_in, answered_in, store_with_rows, Setting, Store, Terms, seen_in, store_under};
ghost use Rattle.oath_node.specs.Machine.{Tick, opened_node};
ghost use Rattle.book_law.specs.PartExamples.{replied, silver_taken, silver_opened};
ghost use Rattle.book_law.specs.SeedExamples.{one_device};
ghost use Rattle.book_law.specs.Uses.{WasProcess};
ghost use Rattle.datagram_port.specs.Port.{Received};
ghost use Rattle.datagram_port.specs.declared.port.Sender.TheVariants.{Client as ToLine};
ghost use Rattle.floor_store.specs.Content.{Content};
ghost use Rattle.vote_core.specs.Schedule.{last_boot};
ghost use Rattle.vote_wire.specs.Key.{bare};
ghost use Rattle.oath_node.specs.Turns.{FromPeer};
ghost use Rattle.vote_wire.specs.Datagram.{datagram_bytes};
ghost use Rattle.book_law.specs.Seeds.{AreGreatest, HaveSeedsOnce};
ghost use Rattle.order_law.specs.Devices.{AreGreatestSteps, IsGreatestStep, StartsAreGreatest};
ghost use Rattle.order_law.specs.Examples.{accepted_twice, accepts, alone_with, answered, ask_to, asks, at, both_start, commits_line, forged, grant_of, granted_early, grants, heard, hears, hears_grant, hears_line, hears_silver, maple_ahead, opened, says_ok, silver_login, stint, takes_ask, waits, floor_told, heard_in, waiting_in};
ghost use Rattle.order_law.specs.Interleavings.{AreOfMembers, IsCaused, IsCausal, IsInterleaving, ToClientSaid, ToMemberSaid, first_place, history_of, said_in, said_of, steps_at, AreCaused, AreReplaced, Item, Said, places_after, said_before, said_by};
ghost use Rattle.order_law.specs.Steps.{AreOfProcess, Closed, Commits, Does, Ends, Gets, Gone, HasSteps, IsOfProcess, IsStep, Loses, Open, Pauses, Replies, Says, Sends, Starts, actions_of, cleared_in, entries_of_steps, live_at, Hears, Place, place_after, place_in_end};

/// Worked cases: a login with a Grant that another node said before.
pub fn interleavings_are_worked()
    ensures interleaving { IsInterleaving three silver_login }
    ensures causal { IsCausal three silver_login }
    ensures accepted { accepted_in three (history_of silver_login) ≡ accepted 6 11 1 0 0 0 ∷ [] }
    ensures answered { answered_in three (history_of silver_login)
        ≡ told_outcome 11 1 7 (codes "1") (Accepted 0) ∷ [] }
    ensures alone { IsCausal alone (alone_with (hears_line ∷ commits_line ∷ says_ok ∷ Ends [] ∷ [])) }
    // A process may end inside its batch: before the commit, at it, or before its answer is said.
    ensures ends_unheard { IsInterleaving alone (alone_with (hears_line ∷ Ends [] ∷ [])) }
    ensures ends_at_the_commit { IsInterleaving alone (alone_with (hears_line ∷ Ends (silver_line ∷ []) ∷ [])) }
    ensures ends_silent { IsInterleaving alone (alone_with (hears_line ∷ commits_line ∷ Ends [] ∷ [])) }
    // The process pauses before the line, and an operator clears silver's gate.
    ensures paused { HasSteps alone 1 silver_alone bare silver_row (Some 0 ∷ [])
        (Received (ToLine 7) silver_text ∷ replied (codes "1") (Accepted 0) ∷ []) silver_taken }
    // Node 1 loses its store, and gets another one with the floors that node 2 has.
    ensures replaced { IsCausal three (silver_login ++ at 1 Loses ∷ at 1 (Gets 2 (0 ∷ []) (λ token. 1)) ∷ []) }
    ensures former { IsCausal (old_grant 2) [] }
    // The port of a process recorded the line, and then the answer.
    ensures recorded { HasSteps alone 1 silver_alone bare silver_row []
        (Received (ToLine 7) silver_text ∷ replied (codes "1") (Accepted 0) ∷ []) silver_taken }
{}

/// Counterexamples: each condition of an interleaving and of its causes fails for a minimal one.
pub fn interleavings_can_be_broken()
    // The steps of each node are the same, and node 1 reads the Grant before node 2 said it.
    ensures early { IsInterleaving three granted_early }
    // Its actions are those of the login, since an input is taken where it is committed.
    ensures early_actions { history_of granted_early ≡ history_of silver_login }
    ensures early_cause { IsCausal three granted_early → ⊥ }
    ensures forged { IsInterleaving three forged }
    ensures forged_cause { IsCausal three forged → ⊥ }
    ensures former_of_the_boot { IsCausal (old_grant 1) [] → ⊥ }
    // Without causes a code is accepted at two nodes.
    ensures twice { IsInterleaving three accepted_twice }
    ensures accepted_twice { accepted_in three (history_of accepted_twice)
        ≡ accepted 6 9 1 0 0 0 ∷ accepted 11 14 2 0 0 0 ∷ [] }
    ensures not_single_use { HaveSingleUse (accepted_in three (history_of accepted_twice)) → ⊥ }

    // A record with the answer before the line is one of a process by its receives and its offers, and of no steps.
    ensures reversed_record { WasProcess alone 1 silver_alone bare silver_row
        (replied (codes "1") (Accepted 0) ∷ Received (ToLine 7) silver_text ∷ []) silver_taken }
    ensures reversed { (tokens : List (Option ℕ)) (left : Content) → HasSteps alone 1 silver_alone bare silver_row
        tokens (replied (codes "1") (Accepted 0) ∷ Received (ToLine 7) silver_text ∷ []) left → ⊥ }

    // A node's steps in another order, or with one left out.
    ensures says_before_it_commits { IsInterleaving alone (alone_with (hears_line ∷ says_ok ∷ commits_line ∷ [])) → ⊥ }
    ensures without_the_commit { IsInterleaving alone (alone_with (hears_line ∷ says_ok ∷ [])) → ⊥ }
    ensures without_the_receive { IsInterleaving alone (alone_with (commits_line ∷ says_ok ∷ [])) → ⊥ }
    // A lost store.
    ensures replaced_too_low { IsInterleaving three
        (silver_login ++ at 1 Loses ∷ at 1 (Gets 2 (0 ∷ []) (λ token. 0)) ∷ []) → ⊥ }
    ensures replaced_at_a_used_boot { IsInterleaving three
        (silver_login ++ at 1 Loses ∷ at 1 (Gets 1 (0 ∷ []) (λ token. 1)) ∷ []) → ⊥ }
    ensures of_no_member { IsInterleaving three (at 4 (Does (Enrols 4 0 0)) ∷ []) → ⊥ }
    // The rule of replacements alone.
    ensures rule_of_no_replacement { AreReplaced three [] }
    ensures rule_of_floors { AreReplaced three (silver_login ++ at 1 Loses ∷ at 1 (Gets 2 (0 ∷ []) (λ token. 0)) ∷ [])
        → ⊥ }
    ensures rule_of_boots { AreReplaced three (silver_login ++ at 1 Loses ∷ at 1 (Gets 1 (0 ∷ []) (λ token. 1)) ∷ [])
        → ⊥ }
    ensures rule_of_losses { AreReplaced three (at 1 (Gets 2 (0 ∷ []) (λ token. 1)) ∷ []) → ⊥ }
{}

/// Counterexamples: each condition of a node's next step fails for a minimal one.
pub fn steps_can_be_broken()
    ensures hears { IsStep alone 1 opened hears_line }
    ensures commits { IsStep alone 1 heard commits_line }
    ensures says { IsStep alone 1 waits says_ok }
    ensures hears_more { IsStep alone 1 heard hears_line }
    ensures hears_again { IsStep alone 1 answered hears_line }
    ensures hears_before_it_says { IsStep alone 1 waits hears_line → ⊥ }
    ensures commits_before_it_hears { IsStep alone 1 opened commits_line → ⊥ }
    ensures commits_less { IsStep alone 1 heard (Commits []) → ⊥ }
    ensures commits_twice { IsStep alone 1 waits commits_line → ⊥ }
    ensures says_before_it_commits { IsStep alone 1 heard says_ok → ⊥ }
    ensures says_another { IsStep alone 1 waits (Says (Replies 7 [])) → ⊥ }
    ensures says_twice { IsStep alone 1 answered says_ok → ⊥ }
    ensures pauses_in_a_batch { IsStep alone 1 heard (Pauses None) → ⊥ }
    ensures pauses_before_it_says { IsStep alone 1 waits (Pauses None) → ⊥ }
    ensures ends_with_more { IsStep alone 1 opened (Ends (silver_line ∷ [])) → ⊥ }
    ensures ends_with_another { IsStep alone 1 heard (Ends (Tick ∷ [])) → ⊥ }
    ensures starts_twice { IsStep alone 1 opened (Starts silver_alone bare) → ⊥ }
    ensures starts_without_a_row { IsStep alone 1 (first_place alone 1) (Starts silver_alone bare) → ⊥ }
    ensures starts_at_the_last_boot { IsStep alone 1 (Closed (store_with_rows last_boot (0 ∷ []) (λ token. 0)))
        (Starts silver_alone bare) → ⊥ }
    ensures command_beside_a_process { IsStep alone 1 opened (Does (Enrols 1 1 0)) → ⊥ }
    ensures command_of_another { IsStep alone 1 (Closed silver_row) (Does (Enrols 2 0 0)) → ⊥ }
    ensures hears_without_a_process { IsStep alone 1 (Closed silver_row) hears_line → ⊥ }
    ensures replaced_unlost { IsStep alone 1 (Closed silver_row) (Gets 2 (0 ∷ []) (λ token. 1)) → ⊥ }
    ensures starts_without_a_store { IsStep alone 1 (Gone silver_row) (Starts silver_alone bare) → ⊥ }
    ensures loses_twice { IsStep alone 1 (Gone silver_row) Loses → ⊥ }
    ensures of_one_process { AreOfProcess (hears_line ∷ commits_line ∷ says_ok ∷ Pauses None ∷ []) }
    ensures ends_a_process { IsOfProcess (Ends []) → ⊥ }
    ensures starts_a_process { IsOfProcess (Starts silver_alone bare) → ⊥ }
    ensures cleared { cleared_in (hears_line ∷ Pauses (Some 0) ∷ Pauses None ∷ []) ≡ Some 0 ∷ None ∷ [] }
{}

/// Worked cases: what a record, a history and what was said have of steps and items.
pub fn orders_are_worked()
    ensures entries { entries_of_steps bare (hears_line ∷ commits_line ∷ says_ok ∷ [])
        ≡ Received (ToLine 7) silver_text ∷ replied (codes "1") (Accepted 0) ∷ [] }
    ensures own_steps { steps_at 2 (hears_silver ∷ grants ∷ hears_grant ∷ []) ≡ Says (Sends (grant_of 1)) ∷ [] }
    ensures actions { history_of (hears_silver ∷ grants ∷ accepts)
        ≡ Offers 2 ∷ Takes 1 (grant_for 0) ∷ Offers 1 ∷ [] }
    ensures commit_in_an_end { actions_of 1 (Ends (silver_line ∷ [])) ≡ Takes 1 silver_line ∷ Stops 1 ∷ [] }
    // Node 2's number of silver is 1, and her canonical token 0.
    ensures said { said_of maple_first 2 (Sends (grant_of 1))
        ≡ ToMemberSaid (record { key = first_key; envelope = grant_of 0 }) }
    ensures answer_said { said_of maple_first 2 (Replies 7 silver_text) ≡ ToClientSaid 2 7 silver_text }
    ensures said_in_the_login { said_in three (first_place three) (both_start ++ asks ++ takes_ask ++ grants ∷ [])
        ≡ ToMemberSaid (record { key = first_key; envelope = ask_to 2 0 })
        ∷ ToMemberSaid (record { key = first_key; envelope = ask_to 3 0 })
        ∷ ToMemberSaid (record { key = first_key; envelope = grant_of 0 }) ∷ [] }
    ensures said_in_former_times { said_before (old_grant 2)
        ≡ ToMemberSaid (record { key = first_key; envelope = grant_of 0 }) ∷ [] }
    ensures heard_unsaid { IsCaused (Open (live_at silver_first bare silver_row)) [] (hears (grant_of 0)) → ⊥ }
    // What nobody need have said: a floor, what comes from another address, and a vote about a number without a seat.
    ensures heard_floor { IsCaused (Open (live_at silver_first bare silver_row)) [] (hears floor_told) }
    ensures heard_from_another { IsCaused (Open (live_at silver_first bare silver_row)) []
        (Hears (FromPeer 3 (datagram_bytes bare 2 1 (grant_of 0).message))) }
    ensures heard_for_nobody { IsCaused (Open (live_at silver_first bare silver_row)) [] (hears (grant_of 7)) }
    ensures first_cause { (setting : Setting) (places : ℕ → Place) (said : List Said) (item : Item) (items : List Item)
        → AreCaused setting places said (item ∷ items) → IsCaused (places item.node) said item.step }
    ensures later_causes { (setting : Setting) (places : ℕ → Place) (said : List Said) (item : Item)
        (items : List Item) → AreCaused setting places said (item ∷ items)
        → AreCaused setting (places_after setting places item)
        (said ++ said_by item.node (places item.node) item.step) items }
    ensures causes { (setting : Setting) (items : List Item) → IsCausal setting items
        → AreCaused setting (first_place setting) (said_before setting) items }
    ensures of_members { AreOfMembers three (at 3 Loses ∷ at 1 Loses ∷ []) }
    ensures of_no_member { AreOfMembers three (at 4 Loses ∷ []) → ⊥ }
    ensures of_no_member_later { AreOfMembers three (at 1 Loses ∷ at 0 Loses ∷ []) → ⊥ }
{}

/// Worked cases, and counterexamples: each start of a process that breaks one rule of openings.
pub fn starts_can_be_broken()
    ensures greatest { IsGreatestStep one_device (Closed maple_ahead) (Starts maple_alone bare) }
    ensures lower { IsGreatestStep one_device (Closed maple_ahead) (Starts silver_alone bare) → ⊥ }
    ensures both { IsGreatestStep one_device (Closed maple_ahead) (Starts maple_first bare) → ⊥ }
    ensures steps { AreGreatestSteps one_device alone 1 (Closed maple_ahead) (stint maple_alone) }
    ensures first_lower { AreGreatestSteps one_device alone 1 (Closed maple_ahead) (stint silver_alone) → ⊥ }
    // A later process finds what the one before it left.
    ensures then_lower { AreGreatestSteps one_device alone 1 (Closed maple_ahead)
        (stint maple_alone ++ stint silver_alone) → ⊥ }
    ensures raised { AreGreatestSteps one_device alone 1 (Closed maple_ahead)
        (Does (Raises 1 0 2) ∷ stint silver_alone) }
    ensures raised_another { AreGreatestSteps one_device alone 1 (Closed maple_ahead)
        (Does (Raises 1 1 3) ∷ stint silver_alone) → ⊥ }
    // Each member's starts keep the rule.
    ensures members { StartsAreGreatest one_device three (at 2 (Does (Enrols 2 0 0)) ∷ at 2 (Does (Enrols 2 1 1))
        ∷ at 2 (Starts silver_alone bare) ∷ []) → ⊥ }
    ensures no_starts { StartsAreGreatest one_device three [] }
    ensures once { (seed : ℕ → ℕ) (terms : Terms) (port : List ℕ) (store : Store)
        → IsGreatestStep seed (Closed store) (Starts terms port) → HaveSeedsOnce seed terms.seats }
    ensures each_greatest { (seed : ℕ → ℕ) (terms : Terms) (port : List ℕ) (store : Store)
        → IsGreatestStep seed (Closed store) (Starts terms port) → AreGreatest seed terms.seats store }
{}

/// Worked cases: where a step leads node 1, which is alone.
pub fn places_are_worked()
    ensures starts { place_after alone 1 (Closed silver_row) (Starts silver_alone bare) ≡ opened }
    ensures begins { live_at silver_alone bare silver_row ≡ record {
      terms = silver_alone;
      port = bare;
      found = silver_row;
      state = opened_node (seen_in silver_row (0 ∷ []));
      received = 0;
      heard = [];
      waiting = [];
    } }
    ensures hears { heard ≡ Open (record (live_at silver_alone bare silver_row) {
      received = 1;
      heard = silver_line ∷ [];
    }) }
    ensures commits { heard_in waits ≡ [] }
    ensures says { waiting_in waits ≡ Replies 7 silver_ok.bytes ∷ [] }
    ensures said { waiting_in answered ≡ [] }
    ensures pauses { place_after alone 1 heard (Pauses None)
        ≡ Open (record (live_at silver_alone bare silver_row) { heard = silver_line ∷ [] }) }
    ensures ends { place_after alone 1 opened (Ends [])
        ≡ Closed (store_under (0 ∷ []) silver_opened silver_row) }
    ensures ends_at_the_commit { place_after alone 1 heard (Ends (silver_line ∷ []))
        ≡ Closed (store_under (0 ∷ []) silver_taken silver_row) }
    ensures loses { place_after alone 1 (Closed silver_row) Loses ≡ Gone (store_with_rows 1 (0 ∷ []) (λ token. 0)) }
    ensures loses_inside { place_after alone 1 opened Loses ≡ Gone (store_with_rows 2 (0 ∷ []) (λ token. 0)) }
    ensures gets { place_after alone 1 (Gone silver_row) (Gets 5 (0 ∷ 1 ∷ []) (λ token. token + 3))
        ≡ Closed (store_with_rows 5 (0 ∷ 1 ∷ []) (λ token. token + 3)) }
    ensures in_end { place_in_end alone 1 (Closed silver_row)
        (Starts silver_alone bare ∷ hears_line ∷ commits_line ∷ says_ok ∷ []) ≡ answered }
{}
