//! Worked cases and counterexamples. Floor: the first free factor of a token at a node.

ghost use Rattle.std.specs.Prelude.{◌≡◌, ◌+◌, ◌^◌, ◌<◌, ◌≤◌, ◌++◌, [], ◌∷◌, List, None, Some, codes, false, length, map, replicate, slice_get, true, ℕ};
ghost use Rattle.std.specs.List.{filter};
ghost use Rattle.client_lines.specs.declared.answer.Outcome.TheVariants.{Accepted, Refused};
ghost use Rattle.client_lines.specs.declared.answer.Reason.TheVariants.{Invalid};
ghost use Rattle.cluster_sim.specs.Examples.{acceptance, config, told_outcome};
ghost use Rattle.cluster_sim.specs.World.{Anew, Cut, Happens, Lost, Restart, Ticks, WorldEvent};
ghost use Rattle.oath_node.specs.Machine.{Peer, Tick};
ghost use Rattle.vote_core.specs.Schedule.{last_boot};
ghost use Rattle.book_law.specs.Lives.{Action, Enrols, FailsToOpen, IsHistory, Loses, Offers, Opens, OpensGate, Raises, Remakes, State, Stops, StopsIn, Takes, Unlocks, accepted_in, answered_in, state_of};
ghost use Rattle.world_law.specs.Broken.{answers_late, answers_twice_late, both_users, late_node, old_floor_comes, opened_machine, other_key, owning_machine, pending_machine, second_floor_comes, stops_between, stops_late, tokens_open, two_floors, uneven_open, uneven_tokens, with_machine};
ghost use Rattle.world_law.specs.Bytes.{IsSized, IsUnforged, IsUnforgedAction, IsUnforgedHistory};
ghost use Rattle.world_law.specs.Examples.{among_strangers, answers_once, ask, comes, comes_to_nobody, ends_before_the_answer, ends_in_the_step, first_ok, floor_comes, floor_from_nobody, forged_grant_comes, grant, grant_before_its_offer, grant_from, granted_by_two, nodes_after, offered_by, one_node, one_open, one_row, one_terms, opens_one, right_line, stop_in_a_forged_grant, takes_twice, three_nodes, three_rows, three_terms, told_by_reference, two_open};
ghost use Rattle.world_law.specs.SingleNode.{IsPartOf};
ghost use Rattle.world_law.specs.Steady.{AreEnrolled, AreSteady, IsSteady, SteadyCluster, enrolments_of, new_cluster, setting_of, tokens_of};
ghost use Rattle.world_law.specs.Sweeps.{IsLive, IsSweep, IsSwept, IsTick, greatest_in, is_step_of, next_in};
ghost use Rattle.world_law.specs.Worlds.{HasAct, HasEvent, IsActOf, IsEventOf, IsExplained, IsRunOf, nothing};

/// Worked cases.
pub fn steady_histories_are_worked()
    ensures enrolled { AreEnrolled one_node one_row }
    ensures enrolled_three { AreEnrolled three_nodes three_rows }
    ensures enrolments { enrolments_of three_nodes ≡ three_rows }
    ensures is_steady { IsSteady one_node one_row answers_once }
    ensures accepted { accepted_in (setting_of one_node) (one_row ++ answers_once) ≡ acceptance 2 2 1 0 0 ∷ [] }
    ensures answered { answered_in (setting_of one_node) (one_row ++ answers_once) ≡ first_ok ∷ [] }
    ensures accepted_by_three { accepted_in (setting_of three_nodes) (three_rows ++ granted_by_two)
        ≡ acceptance 5 9 1 0 0 ∷ [] }
    ensures steady_among_three { IsSteady three_nodes three_rows granted_by_two }
    // Noise, from another address than its sender's.
    ensures noise { IsSteady three_nodes three_rows (grant_from 3) }
    ensures lost_and_replaced { AreSteady three_terms (Loses 1 ∷ Remakes 1 2 (0 ∷ []) (λ token. 4) ∷ []) }
{}

/// Counterexamples: each condition of a history of a cluster whose users file never changes fails for a minimal one.
pub fn steady_histories_can_be_broken()
    ensures no_row { AreEnrolled one_node [] → ⊥ }
    ensures another_floor { AreEnrolled one_node (Enrols 1 0 4 ∷ []) → ⊥ }
    ensures second_member_without_a_row { AreEnrolled three_nodes one_row → ⊥ }
    ensures rows_in_another_order { AreEnrolled both_users (Enrols 1 1 0 ∷ Enrols 1 0 0 ∷ []) → ⊥ }
    ensures more_than_rows { AreEnrolled one_node (Enrols 1 0 0 ∷ Unlocks 2 0 ∷ []) → ⊥ }
    ensures other_terms { AreSteady one_terms (Opens 1 other_key ∷ []) → ⊥ }
    ensures enrols { AreSteady one_terms (Enrols 1 0 0 ∷ []) → ⊥ }
    ensures unlocks { AreSteady one_terms (Unlocks 1 0 ∷ []) → ⊥ }
    ensures opens_gate { AreSteady one_terms (OpensGate 1 0 ∷ []) → ⊥ }
    ensures raises { AreSteady one_terms (Raises 1 0 5 ∷ []) → ⊥ }
    ensures second_action { AreSteady one_terms (opens_one ∷ Raises 1 0 5 ∷ []) → ⊥ }
    ensures replaced_without_its_row { AreSteady one_terms (Remakes 1 2 [] (λ token. 0) ∷ []) → ⊥ }
    ensures replaced_at_the_last_boot { AreSteady one_terms (Remakes 1 last_boot (0 ∷ []) (λ token. 0) ∷ []) → ⊥ }
    ensures forged { IsSteady three_nodes three_rows (grant_from 2) → ⊥ }
    ensures forged_in_a_stop { IsSteady three_nodes three_rows stop_in_a_forged_grant → ⊥ }
    ensures not_offered_yet { IsSteady three_nodes three_rows grant_before_its_offer → ⊥ }
    // Any floor may be told in a history of nodes, and here only one that was offered.
    ensures floor_from_nobody { IsSteady three_nodes three_rows floor_from_nobody → ⊥ }
    ensures history_with_it { IsHistory (setting_of three_nodes) (three_rows ++ floor_from_nobody) }
    ensures of_the_boot { IsSteady (nodes_after (1 ∷ []) grant) three_rows [] → ⊥ }
{}

/// Worked cases, and counterexamples: bytes that were forged, and floors out of range.
pub fn unforged_bytes_can_be_broken()
    ensures unread { IsUnforged three_terms [] (Peer 2 None) }
    ensures noise { IsUnforged three_terms [] (Peer 3 (Some grant)) }
    ensures offered { IsUnforged three_terms (offered_by three_nodes grant) (comes grant) }
    ensures forged { IsUnforged three_terms [] (comes grant) → ⊥ }
    ensures offered_by_another { IsUnforged three_terms (offered_by three_nodes ask) (comes grant) → ⊥ }
    ensures offered_under_another_key { IsUnforged three_terms (offered_by one_node grant) (comes grant) → ⊥ }
    ensures forged_in_the_history { IsUnforgedHistory three_nodes three_rows (grant_from 2) → ⊥ }
    ensures forged_in_a_stop { IsUnforgedHistory three_nodes three_rows stop_in_a_forged_grant → ⊥ }
    ensures out_of_range { IsUnforgedAction two_open (Remakes 1 2 (0 ∷ []) (λ token. 2 ^ 62 + 1)) → ⊥ }
    ensures too_many_nodes { IsSized (new_cluster config [] (replicate 10 (0 ∷ []))) → ⊥ }
    ensures first_floor_out_of_range { IsSized (new_cluster config [] (((2 ^ 62 + 1) ∷ []) ∷ [])) → ⊥ }
    ensures first_boot_out_of_range { IsSized (record one_node { boots = (2 ^ 62) ∷ [] }) → ⊥ }
{}

/// Counterexamples: histories that are not runs of the world.
pub fn runs_can_be_broken()
    ensures tick_for_a_line { IsActOf 1 right_line (Ticks 1) → ⊥ }
    ensures tick_at_another_node { IsActOf 1 Tick (Ticks 2) → ⊥ }
    ensures tick_for_a_datagram { IsActOf 1 (Peer 2 None) (Ticks 1) → ⊥ }
    ensures nothing_for_an_act { HasAct 1 Tick (λ act. Happens act) nothing → ⊥ }
    ensures act_of_another_input { HasAct 1 Tick (λ act. Happens act) (Happens (Ticks 2)) → ⊥ }
    ensures opening_is_a_loss { IsEventOf opens_one (Lost 1) → ⊥ }
    ensures failed_opening_is_a_loss { IsEventOf (FailsToOpen 1 true) (Lost 1) → ⊥ }
    ensures input_is_a_restart { IsEventOf (Takes 1 Tick) (Restart 1) → ⊥ }
    ensures offer_is_a_restart { IsEventOf (Offers 1) (Restart 1) → ⊥ }
    ensures stop_is_a_restart { IsEventOf (Stops 1) (Restart 1) → ⊥ }
    ensures stop_that_lost_it_is_a_cut { IsEventOf (StopsIn 1 false Tick) (Cut false (Ticks 1)) → ⊥ }
    ensures stop_in_a_step_is_an_act { IsEventOf (StopsIn 1 true Tick) (Happens (Ticks 1)) → ⊥ }
    ensures loss_is_a_restart { IsEventOf (Loses 1) (Restart 1) → ⊥ }
    ensures store_anew_at_its_own_boot { IsEventOf (Remakes 1 2 [] (λ token. 0)) (Anew 1 2 []) → ⊥ }
    ensures enrolment_is_a_restart { IsEventOf (Enrols 1 0 0) (Restart 1) → ⊥ }
    ensures unlocking_is_nothing { IsEventOf (Unlocks 1 0) nothing → ⊥ }
    ensures opened_gate_is_nothing { IsEventOf (OpensGate 1 0) nothing → ⊥ }
    ensures raise_is_nothing { IsEventOf (Raises 1 0 5) nothing → ⊥ }
    ensures no_event { HasEvent (Stops 1) 0 [] → ⊥ }
    ensures another_event { HasEvent (Stops 1) 0 (Restart 1 ∷ []) → ⊥ }
    ensures run_with_an_event_more { IsRunOf one_node [] [] (nothing ∷ []) → ⊥ }
    ensures run_with_another_event { IsRunOf one_node [] (Stops 1 ∷ []) (Restart 1 ∷ []) → ⊥ }
    ensures each { (cluster : SteadyCluster) (before actions : List Action) (events : List WorldEvent) (place : ℕ)
        (action : Action) → IsRunOf cluster before actions events
        → slice_get (before ++ actions) place ≡ Some action → HasEvent action place events }
    ensures run_with_another_first_event { IsRunOf one_node [] (Stops 1 ∷ Stops 1 ∷ []) (Restart 1 ∷ nothing ∷ [])
        → ⊥ }
    ensures run_with_another_second_event { IsRunOf one_node [] (Stops 1 ∷ Stops 1 ∷ []) (nothing ∷ Restart 1 ∷ [])
        → ⊥ }
    // The acts are those of its inputs, but their effects on the nodes differ.
    ensures run_with_another_floor { IsRunOf two_floors three_rows old_floor_comes second_floor_comes → ⊥ }
    ensures run_without_the_answer { IsRunOf late_node one_row answers_late stops_late → ⊥ }
    ensures run_without_the_second_answer { IsRunOf late_node one_row answers_twice_late stops_between → ⊥ }
    // No node ever sent the accepted Grant.
    ensures explained_by_no_run { IsExplained three_nodes three_rows forged_grant_comes → ⊥ }
{}

/// Worked cases.
pub fn reference_is_worked()
    ensures once { told_by_reference answers_once ≡ first_ok ∷ [] }
    ensures twice { told_by_reference takes_twice ≡ first_ok ∷ record first_ok { event = 3 } ∷ [] }
    ensures forgotten { told_by_reference ends_before_the_answer
        ≡ first_ok ∷ told_outcome 6 1 7 (codes "1") (Refused Invalid) ∷ [] }
    ensures kept { told_by_reference (ends_in_the_step true) ≡ told_outcome 6 1 7 (codes "1") (Refused Invalid) ∷ [] }
    ensures lost { told_by_reference (ends_in_the_step false) ≡ told_outcome 6 1 7 (codes "1") (Accepted 0) ∷ [] }
    ensures nobody { told_by_reference comes_to_nobody ≡ [] }
    ensures strangers { told_by_reference among_strangers ≡ record first_ok { event = 4 } ∷ [] }
    // The node gets no replacement store, neither while it has its store nor after the loss.
    ensures loss { told_by_reference (opens_one ∷ Takes 1 right_line ∷ Loses 1 ∷ opens_one ∷ Takes 1 right_line ∷ [])
        ≡ first_ok ∷ [] }
    ensures loss_elsewhere { told_by_reference (Loses 2 ∷ opens_one ∷ Takes 1 right_line ∷ [])
        ≡ record first_ok { event = 3 } ∷ [] }
    ensures store_there { told_by_reference (Remakes 1 last_boot (0 ∷ []) (λ token. 0) ∷ opens_one
        ∷ Takes 1 right_line ∷ []) ≡ record first_ok { event = 3 } ∷ [] }
    ensures part { IsPartOf (record first_ok { event = 3 } ∷ []) (first_ok ∷ record first_ok { event = 3 } ∷ []) }
    ensures order { IsPartOf (record first_ok { event = 3 } ∷ first_ok ∷ [])
        (first_ok ∷ record first_ok { event = 3 } ∷ []) → ⊥ }
    ensures number { IsPartOf (first_ok ∷ first_ok ∷ []) (first_ok ∷ []) → ⊥ }
{}

/// Worked cases.
pub fn sweeps_are_worked()
    ensures tick { IsTick three_nodes (1 ∷ 2 ∷ []) two_open 1 (Takes 1 Tick ∷ Takes 2 floor_comes ∷ []) }
    ensures not_taken { IsTick three_nodes (1 ∷ 2 ∷ []) two_open 1 (Takes 1 Tick ∷ []) → ⊥ }
    ensures taken_elsewhere { IsTick three_nodes (1 ∷ 2 ∷ []) two_open 1 (Takes 1 Tick ∷ Takes 3 floor_comes ∷ []) → ⊥ }
    ensures no_tick { IsTick three_nodes (1 ∷ 2 ∷ []) two_open 1 (Takes 1 right_line ∷ Takes 2 floor_comes ∷ []) → ⊥ }
    ensures steps { filter (is_step_of (1 ∷ [])) (Takes 1 Tick ∷ Offers 1 ∷ Takes 2 Tick ∷ Stops 1 ∷ [])
        ≡ Takes 1 Tick ∷ Stops 1 ∷ [] }
    ensures sweep { IsSweep one_node (1 ∷ []) one_open (Offers 1 ∷ Stops 2 ∷ replicate 8 (Takes 1 Tick)) }
    ensures short { IsSweep one_node (1 ∷ []) one_open (replicate 7 (Takes 1 Tick)) → ⊥ }
    ensures greatest { greatest_in (3 ∷ 2 ∷ []) uneven_open 0 ≡ 1 }
    ensures greatest_of_the_first { greatest_in (2 ∷ 3 ∷ []) uneven_open 0 ≡ 1 }
{}

/// Counterexamples: each promise of a sweep fails for a minimal one.
pub fn sweeps_can_be_broken()
    ensures stranger { IsLive one_node (with_machine opened_machine) 2 → ⊥ }
    ensures swept { IsSwept one_node (1 ∷ []) one_open one_open 1 }
    ensures without_a_process { IsSwept one_node (1 ∷ []) one_open (state_of (setting_of one_node) one_row) 1 → ⊥ }
    ensures proposal_waits { IsSwept one_node (1 ∷ []) one_open (with_machine pending_machine) 1 → ⊥ }
    ensures line_waits { IsSwept one_node (1 ∷ []) one_open (with_machine owning_machine) 1 → ⊥ }
    ensures factor_ahead { IsSwept one_node (1 ∷ []) one_open
        (state_of (setting_of one_node) (one_row ++ answers_once)) 1 → ⊥ }
    ensures each_floor { (cluster : SteadyCluster) (live : List ℕ) (old new : State) (node token : ℕ)
        → IsSwept cluster live old new node → token < tokens_of cluster
        → next_in new node token ≡ greatest_in live old token }
    ensures factor_behind { IsSwept three_nodes (1 ∷ 2 ∷ []) uneven_open uneven_open 1 → ⊥ }
    ensures second_token_behind { IsSwept uneven_tokens (1 ∷ 2 ∷ []) tokens_open tokens_open 1 → ⊥ }
{}
