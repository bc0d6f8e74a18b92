//! The laws of a node that is served in stretches.

ghost use Rattle.std.specs.Prelude.{◌≡◌, ◌⊎◌, ℕ, ◌<◌, Bool, true, List, [], ◌∷◌, Option, None, Some, Result, Ok, Err};
ghost use Rattle.datagram_port.specs.Port.{PortEvent, Quiet};
ghost use Rattle.floor_store.specs.Broken.{SmallStore, holding, small_held};
ghost use Rattle.oath_node.specs.Broken.{fallen_node, keyed, small_node, stopped};
ghost use Rattle.oath_node.specs.Hosted.{Hosted, IsSameNode, is_waiting};
ghost use Rattle.oath_node.specs.TurnServing.{ServesUntil};
ghost use Rattle.oath_node.specs.TurnsBroken.{nothing_yet};
ghost use Rattle.oath_node.specs.UnlockExamples.{both_closed, first_unlocked, over};
ghost use Rattle.oath_node.specs.declared.fault.NodeFault.{NodeFault};
ghost use Rattle.oath_node.specs.declared.fault.NodeFault.TheVariants.{Stopped};
ghost use Rattle.oath_node.specs.declared.serve_fault.ServeFault.{ServeFault};
ghost use Rattle.oath_node.specs.declared.serve_fault.ServeFault.TheVariants.{Node, Port};
ghost use Rattle.oath_node.specs.declared.turns.Served.{Served};
ghost use Rattle.node_serving.specs.StretchExamples.{any_act, counts, fault_came, faulted, goes_on, is_accepted, no_answer, stretch_with, two_stretches, was_stopped};
ghost use Rattle.node_serving.specs.Stretches.{AreServed, FailsToAct, ServesIn, counted, counts_after, end_after, no_acts, operator_acts, unasked};

/// Worked cases. The counts of a node that is served in stretches are those of all stretches, up to the greatest
/// number.
pub fn stretches_are_counted()
    ensures first { counts_after None (counts 3 2) ≡ counts 3 2 }
    ensures second { counts_after (Some (counts 1 0)) (counts 3 2) ≡ counts 4 2 }
    ensures full { counts_after (Some (counts 18446744073709551615 0)) (counts 3 2) ≡ counts 18446744073709551615 2 }
    ensures full_of_replies { counts_after (Some (counts 1 18446744073709551615)) (counts 3 2)
        ≡ counts 4 18446744073709551615 }
    ensures after_none { counted {S = SmallStore} [] (counts 3 2) ≡ counts 3 2 }
    ensures after_one { counted (stretch_with (counts 1 0) ∷ []) (counts 3 2) ≡ counts 4 2 }
    ensures after_two { counted two_stretches (counts 3 2) ≡ counts 14 6 }
    ensures end { end_after two_stretches (Ok (counts 3 2)) ≡ Ok (counts 14 6) }
    ensures end_of_one { end_after {S = SmallStore} [] (Ok (counts 3 2)) ≡ Ok (counts 3 2) }
    ensures fault { end_after two_stretches (Err Port) ≡ Err Port }
{}

/// A node that is served in stretches is served as one that is served once, if nothing acts on it.
pub fn stretches_without_acts_are_one()
    ensures once { (old new : Hosted SmallStore) (first entries : Option (List PortEvent))
        (asked told : Option (List (Option ℕ))) (turns : ℕ) (accepts : ℕ → Bool → Bool → Bool)
        (result : Result Served ServeFault)
        → ServesIn small_held no_acts old new first entries asked told turns (is_accepted accepts) result
        → ServesUntil small_held old new first entries asked told turns (is_accepted accepts) result }
    // After turns without a fault there was a last answer, with fewer turns left.
    ensures answered { (old new : Hosted SmallStore) (first entries : Option (List PortEvent))
        (asked told : Option (List (Option ℕ))) (turns : ℕ) (accepts : ℕ → Bool → Bool → Bool) (served : Served)
        → ServesIn small_held any_act old new first entries asked told turns (is_accepted accepts) (Ok served)
        → (turns ≡ 0) ⊎ ((left : ℕ) × (left < turns) × (is_early : Bool)
        × (accepts left (is_waiting new) is_early ≡ true)) }
    // An act for an operator changes no part of a node but what its turns change.
    ensures same { (old new : Hosted SmallStore) (first entries : Option (List PortEvent))
        (asked told : Option (List (Option ℕ))) (turns : ℕ) (result : Result Served ServeFault)
        → ServesIn small_held (operator_acts small_held) old new first entries asked told turns unasked result
        → IsSameNode old new }
{}

/// Counterexamples: each promise of stretches fails for a minimal one, which keeps all other promises.
pub fn stretches_can_be_broken()
    // no stretch
    ensures none { AreServed small_held no_acts small_node nothing_yet nothing_yet 5 [] small_node nothing_yet
        nothing_yet 5 }
    ensures none_of_another_node { AreServed small_held any_act small_node nothing_yet nothing_yet 5 []
        (keyed small_node) nothing_yet nothing_yet 5 → ⊥ }
    ensures none_with_an_entry { AreServed small_held any_act small_node nothing_yet nothing_yet 5 [] small_node
        (Some (Quiet ∷ [])) nothing_yet 5 → ⊥ }
    ensures none_with_a_moment { AreServed small_held any_act small_node nothing_yet nothing_yet 5 [] small_node
        nothing_yet (Some (None ∷ [])) 5 → ⊥ }
    ensures none_with_fewer_turns { AreServed small_held any_act small_node nothing_yet nothing_yet 5 [] small_node
        nothing_yet nothing_yet 4 → ⊥ }

    // one stretch of one turn, and the act after it
    ensures one { AreServed small_held any_act fallen_node nothing_yet nothing_yet 5 (faulted ∷ []) fallen_node
        fault_came nothing_yet 4 }
    ensures one_of_another_start { AreServed small_held any_act (keyed fallen_node) nothing_yet nothing_yet 5
        (faulted ∷ []) fallen_node fault_came nothing_yet 4 → ⊥ }
    ensures one_of_more_turns { AreServed small_held any_act fallen_node nothing_yet nothing_yet 6 (faulted ∷ [])
        fallen_node fault_came nothing_yet 4 → ⊥ }
    ensures one_without_turns { AreServed small_held any_act fallen_node nothing_yet nothing_yet 4
        (record faulted { turns = 0 } ∷ []) fallen_node nothing_yet nothing_yet 4 → ⊥ }
    ensures one_at_the_end { AreServed small_held any_act fallen_node nothing_yet nothing_yet 1 (faulted ∷ [])
        fallen_node fault_came nothing_yet 0 → ⊥ }
    ensures one_that_was_not_served { AreServed small_held any_act fallen_node nothing_yet nothing_yet 5 (faulted ∷ [])
        fallen_node nothing_yet nothing_yet 4 → ⊥ }
    ensures one_without_an_act { AreServed small_held no_acts fallen_node nothing_yet nothing_yet 5 (faulted ∷ [])
        fallen_node fault_came nothing_yet 4 → ⊥ }

    // an act that failed
    ensures act_fails { FailsToAct small_held any_act fallen_node fallen_node nothing_yet fault_came nothing_yet
        nothing_yet 1 (Err (Node Stopped)) }
    ensures act_fails_after_more { FailsToAct small_held any_act fallen_node fallen_node nothing_yet fault_came
        nothing_yet nothing_yet 0 (Err (Node Stopped)) → ⊥ }
    ensures act_fails_unserved { FailsToAct small_held any_act fallen_node (keyed fallen_node) nothing_yet nothing_yet
        nothing_yet (Some (Some 5 ∷ [])) 0 (Err (Node Stopped)) → ⊥ }
    ensures no_act_fails { FailsToAct small_held no_acts fallen_node fallen_node nothing_yet fault_came nothing_yet
        nothing_yet 1 (Err (Node Stopped)) → ⊥ }
    ensures act_fails_by_the_port { FailsToAct small_held any_act fallen_node fallen_node nothing_yet fault_came
        nothing_yet nothing_yet 1 (Err Port) → ⊥ }
    ensures act_fails_and_ends_well { FailsToAct small_held any_act fallen_node fallen_node nothing_yet fault_came
        nothing_yet nothing_yet 1 (Ok (counts 0 0)) → ⊥ }

    // a call of no turns, and calls of one turn
    ensures serves { ServesIn small_held no_acts fallen_node fallen_node nothing_yet nothing_yet nothing_yet
        nothing_yet 0 no_answer (Ok (counts 0 0)) }
    ensures serves_unanswered { ServesIn small_held any_act fallen_node fallen_node nothing_yet fault_came nothing_yet
        nothing_yet 1 no_answer (Ok (counts 0 0)) → ⊥ }
    ensures serves_and_fails_to_act { ServesIn small_held any_act fallen_node fallen_node nothing_yet fault_came
        nothing_yet nothing_yet 1 no_answer (Err (Node Stopped)) }
    ensures serves_another_node { ServesIn small_held no_acts fallen_node (keyed fallen_node) nothing_yet nothing_yet
        nothing_yet nothing_yet 0 no_answer (Ok (counts 0 0)) → ⊥ }
    ensures unasked_of_all { unasked 5 true true }
{}

/// Counterexamples: an act for an operator unlocks a token, reads something, or does nothing.
pub fn acts_can_be_broken()
    ensures nothing { operator_acts small_held small_node small_node goes_on }
    ensures unlocks { operator_acts small_held (over (holding both_closed)) (over (holding first_unlocked)) goes_on }
    ensures another_key { operator_acts small_held fallen_node (keyed fallen_node) goes_on → ⊥ }
    ensures stops_without_a_fault { operator_acts small_held fallen_node (stopped fallen_node) goes_on → ⊥ }
    ensures fails_and_runs { operator_acts small_held small_node small_node was_stopped → ⊥ }
    ensures no_act { (a b : Hosted SmallStore) (result : Result Bool NodeFault) → no_acts a b result → ⊥ }
{}
