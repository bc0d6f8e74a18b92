ghost use Rattle.std.specs.Prelude.{◌≡◌, ◌≢◌, ℕ, [], ◌∷◌, replicate};
ghost use Rattle.otp_core.specs.Gate.{clear_gate};
ghost use Rattle.floor_store.specs.Broken.{holding, small_held};
ghost use Rattle.vote_core.specs.Rows.{row};
ghost use Rattle.oath_node.specs.Broken.{answering, done, failed, fallen_node, keyed, number_spent, stopped, was_stopped};
ghost use Rattle.oath_node.specs.Machine.{NodeState, standing_at};
ghost use Rattle.oath_node.specs.Refusals.{KeepsFloors};
ghost use Rattle.oath_node.specs.UnlockExamples.{both_closed, broken_with, closed_gate, closed_row, first_unlocked, node_with_rows, over, two_gates, unlocked_row};
ghost use Rattle.oath_node.specs.Unlocking.{UnlocksNode, unlocked_node};

/// An unlocking changes one gate alone: the floors, the grants, the drifts, the boot, the last pass and the gates of
/// the other tokens stay. The token has no failures then, and is open.
pub fn unlocks_change_one_gate()
    ensures floors { (node : NodeState) (token : ℕ) → KeepsFloors node.content (unlocked_node token node).content }
    ensures others { (node : NodeState) (token other : ℕ) → other ≢ token
        → (row (unlocked_node token node).content other).gate ≡ (row node.content other).gate }
    ensures cleared { (node : NodeState) (token : ℕ)
        → (row (unlocked_node token node).content token).gate ≡ clear_gate }
{}

/// Worked cases. An unlocking clears the gate of one row. The other rows, the rest of the row, the boot, the last pass
/// and the rest of the node stay. The number of no token changes nothing.
pub fn unlocks_are_worked()
    ensures first { unlocked_node 0 (node_with_rows (replicate 2 closed_row))
        ≡ node_with_rows (unlocked_row ∷ closed_row ∷ []) }
    ensures second { unlocked_node 1 (node_with_rows (replicate 2 closed_row))
        ≡ node_with_rows (closed_row ∷ unlocked_row ∷ []) }
    ensures open_one { unlocked_node 0 (node_with_rows (unlocked_row ∷ [])) ≡ node_with_rows (unlocked_row ∷ []) }
    ensures no_token { unlocked_node 2 (node_with_rows (replicate 2 closed_row))
        ≡ node_with_rows (replicate 2 closed_row) }
    // a line of the token waits for no second then
    ensures waited { (standing_at (node_with_rows (closed_row ∷ [])) 7 100 []).wait 0 ≡ 30 }
    ensures waits { (standing_at (unlocked_node 0 (node_with_rows (closed_row ∷ []))) 7 100 []).wait 0 ≡ 0 }
{}

/// Counterexamples: each promise of an unlocking fails for a minimal node.
pub fn unlocks_can_be_broken()
    ensures unlocks { UnlocksNode small_held (over (holding both_closed)) (over (holding first_unlocked)) 0 done }
    ensures unlocks_failed { UnlocksNode small_held (over (holding both_closed))
        (stopped (over (broken_with both_closed))) 0 failed }
    ensures unlocks_stopped { UnlocksNode small_held (stopped (over (holding both_closed)))
        (stopped (over (holding both_closed))) 0 was_stopped }
    // the gate stays, another token is unlocked, the floor is another
    ensures state_stays { UnlocksNode small_held (over (holding both_closed)) (over (holding both_closed)) 0 done → ⊥ }
    ensures state_another { UnlocksNode small_held (over (holding both_closed)) (over (holding first_unlocked)) 1 done
        → ⊥ }
    ensures state_floor { UnlocksNode small_held (over (holding both_closed))
        (over (holding (two_gates 4 clear_gate closed_gate))) 0 done → ⊥ }
    // a stop may still leave the closed gate
    ensures settled { UnlocksNode small_held (over (holding both_closed))
        (over (record (holding first_unlocked) { other = both_closed })) 0 done → ⊥ }
    ensures runs { UnlocksNode small_held fallen_node (stopped fallen_node) 0 done → ⊥ }
    ensures writes { UnlocksNode small_held (over (record (holding both_closed) { failures = 1 }))
        (over (holding first_unlocked)) 0 done → ⊥ }
    ensures fails { UnlocksNode small_held (over (holding both_closed)) (over (broken_with both_closed)) 0 failed → ⊥ }
    ensures fails_spent { UnlocksNode small_held (over (holding both_closed)) (over (holding both_closed)) 0
        number_spent → ⊥ }
    ensures stopped_before { UnlocksNode small_held (stopped (over (holding both_closed)))
        (stopped (over (broken_with both_closed))) 0 failed → ⊥ }
    ensures others_key { UnlocksNode small_held fallen_node (keyed fallen_node) 0 done → ⊥ }
    ensures others_answers { UnlocksNode small_held fallen_node (answering fallen_node) 0 done → ⊥ }
{}
