ghost use Rattle.std.specs.Prelude.{◌≡◌, ℕ, ◌≤◌, length, ◌∷◌, [], ◌++◌, List, Some, None, false, replicate, true};
ghost use Rattle.floor_store.specs.Broken.{booted, broken_at, fallen_at, small_held, store_at, unsettled_at};
ghost use Rattle.oath_node.specs.Hosted.{is_waiting};
ghost use Rattle.oath_node.specs.Broken.{failed_node, node_of_three, node_over, noise as peer_noise, small_node, stopped};
ghost use Rattle.oath_node.specs.TurnsBroken.{a_line, bad_line_replied, ended_by, entries_of, entries_of_batches, floor_told, lines_replied, no_line_came, nothing_yet, run_from, served, store_failed};
ghost use Rattle.oath_node.specs.TurnServing.{EndsByClock, EndsSettled, EndsSo, EndsTurns, FailsAfter, FailsAmong, FailsNext, IsAmong, LeavesAmong, Serves, Stands};
ghost use Rattle.oath_node.specs.declared.fault.NodeFault.TheVariants.{Spent as NoNumber};
ghost use Rattle.oath_node.specs.TurnExamples.{batches_of, going_with, line_without_moment, no_line, noise, order_of, run_of};
ghost use Rattle.oath_node.specs.Cases.{first_line, idle_node, line};
ghost use Rattle.datagram_port.specs.Port.{Faulted, Offered, Quiet, Received};
ghost use Rattle.oath_node.specs.Turns.{AreBatches, ComesToTheSame, DoesTheSame, Failure, GoesOn, IsBatch, Member, Nothing, Receipt, Run, moments_in, offers_in, receipts_in, run_at, run_with_batch, run_with_batches, run_with_turn, run_with_turns, without_failures};
ghost use Rattle.oath_node.specs.declared.serve_fault.ServeFault.TheVariants.{Clock, Node, Port};
ghost use Rattle.datagram_port.specs.declared.port.Sender.TheVariants.{Client, Peer};

/// Worked cases.
pub fn turns_are_worked()
    ensures quiet { run_of (replicate 10 Nothing) ≡ going_with 0 0 10 }
    ensures lines { run_of (replicate 64 no_line) ≡ going_with 64 64 1 }
    ensures before_64th { run_of (replicate 63 no_line) ≡ going_with 63 63 0 }
    ensures members_count { run_of (replicate 63 no_line ++ Nothing ∷ Failure ∷ noise ∷ [])
        ≡ going_with 64 63 2 }
    ensures faults { run_of (replicate 15 Failure) ≡ going_with 0 0 0 }
    ensures too_many_faults { run_of (replicate 17 Failure) ≡ record (going_with 0 0 0) { end = Some Port } }
    ensures faults_apart { run_of (replicate 15 Failure ++ Nothing ∷ replicate 15 Failure) ≡ going_with 0 0 1 }
    ensures faults_apart_by_noise { run_of (replicate 15 Failure ++ noise ∷ replicate 15 Failure) ≡ going_with 1 0 0 }
    ensures faults_apart_by_a_line { run_of (replicate 15 Failure ++ no_line ∷ replicate 15 Failure)
        ≡ going_with 1 1 0 }
    ensures clock { run_of (line_without_moment ∷ Nothing ∷ [])
        ≡ record (going_with 1 0 0) { end = Some Clock } }
    // the clock is asked only for a client's datagram
    ensures asked { moments_in (noise ∷ Nothing ∷ no_line ∷ Failure ∷ line_without_moment ∷ [])
        ≡ Some 100 ∷ None ∷ [] }
{}

/// Failed receives: a run with them has the node, the offers and the counts of the run without them.
///
/// A node never asks whether an offer succeeded. So the offers are the same list if each of them fails.
pub fn faults_change_no_offer()
    ensures { (member : Member) (receipts : List Receipt) (start : Run) → start.end ≡ None
        → (run_with_turns member receipts start).end ≡ None
        → DoesTheSame (run_with_turns member receipts start) (run_with_turns member (without_failures receipts) start) }
{}

/// Batches: a run in batches and a run in single turns have the same node, offers, receives, counts and end.
///
/// The offers are in the same order. In a batch all receives come before the offers.
pub fn batches_are_turns()
    ensures order { (member : Member) (batches : List (List Receipt)) (start : Run)
        → AreBatches start.tally.received batches
        → ComesToTheSame (run_with_batches member batches start)
        (run_with_turns member (receipts_in batches) start) }
    ensures one { (member : Member) (receipt : Receipt) (start : Run)
        → run_with_batch member (receipt ∷ []) start ≡ run_with_turn member receipt start }
    // A batch has at most 64 receives.
    ensures few { (received : ℕ) (batch : List Receipt) → IsBatch received batch → length batch ≤ 64 }
    // faults of the port change nothing of batches either
    ensures failures { (member : Member) (batches : List (List Receipt)) (start : Run)
        → AreBatches start.tally.received batches → start.end ≡ None
        → (run_with_batches member batches start).end ≡ None
        → DoesTheSame (run_with_batches member batches start)
        (run_with_turns member (without_failures (receipts_in batches)) start) }
{}

/// Worked cases.
pub fn batches_are_worked()
    ensures lines { order_of ((no_line ∷ no_line ∷ no_line ∷ []) ∷ [])
        ≡ true ∷ true ∷ true ∷ false ∷ false ∷ false ∷ [] }
    ensures one_by_one { order_of ((no_line ∷ []) ∷ (no_line ∷ []) ∷ []) ≡ true ∷ false ∷ true ∷ false ∷ [] }
    // the tick after the 64th datagram, before the offers
    ensures tick { order_of (replicate 63 no_line ∷ (no_line ∷ []) ∷ [])
        ≡ replicate 63 true ++ replicate 63 false ++ true ∷ replicate 3 false }
    ensures lines_and_tick { batches_of (replicate 64 no_line ∷ []) ≡ going_with 64 64 1 }
    // the datagrams received before the port or the clock failed are served
    ensures fault { batches_of ((no_line ∷ Failure ∷ []) ∷ []) ≡ going_with 1 1 0 }
    ensures last_fault { batches_of (replicate 15 (Failure ∷ []) ++ (no_line ∷ Failure ∷ []) ∷ [])
        ≡ going_with 1 1 0 }
    ensures too_many_faults { batches_of (replicate 17 (Failure ∷ []))
        ≡ record (going_with 0 0 0) { end = Some Port } }
    ensures clock { batches_of ((no_line ∷ line_without_moment ∷ []) ∷ (Nothing ∷ []) ∷ [])
        ≡ record (going_with 2 1 0) { end = Some Clock } }
    // the ends of batches
    ensures whole { AreBatches 62 ((no_line ∷ no_line ∷ []) ∷ (no_line ∷ Failure ∷ []) ∷ (Nothing ∷ []) ∷ []) }
    ensures behind_the_64th { GoesOn 62 (no_line ∷ no_line ∷ []) → ⊥ }
    ensures behind_a_quiet_one { GoesOn 0 (Nothing ∷ []) → ⊥ }
    ensures behind_a_fault { GoesOn 0 (Failure ∷ []) → ⊥ }
    ensures behind_no_moment { GoesOn 0 (line_without_moment ∷ []) → ⊥ }
    ensures none { IsBatch 0 [] → ⊥ }
{}

/// Worked cases.
pub fn differences_are_seen()
    ensures failures { without_failures (Failure ∷ noise ∷ Nothing ∷ Failure ∷ no_line ∷ [])
        ≡ noise ∷ Nothing ∷ no_line ∷ [] }
    ensures offers { offers_in
        (Received (Peer 2) [] ∷ Quiet ∷ Offered (Peer 2) [] ∷ Faulted ∷ Offered (Client 7) [] ∷ [])
        ≡ Offered (Peer 2) [] ∷ Offered (Client 7) [] ∷ [] }
    ensures other_offer { (run : Run) → DoesTheSame (record run { entries = Offered (Peer 2) [] ∷ [] })
        (record run { entries = Offered (Client 2) [] ∷ [] }) → ⊥ }
    ensures other_order { (run : Run) → DoesTheSame
        (record run { entries = Offered (Peer 2) [] ∷ Offered (Peer 3) [] ∷ [] })
        (record run { entries = Offered (Peer 3) [] ∷ Offered (Peer 2) [] ∷ [] }) → ⊥ }
    ensures other_count { (run : Run) → DoesTheSame (record run { tally = record run.tally { received = 1 } })
        (record run { tally = record run.tally { received = 2 } }) → ⊥ }
    ensures other_replies { (run : Run) → DoesTheSame (record run { tally = record run.tally { replied = 1 } })
        (record run { tally = record run.tally { replied = 2 } }) → ⊥ }
    ensures other_node { DoesTheSame (run_at (idle_node 0)) (run_at (idle_node 1)) → ⊥ }
    ensures comes_to_another_node { ComesToTheSame (run_at (idle_node 0)) (run_at (idle_node 1)) → ⊥ }
    ensures comes_to_another_offer { (run : Run) → ComesToTheSame (record run { entries = Offered (Peer 2) [] ∷ [] })
        (record run { entries = [] }) → ⊥ }
    ensures comes_to_another_receive { (run : Run) → ComesToTheSame (record run { entries = Quiet ∷ [] })
        (record run { entries = Faulted ∷ [] }) → ⊥ }
    ensures comes_to_another_count { (run : Run) → ComesToTheSame
        (record run { tally = record run.tally { faults = 1 } })
        (record run { tally = record run.tally { faults = 2 } }) → ⊥ }
    ensures comes_to_another_end { (run : Run) → ComesToTheSame (record run { end = Some Port })
        (record run { end = Some Clock }) → ⊥ }
{}

/// Worked cases.
pub fn entries_are_worked()
    ensures quiet { entries_of (Nothing ∷ Nothing ∷ [])
        ≡ Quiet ∷ floor_told 2 0 0 ∷ floor_told 3 0 0 ∷ Quiet ∷ floor_told 2 1 3 ∷ floor_told 3 1 3 ∷ [] }
    ensures fault { entries_of (Failure ∷ no_line ∷ []) ≡ Faulted ∷ lines_replied 1 }
    // the tick after the reply to the 64th datagram, before the 65th
    ensures tick_64th { entries_of (replicate 65 no_line)
        ≡ lines_replied 64 ++ floor_told 2 0 0 ∷ floor_told 3 0 0 ∷ lines_replied 1 }
    ensures tick_of_a_batch { entries_of_batches (replicate 64 no_line ∷ (no_line ∷ []) ∷ [])
        ≡ replicate 64 no_line_came ++ replicate 64 bad_line_replied
        ++ floor_told 2 0 0 ∷ floor_told 3 0 0 ∷ lines_replied 1 }
{}

/// Counterexamples: each promise of a run of turns fails for a minimal one, which keeps all other promises.
pub fn turns_can_be_broken()
    // a run of no turns
    ensures serves { Serves small_held (node_over (store_at 0) []) (node_over (store_at 0) [])
        nothing_yet nothing_yet nothing_yet nothing_yet 0 (served 0 0) }
    ensures serves_moments { Serves small_held (node_over (store_at 0) []) (node_over (store_at 0) [])
        nothing_yet nothing_yet nothing_yet (Some (Some 5 ∷ [])) 0 (served 0 0) → ⊥ }
    ensures serves_receives { Serves small_held (node_over (fallen_at 0) []) (node_over (fallen_at 0) [])
        nothing_yet (Some (Quiet ∷ [])) nothing_yet nothing_yet 0 (served 0 0) → ⊥ }
    ensures serves_most { Serves small_held (node_over (fallen_at 0) []) (node_over (fallen_at 0) [])
        nothing_yet (Some (Faulted ∷ [])) nothing_yet nothing_yet 0 (ended_by Port) → ⊥ }
    ensures serves_all { Serves small_held (node_over (fallen_at 0) []) (node_over (fallen_at 0) [])
        nothing_yet nothing_yet nothing_yet nothing_yet 1 (served 0 0) → ⊥ }
    ensures serves_exact { Serves small_held (node_over (store_at 0) []) (node_over (store_at 1) [])
        nothing_yet nothing_yet nothing_yet nothing_yet 0 (served 0 0) → ⊥ }
    ensures serves_entries { Serves small_held (node_over (store_at 0) []) (node_over (store_at 0) [])
        nothing_yet (Some (Offered (Peer 2) [] ∷ [])) nothing_yet nothing_yet 0 (served 0 0) → ⊥ }
    ensures serves_served { Serves small_held (node_over (store_at 0) []) (node_over (store_at 0) [])
        nothing_yet nothing_yet nothing_yet nothing_yet 0 (served 1 0) → ⊥ }
    ensures serves_no_fault_of_the_port { Serves small_held (node_over (store_at 0) []) (node_over (store_at 0) [])
        nothing_yet nothing_yet nothing_yet nothing_yet 0 (ended_by Port) → ⊥ }
    ensures serves_no_fault_of_the_clock { Serves small_held (node_over (store_at 0) []) (node_over (store_at 0) [])
        nothing_yet nothing_yet nothing_yet nothing_yet 0 (ended_by Clock) → ⊥ }
    ensures serves_no_fault_of_the_node { Serves small_held (node_over (store_at 0) []) (node_over (store_at 0) [])
        nothing_yet nothing_yet nothing_yet nothing_yet 0 (ended_by (Node store_failed)) → ⊥ }
    ensures serves_settled { Serves small_held (node_over (store_at 0) []) (node_over (unsettled_at 0 1) [])
        nothing_yet nothing_yet nothing_yet nothing_yet 0 (served 0 0) → ⊥ }
    ensures serves_same { Serves small_held (node_over (store_at 0) []) (node_over (store_at 0) (7 ∷ []))
        nothing_yet nothing_yet nothing_yet nothing_yet 0 (served 0 0) → ⊥ }

    // the node of a run, and the port's record
    ensures stands { Stands small_held nothing_yet (node_over (store_at 0) []) nothing_yet
        (run_from (node_over (store_at 0) [])) }
    ensures stands_state { Stands small_held nothing_yet (node_over (store_at 1) []) nothing_yet
        (run_from (node_over (store_at 0) [])) → ⊥ }
    ensures stands_entries { Stands small_held nothing_yet (node_over (store_at 0) []) (Some (Quiet ∷ []))
        (run_from (node_over (store_at 0) [])) → ⊥ }

    // a run that the clock ends
    ensures ends_by_clock { EndsByClock small_held (node_over (store_at 0) []) (node_over (store_at 0) [])
        nothing_yet nothing_yet 1 }
    ensures ends_by_clock_within { EndsByClock small_held (node_over (store_at 0) []) (node_over (store_at 0) [])
        nothing_yet nothing_yet 0 → ⊥ }
    ensures ends_by_clock_before { EndsByClock small_held (node_over (store_at 0) []) (node_over (store_at 1) [])
        nothing_yet nothing_yet 1 → ⊥ }

    // the state that a stop leaves, at the end of a run and inside a batch without events
    ensures ends_settled { EndsSettled (small_held (unsettled_at 0 1)) (ended_by (Node store_failed)) }
    ensures ok_is_settled { EndsSettled (small_held (unsettled_at 0 1)) (served 0 0) → ⊥ }
    ensures port_is_settled { EndsSettled (small_held (unsettled_at 0 1)) (ended_by Port) → ⊥ }
    ensures clock_is_settled { EndsSettled (small_held (unsettled_at 0 1)) (ended_by Clock) → ⊥ }
    ensures among { (member : Member) → IsAmong member (run_from (node_over (store_at 0) [])) [] (booted 0) }
    ensures among_is { (member : Member) → IsAmong member (run_from (node_over (store_at 0) [])) [] (booted 1) → ⊥ }
    ensures leaves { (member : Member) → LeavesAmong (small_held (store_at 0)) member
        (run_from (node_over (store_at 0) [])) [] }
    ensures leaves_another { (member : Member) → LeavesAmong (small_held (unsettled_at 0 1)) member
        (run_from (node_over (store_at 0) [])) [] → ⊥ }

    // a batch whose commit fails
    ensures fails { (member : Member) → FailsAmong small_held nothing_yet member
        (run_from (node_over (store_at 0) [])) []
        (record (node_over (broken_at 0) []) { running = false }) nothing_yet store_failed }
    ensures fails_state { (member : Member) → FailsAmong small_held nothing_yet member
        (run_from (node_over (store_at 1) [])) []
        (record (node_over (broken_at 0) []) { running = false }) nothing_yet store_failed → ⊥ }
    ensures fails_by_no_fault { (member : Member) → FailsAmong small_held nothing_yet member
        (run_from (node_over (store_at 0) [])) []
        (record (node_over (broken_at 0) []) { running = false }) nothing_yet NoNumber → ⊥ }
    ensures fails_and_runs_on { (member : Member) → FailsAmong small_held nothing_yet member
        (run_from (node_over (store_at 0) [])) [] (node_over (broken_at 0) []) nothing_yet store_failed → ⊥ }
    ensures fails_and_offers { (member : Member) → FailsAmong small_held nothing_yet member
        (run_from (node_over (store_at 0) [])) []
        (record (node_over (broken_at 0) []) { running = false }) (Some (Offered (Peer 2) [] ∷ []))
        store_failed → ⊥ }
{}

/// Counterexamples: each promise of a growing record, of a run's end and of a failing call fails for a minimal one.
pub fn ends_can_be_broken()
    // a run that continued to its end, and runs that the port or the clock ended
    ensures ends { EndsSo small_held (node_over (store_at 0) []) (node_over (store_at 0) []) nothing_yet nothing_yet []
        (served 0 0) }
    ensures ends_state { EndsSo small_held (node_over (store_at 0) []) (node_over (store_at 1) []) nothing_yet
        nothing_yet [] (served 0 0) → ⊥ }
    ensures ends_before { EndsSo small_held (node_over (store_at 0) []) (node_over (store_at 0) []) nothing_yet
        (Some (no_line_came ∷ [])) ((line_without_moment ∷ []) ∷ []) (served 1 0) → ⊥ }
    ensures ends_served { EndsSo small_held (node_over (store_at 0) []) (node_over (store_at 0) []) nothing_yet
        nothing_yet [] (served 1 0) → ⊥ }
    ensures ends_by_port { EndsSo small_held (node_over (store_at 0) []) (node_over (store_at 0) []) nothing_yet
        (Some (replicate 16 Faulted)) (replicate 16 (Failure ∷ [])) (ended_by Port) }
    ensures ends_by_port_state { EndsSo small_held (node_over (store_at 0) []) (node_over (store_at 1) []) nothing_yet
        (Some (replicate 16 Faulted)) (replicate 16 (Failure ∷ [])) (ended_by Port) → ⊥ }
    ensures ends_by_no_port { EndsSo small_held (node_over (store_at 0) []) (node_over (store_at 0) []) nothing_yet
        nothing_yet [] (ended_by Port) → ⊥ }
    ensures ends_by_clock { EndsSo small_held (node_over (store_at 0) []) (node_over (store_at 0) []) nothing_yet
        (Some (no_line_came ∷ [])) ((line_without_moment ∷ []) ∷ []) (ended_by Clock) }
    ensures ends_by_clock_state { EndsSo small_held (node_over (store_at 0) []) (node_over (store_at 1) []) nothing_yet
        (Some (no_line_came ∷ [])) ((line_without_moment ∷ []) ∷ []) (ended_by Clock) → ⊥ }
    ensures ends_by_no_clock { EndsSo small_held (node_over (store_at 0) []) (node_over (store_at 0) []) nothing_yet
        nothing_yet [] (ended_by Clock) → ⊥ }

    // an event and a commit that fail
    ensures next_event { FailsNext small_held small_node failed_node (peer_noise ∷ []) store_failed }
    ensures next_event_runs_on { FailsNext small_held small_node (node_over (broken_at 0) []) (peer_noise ∷ [])
        store_failed → ⊥ }
    ensures next_event_is_the_first { FailsNext small_held (node_of_three 4611686018427387904)
        (stopped (node_of_three 4611686018427387904)) (peer_noise ∷ line first_line ∷ []) NoNumber → ⊥ }
    ensures next_commit { FailsNext small_held small_node failed_node [] store_failed }
    ensures next_commit_runs_on { FailsNext small_held small_node (node_over (broken_at 0) []) [] store_failed → ⊥ }

    // a run whose node fails in its last batch
    ensures after { (key : List ℕ) → FailsAfter small_held (node_over (store_at 0) key)
        (stopped (node_over (broken_at 0) key)) nothing_yet (Some (Faulted ∷ [])) ((Failure ∷ []) ∷ []) store_failed }
    ensures after_no_batch { (key : List ℕ) → FailsAfter small_held (node_over (store_at 0) key)
        (stopped (node_over (broken_at 0) key)) nothing_yet (Some (Faulted ∷ [])) [] store_failed → ⊥ }
    ensures after_the_end { (key : List ℕ) → FailsAfter small_held (node_over (store_at 0) key)
        (stopped (node_over (broken_at 0) key)) nothing_yet (Some (no_line_came ∷ Faulted ∷ []))
        ((line_without_moment ∷ []) ∷ (Failure ∷ []) ∷ []) store_failed → ⊥ }
    ensures after_and_runs_on { (key : List ℕ) → FailsAfter small_held (node_over (store_at 0) key)
        (node_over (broken_at 0) key) nothing_yet (Some (Faulted ∷ [])) ((Failure ∷ []) ∷ []) store_failed → ⊥ }
    ensures after_leaves { (key : List ℕ) → FailsAfter small_held (node_over (store_at 0) key)
        (stopped (node_over (record (broken_at 0) { other = booted 1 }) key)) nothing_yet (Some (Faulted ∷ []))
        ((Failure ∷ []) ∷ []) store_failed → ⊥ }
    // receipts of which the first ends its batch, and a run of them
    ensures serves_formed { (key : List ℕ) → Serves small_held (node_over (store_at 0) key) (node_over (store_at 0) key)
        nothing_yet (Some (no_line_came ∷ Faulted ∷ [])) nothing_yet (Some (None ∷ [])) 2 (served 1 0) → ⊥ }
    ensures fails_of_no_event { (member : Member) → FailsAmong small_held nothing_yet member
        (run_from (node_of_three 4611686018427387904)) [] (stopped (node_of_three 4611686018427387904)) nothing_yet
        NoNumber → ⊥ }
{}

/// Counterexamples: each promise of turns that an answer may end early fails for a minimal one. A line waits or none.
pub fn early_ends_can_be_broken()
    ensures whole { EndsTurns 5 5 (λ left ends. (left ≡ 0) × (ends ≡ false)) }
    ensures part { EndsTurns 5 3 (λ left ends. (left ≡ 2) × (ends ≡ true)) }
    ensures no_turns { EndsTurns 0 0 (λ left ends. ⊥) }
    ensures part_without_an_end { EndsTurns 5 3 (λ left ends. ends ≡ false) → ⊥ }
    ensures part_without_an_answer { EndsTurns 5 3 (λ left ends. ⊥) → ⊥ }
    ensures part_of_another_number { EndsTurns 5 3 (λ left ends. left ≡ 1) → ⊥ }
    ensures no_part { EndsTurns 5 0 (λ left ends. ends ≡ true) → ⊥ }
    // a client's line waits
    ensures nothing_waits { is_waiting (node_over (store_at 0) []) ≡ false }
    ensures one_waits { is_waiting (record (node_over (store_at 0) []) { owners = a_line ∷ [] }) ≡ true }
{}
