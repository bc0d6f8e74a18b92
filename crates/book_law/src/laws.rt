//! The laws about every history of nodes whose users files, settings and keys change. Floor: the first free factor of a
//! token at a node.

ghost use Rattle.std.specs.Prelude.{◌≡◌, ◌-◌, ℕ, suc, pos, [], ◌∷◌, ◌++◌, List, false, true, map, Option, Some, None, Result, Ok, Err, ◌⊎◌, codes, slice_get};
ghost use Rattle.admit_core.specs.Throttle.{Accepted as Passed, Failed, SpacesFailures};
ghost use Rattle.client_lines.specs.declared.answer.Outcome.TheVariants.{Accepted, Refused};
ghost use Rattle.client_lines.specs.declared.answer.Reason.TheVariants.{Invalid, Unknown};
ghost use Rattle.cluster_sim.specs.Answered.{IsOk};
ghost use Rattle.cluster_sim.specs.Examples.{told_outcome};
ghost use Rattle.cluster_sim.specs.Results.{results_in as results_noted};
ghost use Rattle.cluster_sim.specs.World.{Answer};
ghost use Rattle.datagram_port.specs.Port.{Offered, PortEvent};
ghost use Rattle.datagram_port.specs.declared.port.Sender.TheVariants.{Client as ToLine};
ghost use Rattle.floor_store.specs.Content.{Content};
ghost use Rattle.floor_store.specs.Held.{IsSettled};
ghost use Rattle.floor_store.specs.Range.{IsCount};
ghost use Rattle.oath_node.specs.Calls.{IsOpened};
ghost use Rattle.oath_node.specs.Hosted.{Hosted, state_of as machine_of};
ghost use Rattle.oath_node.specs.Machine.{NodeEvent, Tick, opened_node};
ghost use Rattle.oath_node.specs.TurnServing.{Serves as ServesTurns};
ghost use Rattle.oath_node.specs.Unlocking.{UnlocksNode};
ghost use Rattle.oath_node.specs.declared.fault.NodeFault.{NodeFault};
ghost use Rattle.oath_node.specs.declared.serve_fault.ServeFault.{ServeFault};
ghost use Rattle.oath_node.specs.declared.turns.Served.{Served};
ghost use Rattle.seated_store.specs.Seated.{SeatedRecord, seated_held};
ghost use Rattle.otp_core.specs.Acceptance.{Acceptance, HaveSingleUse, KeepRealTimeOrder};
ghost use Rattle.vote_core.specs.Cases.{accepted};
ghost use Rattle.vote_core.specs.declared.message.Message.TheVariants.{Floor};
ghost use Rattle.vote_core.specs.Safety.{HaveMajority};
ghost use Rattle.vote_core.specs.Schedule.{is_member, last_boot};
ghost use Rattle.book_law.specs.Answered.{AnswersAll, EndsProcess, HasYetToOffer, IsAnsweredInAction, IsLost, IsOfferedOrEnds};
ghost use Rattle.book_law.specs.Broken.{ask_comes, ask_comes_early, equal_seats, forged, forged_denial, forged_in_a_stop, from_another, locks_out, no_row, old_grant, taken, taken_from, taken_later, takes_again, takes_and_enrols, takes_both, tells, tells_in_a_stop, tells_less, to_nobody, two_rows_of_silver, unknown_number};
ghost use Rattle.book_law.specs.Examples.{alone, among_another, among_strangers, answers_silver, ask_for, drifted, hurries, hurries_unlocked, idle_among_another, idle_use, old_floor, second_reply, silver_ok, silver_pass, silver_row, silver_text, three_uses, two_replies, two_writes, ends_in_the_step, fails_there, fails_twice, first_key, has_silver, late, loses_one, maple, maple_accepted, maple_alone, maple_aside, maple_first, no_failure_there, old_floor_comes, one_row, other_key, pass_at, process_of_1, remade_with, row_from, shut_rows, silver, silver_accepted, silver_alone, silver_first, silver_goes, silver_line, silver_returns, stopped_machine, store_of_1, takes_silver, tells_early, tells_held, terms_of, three, three_with_old, two_rows, under_another_key};
ghost use Rattle.book_law.specs.Floors.{IsTakenInAction, TellsHeld, WasHeld, WasHeldSomewhere};
ghost use Rattle.book_law.specs.Justified.{IsJustifiedInAction, JustifiesAll, drift_in, drift_of};
ghost use Rattle.book_law.specs.Lives.{Action, Down, ToClient, ToPeer, Enrols, FailsToOpen, IsHistory, Loses, Offers, Opens, Output, Raises, Remakes, Setting, Stops, StopsIn, Store, Takes, Terms, Unlocks, OpensGate, Up, accepted_in, answered_in, do_fit, floor_in, floor_of, number_to_unlock, process_after, rows_under, seen_in, state_of, store_at, store_in_next_boot, store_raised, store_under, store_unlocked, store_with_rows};
ghost use Rattle.book_law.specs.Promises.{AnswerTruly, BelongsToAcceptance, IsAskedInAction, IsSaidInAction};
ghost use Rattle.book_law.specs.Results.{LeaveGate, results_in};
ghost use Rattle.book_law.specs.Stretches.{ActsAs, AreServed, Stretch, token_cleared, tokens_cleared};
ghost use Rattle.book_law.specs.Uses.{AreAllUses, AreOffersOfUses, AreServing, AreUses, HasUses, IsHistoryOf, IsProcess, IsSeatedMember, IsTrueReply, Serves as ServesStore, StoreUse, TakesAndOffers, ToClientOwn, ToPeerOwn, WasProcess, WasProcessIn, Writes, first_store, inputs_at, named_output, offer_of_output, offers_recorded, own_offers, own_process, store_after};

use admit_core::{failures_are_spaced, gate_keeps_throttle};
use floor_store::FloorStore;
use oath_node::rulings_have_grounds;
use vote_core::votes_are_safe;

/// Safety of books: in every history of nodes, acceptances are safe, whatever terms its processes have.
///
/// Any floors may be told at any time, also forged ones. One that is too high locks a user out, and breaks no promise.
pub fn books_are_safe()
    ensures single_use { (setting : Setting) (history : List Action) → IsHistory setting history
        → HaveSingleUse (accepted_in setting history) }
    ensures in_order { (setting : Setting) (history : List Action) → IsHistory setting history
        → KeepRealTimeOrder (accepted_in setting history) }
    ensures majority { (setting : Setting) (history : List Action) → IsHistory setting history
        → HaveMajority setting.n (floor_in setting history) (accepted_in setting history) }
    // Each offered answer that begins as an `OK` belongs to an acceptance of its node. The answer's client sent the
    // line of the acceptance there.
    ensures told { (setting : Setting) (history : List Action) → IsHistory setting history
        → AnswerTruly setting history (answered_in setting history) }
    // The line with which it began justifies each acceptance, under the terms of its process.
    ensures justified { (setting : Setting) (history : List Action) → IsHistory setting history
        → JustifiesAll setting history (accepted_in setting history) }
    // The failures of a token at a node are far apart, whatever users files and limits its processes have. An
    // acceptance or an unlocking of the token ends their count.
    ensures spaced { (setting : Setting) (history : List Action) (node token : ℕ) → IsHistory setting history
        → SpacesFailures (results_in setting history node token) }
    // Each acceptance in a step that its process finished has its `OK`. The process offered the `OK` or still has to,
    // unless it ended first.
    ensures answered { (setting : Setting) (history : List Action) → IsHistory setting history
        → AnswersAll setting history (accepted_in setting history) }
{
    votes_are_safe();
    rulings_have_grounds();
    gate_keeps_throttle();
    failures_are_spaced();
}

/// Results: if nothing unlocks the token at the node, its results there are the acceptances and failures of the notes.
pub fn results_are_noted()
    ensures { (setting : Setting) (history : List Action) (node token : ℕ) → IsHistory setting history
        → LeaveGate node token history
        → results_in setting history node token ≡ results_noted (state_of setting history).notes node token }
{
    rulings_have_grounds();
}

/// Told floors: a floor that its teller's store held raises no floor above all that stores held.
pub fn held_floors_raise_no_further()
    ensures { (setting : Setting) (history : List Action) (action node token : ℕ) → IsHistory setting history
        → TellsHeld setting history action
        → WasHeldSomewhere setting history action token (floor_in setting history node token (suc action)) }
{
    votes_are_safe();
    rulings_have_grounds();
}

/// Processes: over any store, a process that `Node::open` opened over a seated store and `run_turns` served is a use.
///
/// It is one at every end of the turns, with everything that a stop leaves of what it sees.
pub fn served_nodes_are_processes<S: FloorStore>()
    ensures { (setting : Setting) (place : ℕ) (terms : Terms) (port : List ℕ) (found : Store) (store : SeatedRecord S)
        (old new : Hosted (SeatedRecord S)) (entries : List PortEvent) (asked told : Option (List (Option ℕ)))
        (turns : ℕ) (result : Result Served ServeFault) (content : Content)
        → IsSeatedMember S.held setting place terms port found store old → IsOpened (seated_held S.held) store old
        → (seated_held S.held old.store).is_clean → IsCount (seated_held S.held old.store).content.boot
        → ServesTurns (seated_held S.held) old new (Some []) (Some entries) asked told turns result
        → (seated_held S.held new.store).is_clean → (seated_held S.held new.store).leaves content
        → WasProcess setting place terms port found entries content }
{}

/// Unlockings: over any store, `Node::open_gate` at a node over a seated store is an action of its process.
///
/// `A` is the type of what the call returns after a success.
pub fn opened_gates_are_actions<S: FloorStore, A>()
    ensures opened { (setting : Setting) (event place : ℕ) (terms : Terms) (found : Store) (waiting : List Output)
        (old new : Hosted (SeatedRecord S)) (number token : ℕ) (value : A) → do_fit terms found ≡ true
        → slice_get terms.seats number ≡ Some token → UnlocksNode (seated_held S.held) old new number (Ok value)
        → (seated_held S.held new.store).is_clean
        → process_after setting event (OpensGate place token)
        (Up terms found (machine_of (seated_held S.held) old) waiting)
        ≡ Up terms found (machine_of (seated_held S.held) new) waiting }
    // If the call fails, or a stop cuts it off, the store has what it had, or the action's content.
    ensures cut { (setting : Setting) (event place : ℕ) (terms : Terms) (found : Store) (waiting : List Output)
        (old new : Hosted (SeatedRecord S)) (number token : ℕ) (result : Result A NodeFault)
        (content : Content)
        → do_fit terms found ≡ true → slice_get terms.seats number ≡ Some token
        → IsSettled (seated_held S.held old.store) → UnlocksNode (seated_held S.held) old new number result
        → (seated_held S.held new.store).is_clean → (seated_held S.held new.store).leaves content
        → (content ≡ (seated_held S.held old.store).content)
        ⊎ (process_after setting event (OpensGate place token)
        (Up terms found (machine_of (seated_held S.held) old) waiting)
        ≡ Up terms found (record (machine_of (seated_held S.held) old) { content = content }) waiting) }
{}

/// Stretches: over any store, a process that `run_turns` served in stretches is a use in parts.
///
/// Operators may have had it clear gates between the stretches. It has one part for each stretch, and one for the last
/// turns.
pub fn stretches_are_processes<S: FloorStore>()
    ensures turns { (setting : Setting) (place : ℕ) (terms : Terms) (port : List ℕ) (found : Store)
        (store : SeatedRecord S) (old from new : Hosted (SeatedRecord S)) (stretches : List (Stretch (SeatedRecord S)))
        (first : Option (List PortEvent)) (entries : List PortEvent) (asked told : Option (List (Option ℕ)))
        (turns : ℕ) (result : Result Served ServeFault) (content : Content)
        → IsSeatedMember S.held setting place terms port found store old → IsOpened (seated_held S.held) store old
        → (seated_held S.held old.store).is_clean → IsCount (seated_held S.held old.store).content.boot
        → AreServed (seated_held S.held) old (Some []) stretches from first
        → ServesTurns (seated_held S.held) from new first (Some entries) asked told turns result
        → (seated_held S.held new.store).is_clean → (seated_held S.held new.store).leaves content
        → WasProcessIn setting place terms port found (tokens_cleared terms stretches (None ∷ [])) entries content }
    // If the last act fails, or a stop cuts it off, its gate is cleared or not.
    ensures act { (setting : Setting) (place : ℕ) (terms : Terms) (port : List ℕ) (found : Store)
        (store : SeatedRecord S) (old from stood new : Hosted (SeatedRecord S))
        (stretches : List (Stretch (SeatedRecord S))) (first : Option (List PortEvent)) (entries : List PortEvent)
        (asked told : Option (List (Option ℕ))) (turns : ℕ) (served : Served) (unlocked : Option ℕ)
        (fault : NodeFault) (content : Content)
        → IsSeatedMember S.held setting place terms port found store old → IsOpened (seated_held S.held) store old
        → (seated_held S.held old.store).is_clean → IsCount (seated_held S.held old.store).content.boot
        → AreServed (seated_held S.held) old (Some []) stretches from first
        → ServesTurns (seated_held S.held) from stood first (Some entries) asked told turns (Ok served)
        → ActsAs (seated_held S.held) unlocked stood new (Err fault)
        → (seated_held S.held new.store).is_clean → (seated_held S.held new.store).leaves content
        → WasProcessIn setting place terms port found (tokens_cleared terms stretches (None ∷ [])) entries content
        ⊎ WasProcessIn setting place terms port found (tokens_cleared terms stretches
        (token_cleared terms unlocked ∷ [])) entries content }
{}

/// Histories of uses: whatever the order between the nodes, a history of their processes and commands keeps what these
/// left, offered and told.
///
/// Each process or command of a node works on what the one before it left. At the end each member's store has what its
/// last use left.
pub fn histories_keep_uses()
    ensures stores { (setting : Setting) (uses : ℕ → List StoreUse) (history : List Action) (node : ℕ)
        → AreAllUses setting uses → IsHistoryOf setting uses history → is_member setting.n node ≡ true
        → (state_of setting history).processes node
        ≡ Down (store_after setting (uses node) (first_store setting node)) }
    // Each member offers exactly what its ports recorded, in order.
    ensures offers { (setting : Setting) (uses : ℕ → List StoreUse) (history : List Action) (node : ℕ)
        → AreAllUses setting uses → IsHistoryOf setting uses history → is_member setting.n node ≡ true
        → AreOffersOfUses (uses node) (own_offers setting node 0 history (Down (first_store setting node))) }
    // Each recorded reply that begins as an `OK` belongs to an acceptance.
    ensures told { (setting : Setting) (uses : ℕ → List StoreUse) (history : List Action) (node i client : ℕ)
        (bytes : List ℕ) → AreAllUses setting uses → IsHistoryOf setting uses history
        → is_member setting.n node ≡ true
        → slice_get (offers_recorded (uses node)) i ≡ Some (Offered (ToLine client) bytes) → IsOk bytes
        → IsTrueReply setting history node client bytes }
{
    rulings_have_grounds();
}

/// Worked cases.
pub fn books_are_worked()
    // Two processes with other orders of lines. The acceptance and the envelopes are under canonical tokens.
    ensures two_orders { accepted_in three silver_accepted ≡ accepted 6 10 1 0 0 0 ∷ [] }
    ensures answered { answered_in three silver_accepted ≡ told_outcome 10 1 7 (codes "1") (Accepted 0) ∷ [] }
    ensures other_number { accepted_in alone maple_accepted ≡ accepted 3 3 1 1 0 0 ∷ [] }
    ensures floor_before { floor_in three silver_accepted 2 0 8 ≡ 0 }
    ensures floor_after { floor_in three silver_accepted 2 0 9 ≡ 1 }
    ensures floor_of_another { floor_in three silver_accepted 2 1 9 ≡ 0 }
    ensures floor_without_a_row { floor_in three silver_accepted 3 0 13 ≡ 0 }
    // A user that went is unknown, and has her floor when she comes back.
    ensures gone { answered_in three silver_goes ≡ told_outcome 10 1 7 (codes "1") (Accepted 0)
        ∷ told_outcome 15 1 7 (codes "1") (Refused Unknown) ∷ [] }
    ensures floor_of_the_gone { floor_in three silver_goes 1 0 17 ≡ 1 }
    ensures back { answered_in three silver_returns ≡ told_outcome 10 1 7 (codes "1") (Accepted 0)
        ∷ told_outcome 15 1 7 (codes "1") (Refused Unknown) ∷ told_outcome 19 1 7 (codes "1") (Refused Invalid) ∷ [] }
    ensures another_key { accepted_in three under_another_key ≡ [] }
    ensures floor_under_another_key { floor_in three under_another_key 2 0 9 ≡ 0 }
    ensures old_envelope { floor_in three_with_old old_floor_comes 1 0 6 ≡ 4 }
    ensures old_envelope_for_another { floor_in three_with_old old_floor_comes 1 1 6 ≡ 0 }
    // A floor that anybody tells raises a lower one. One that is too high locks the user out.
    ensures told_floor { floor_in three (tells 0 9) 1 0 7 ≡ 9 }
    ensures told_floor_of_another { floor_in three (tells 1 9) 1 0 7 ≡ 0 }
    ensures told_by_another { floor_in three (tells 0 9) 2 0 7 ≡ 0 }
    ensures told_less { floor_in three tells_less 1 0 14 ≡ 1 }
    ensures locked_out { answered_in three locks_out ≡ told_outcome 7 1 7 (codes "1") (Refused Invalid) ∷ [] }
    ensures locked_out_passes { accepted_in three locks_out ≡ [] }

    // What a process sees of a store, and what it leaves.
    ensures seen { seen_in (two_rows (Some (pass_at 1))) (3 ∷ 5 ∷ [])
        ≡ record { rows = row_from 30 ∷ row_from 50 ∷ []; boot = 4; last = Some (pass_at 0) } }
    ensures seen_alone { seen_in (two_rows (Some (pass_at 0))) (3 ∷ [])
        ≡ record { rows = row_from 30 ∷ []; boot = 4; last = None } }
    ensures left { store_under (3 ∷ []) (one_row (Some (pass_at 0))) (two_rows (Some (pass_at 0)))
        ≡ record {
          names = 5 ∷ 3 ∷ [];
          content = record {
            rows = row_from 50 ∷ row_from 31 ∷ [];
            boot = 5;
            last = Some (pass_at 1);
          };
        } }
    ensures left_unseen { store_under (3 ∷ []) (one_row None) (two_rows (Some (pass_at 0)))
        ≡ record {
          names = 5 ∷ 3 ∷ [];
          content = record {
            rows = row_from 50 ∷ row_from 31 ∷ [];
            boot = 5;
            last = Some (pass_at 0);
          };
        } }
    ensures left_with_fewer_rows { rows_under (0 ∷ 1 ∷ []) (row_from 9 ∷ []) (row_from 1 ∷ row_from 2 ∷ [])
        ≡ row_from 9 ∷ row_from 2 ∷ [] }
    ensures floors { map (floor_of (two_rows None)) (3 ∷ 4 ∷ 5 ∷ []) ≡ 30 ∷ 0 ∷ 50 ∷ [] }
    ensures unlocked { store_unlocked 3 shut_rows ≡ two_rows None }
    ensures unlocked_without_a_row { store_unlocked 4 shut_rows ≡ shut_rows }
    ensures raised { map (floor_of (store_raised 3 40 (two_rows None))) (3 ∷ 5 ∷ []) ≡ 40 ∷ 50 ∷ [] }
    ensures raised_lower { store_raised 3 20 (two_rows None) ≡ two_rows None }
    ensures raised_without_a_row { store_raised 4 20 (two_rows None) ≡ two_rows None }

    // A process opens under terms that fit its store.
    ensures opens { process_of_1 (has_silver ++ Opens 1 silver_alone ∷ [])
        ≡ Up silver_alone (store_of_1 has_silver) (opened_node (seen_in (store_of_1 has_silver) (0 ∷ []))) [] }
    ensures no_row { process_of_1 (has_silver ++ Opens 1 maple_alone ∷ []) ≡ process_of_1 has_silver }
    ensures equal_tokens { process_of_1 (has_silver ++ Opens 1 (terms_of first_key (silver ∷ maple ∷ [])
        (0 ∷ 0 ∷ [])) ∷ []) ≡ process_of_1 has_silver }
    ensures too_few_seats { process_of_1 (has_silver ++ Opens 1 (terms_of first_key (silver ∷ maple ∷ [])
        (0 ∷ [])) ∷ []) ≡ process_of_1 has_silver }
    ensures one_process { process_of_1 (takes_silver ++ Opens 1 silver_alone ∷ FailsToOpen 1 true ∷ Enrols 1 1 0
        ∷ Unlocks 1 0 ∷ Raises 1 0 9 ∷ []) ≡ process_of_1 takes_silver }
    ensures last_boot_opens { (store_at ((state_of late (has_silver ++ Opens 1 silver_alone ∷ Stops 1
        ∷ Opens 1 silver_alone ∷ FailsToOpen 1 true ∷ [])).processes 1)).content.boot ≡ last_boot }
    ensures fails_raised { (store_of_1 (FailsToOpen 1 true ∷ [])).content.boot ≡ 1 }
    ensures fails_early { (store_of_1 (FailsToOpen 1 false ∷ [])).content.boot ≡ 0 }
    ensures nobody { process_of_1 (has_silver ++ Takes 1 silver_line ∷ Offers 1 ∷ Stops 1
        ∷ StopsIn 1 true silver_line ∷ []) ≡ process_of_1 has_silver }
    ensures nothing_to_offer { process_of_1 (has_silver ++ Opens 1 silver_alone ∷ Offers 1 ∷ [])
        ≡ process_of_1 (has_silver ++ Opens 1 silver_alone ∷ []) }
    ensures no_member { state_of alone (Enrols 0 0 0 ∷ Enrols 2 0 0 ∷ Opens 2 silver_alone ∷ []) ≡ state_of alone [] }
    ensures kept { map (floor_of (store_of_1 (ends_in_the_step true))) (0 ∷ []) ≡ 1 ∷ [] }
    ensures kept_pass { accepted_in alone (ends_in_the_step true) ≡ accepted 2 2 1 0 0 0 ∷ [] }
    ensures dropped { map (floor_of (store_of_1 (ends_in_the_step false))) (0 ∷ []) ≡ 0 ∷ [] }
    ensures dropped_pass { accepted_in alone (ends_in_the_step false) ≡ [] }
    ensures stopped { store_of_1 (takes_silver ++ Stops 1 ∷ []) ≡ store_of_1 takes_silver }

    // A row for a token, once, and only for a canonical one.
    ensures enrols { (store_of_1 has_silver).names ≡ 0 ∷ [] }
    ensures enrols_more { (store_of_1 (Enrols 1 1 4 ∷ has_silver)).names ≡ 1 ∷ 0 ∷ [] }
    ensures enrols_again { store_of_1 (has_silver ++ Enrols 1 0 5 ∷ []) ≡ store_of_1 has_silver }
    ensures enrols_unknown { store_of_1 (has_silver ++ Enrols 1 2 5 ∷ []) ≡ store_of_1 has_silver }

    // An operator unlocks a token at a process. The store has no failure then, and its floor stays.
    ensures opens_gate { store_of_1 (fails_there ++ OpensGate 1 0 ∷ Stops 1 ∷ [])
        ≡ store_of_1 (no_failure_there ++ Stops 1 ∷ []) }
    ensures opens_gate_as_a_command_does { store_of_1 (fails_there ++ OpensGate 1 0 ∷ Stops 1 ∷ [])
        ≡ store_of_1 (fails_there ++ Stops 1 ∷ Unlocks 1 0 ∷ []) }
    ensures opens_an_open_gate { process_of_1 (takes_silver ++ OpensGate 1 0 ∷ []) ≡ process_of_1 takes_silver }
    ensures opens_gate_of_another { store_of_1 (fails_there ++ OpensGate 1 1 ∷ []) ≡ store_of_1 fails_there }
    ensures opens_gate_and_takes { accepted_in alone hurries_unlocked ≡ accepted 4 4 1 0 0 0 ∷ [] }
    ensures opens_gate_and_offers { answered_in alone (takes_silver ++ OpensGate 1 0 ∷ Offers 1 ∷ []) ≡ silver_ok ∷ [] }
    ensures floor_after_opens_gate { floor_of (store_of_1 (fails_there ++ OpensGate 1 0 ∷ [])) 0 ≡ 4 }
    ensures opens_gate_without_a_seat { process_of_1 (maple_aside ++ OpensGate 1 1 ∷ []) ≡ process_of_1 maple_aside }
    ensures opens_gate_without_a_process { process_of_1 (fails_twice ++ OpensGate 1 0 ∷ [])
        ≡ process_of_1 fails_twice }
    ensures opens_no_gate_of_a_stopped_machine { number_to_unlock silver_alone 0 stopped_machine ≡ None }

    // A lost node, and its replacement store.
    ensures lost { (state_of three loses_one).processes 1
        ≡ Down (store_in_next_boot (store_at ((state_of three silver_accepted).processes 1))) }
    ensures lost_acts_not { (state_of three (loses_one ++ Opens 1 silver_first ∷ Loses 1 ∷ [])).processes 1
        ≡ (state_of three loses_one).processes 1 }
    ensures least { map (state_of three loses_one).least (0 ∷ 1 ∷ []) ≡ 1 ∷ 0 ∷ [] }
    ensures remade { (state_of three (remade_with 2 (1 ∷ 0 ∷ []) 1)).processes 1
        ≡ Down (store_with_rows 2 (1 ∷ 0 ∷ []) (λ token. 1)) }
    ensures remade_has_its_store { (state_of three (remade_with 2 (0 ∷ []) 1)).lost 1 ≡ false }
    ensures remade_too_low { (state_of three (remade_with 2 (0 ∷ []) 0)).lost 1 ≡ true }
    ensures remade_without { (state_of three (remade_with 2 (1 ∷ []) 9)).lost 1 ≡ true }
    ensures remade_unknown { (state_of three (remade_with 2 (0 ∷ 2 ∷ []) 1)).lost 1 ≡ true }
    ensures remade_twice { (state_of three (remade_with 2 (0 ∷ 0 ∷ []) 1)).lost 1 ≡ true }
    ensures remade_in_a_used_boot { (state_of three (remade_with 1 (0 ∷ []) 1)).lost 1 ≡ true }
    ensures remade_past_the_last_boot { (state_of three (remade_with (suc last_boot) (0 ∷ []) 1)).lost 1 ≡ true }
    ensures remade_without_a_majority { (state_of three (loses_one ++ Loses 2 ∷ Remakes 1 2 (0 ∷ []) (λ token. 1)
        ∷ [])).lost 1 ≡ true }
    ensures remade_unlost { (state_of three (silver_accepted ++ Remakes 2 2 (0 ∷ []) (λ token. 1) ∷ [])).processes 2
        ≡ (state_of three silver_accepted).processes 2 }

    // Results, by any numbers.
    ensures failures { results_in alone fails_twice 1 0 ≡ Failed 105 ∷ Failed 100 ∷ [] }
    ensures failures_of_another { results_in alone fails_twice 1 1 ≡ [] }
    ensures failures_elsewhere { results_in alone fails_twice 2 0 ≡ [] }
    ensures passed { results_in alone takes_silver 1 0 ≡ Passed ∷ [] }
    ensures passed_in_a_stop { results_in alone (ends_in_the_step true) 1 0 ≡ Passed ∷ [] }
    ensures not_passed_in_a_stop { results_in alone (ends_in_the_step false) 1 0 ≡ [] }
    ensures unlocking { results_in alone (fails_twice ++ Unlocks 1 0 ∷ []) 1 0 ≡ Passed ∷ Failed 105 ∷ Failed 100 ∷ [] }
    ensures unlocking_of_another { results_in alone (fails_twice ++ Unlocks 1 1 ∷ []) 1 0
        ≡ Failed 105 ∷ Failed 100 ∷ [] }
    ensures unlocking_without_a_row { results_in alone (has_silver ++ Unlocks 1 1 ∷ []) 1 1 ≡ [] }
    ensures unlocking_of_a_served_store { results_in alone (takes_silver ++ Unlocks 1 0 ∷ []) 1 0 ≡ Passed ∷ [] }
    ensures unlocking_of_a_process { results_in alone (fails_there ++ OpensGate 1 0 ∷ []) 1 0
        ≡ Passed ∷ Failed 100 ∷ [] }
    ensures unlocking_of_another_at_a_process { results_in alone (fails_there ++ OpensGate 1 1 ∷ []) 1 0
        ≡ Failed 100 ∷ [] }
    ensures unlocking_without_a_seat { results_in alone (maple_aside ++ OpensGate 1 1 ∷ []) 1 1 ≡ [] }
    ensures unlocking_without_a_process { results_in alone (fails_twice ++ OpensGate 1 0 ∷ []) 1 0
        ≡ Failed 105 ∷ Failed 100 ∷ [] }
    ensures results_of_a_lost_store { results_in three loses_one 1 0 ≡ Passed ∷ [] }
    ensures results_of_a_replacement { results_in three (remade_with 2 (0 ∷ []) 1) 1 0 ≡ [] }
    ensures results_of_no_member { results_in alone (Unlocks 0 0 ∷ []) 0 0 ≡ [] }
{}

/// Counterexamples: each condition of a history fails for a minimal one, and each condition of its rules is needed.
pub fn books_can_be_broken()
    ensures history { IsHistory three (ask_comes maple_first (ask_for 1)) }
    ensures early { IsHistory three ask_comes_early → ⊥ }
    ensures under_another_key { IsHistory three (ask_comes other_key (ask_for 1)) → ⊥ }
    ensures of_another_token { IsHistory three (ask_comes maple_first (ask_for 0)) → ⊥ }
    ensures never_made { IsHistory three forged → ⊥ }
    ensures never_made_in_a_stop { IsHistory three forged_in_a_stop → ⊥ }
    ensures never_denied { IsHistory three forged_denial → ⊥ }
    // Nobody need have offered an envelope that only tells a floor, whatever floor it tells.
    ensures told_by_nobody { IsHistory three locks_out }
    ensures told_by_nobody_in_a_stop { IsHistory three tells_in_a_stop }
    ensures from_another { IsHistory three from_another }
    ensures unknown_number { IsHistory three unknown_number }
    ensures to_nobody { IsHistory three to_nobody }
    ensures of_a_boot_before { IsHistory (old_grant 2) [] }
    ensures of_the_boot { IsHistory (old_grant 1) [] → ⊥ }

    // A factor is accepted twice by a node that breaks one rule.
    ensures equal_seats { HaveSingleUse (taken_from equal_seats takes_both) → ⊥ }
    ensures seat_without_a_row { HaveSingleUse (taken_from no_row takes_and_enrols) → ⊥ }
    ensures second_row { HaveSingleUse (taken_later two_rows_of_silver takes_again) → ⊥ }
    ensures one_row { taken_later taken takes_again ≡ accepted 2 2 1 0 0 0 ∷ [] }
{}

/// Worked cases and counterexamples: each condition of a floor that is told and was held.
pub fn told_floors_can_be_broken()
    ensures held { TellsHeld three tells_held 4 }
    ensures held_floor { floor_in three tells_held 1 0 5 ≡ 4 }
    ensures was_held { WasHeld three tells_held 4 2 0 4 }
    ensures less_was_held { WasHeld three tells_held 4 2 0 3 }
    ensures more_was_not_held { WasHeld three tells_held 4 2 0 5 → ⊥ }
    ensures not_held_at_another_node { WasHeld three tells_held 4 1 0 4 → ⊥ }
    ensures not_held_of_another_token { WasHeld three tells_held 4 2 1 4 → ⊥ }
    ensures held_later { floor_in three tells_early 2 0 5 ≡ 4 }
    ensures not_held_yet { WasHeld three tells_early 3 2 0 4 → ⊥ }
    ensures not_held { WasHeld three locks_out 6 2 0 9 → ⊥ }
    ensures tells_too_high { TellsHeld three locks_out 6 → ⊥ }
    ensures tells_by_a_line { TellsHeld three locks_out 7 → ⊥ }
    ensures tells_by_an_offer { TellsHeld three locks_out 8 → ⊥ }
    ensures taken { IsTakenInAction 1 Tick (Some (Takes 1 Tick)) }
    ensures taken_in_a_stop { IsTakenInAction 1 Tick (Some (StopsIn 1 false Tick)) }
    ensures taken_elsewhere { IsTakenInAction 2 Tick (Some (Takes 1 Tick)) → ⊥ }
    ensures taken_in_a_stop_elsewhere { IsTakenInAction 2 Tick (Some (StopsIn 1 false Tick)) → ⊥ }
    ensures taken_another { IsTakenInAction 1 Tick (Some (Takes 1 silver_line)) → ⊥ }
    ensures taken_another_in_a_stop { IsTakenInAction 1 Tick (Some (StopsIn 1 true silver_line)) → ⊥ }
{}

/// Counterexamples: each promise of an answer fails for a minimal one.
pub fn answers_can_be_broken()
    ensures asked { IsAskedInAction 1 7 silver_text (codes "1") (Some (Takes 1 silver_line)) }
    ensures asked_at_another_node { IsAskedInAction 2 7 silver_text (codes "1") (Some (Takes 1 silver_line)) → ⊥ }
    ensures asked_by_another_client { IsAskedInAction 1 8 silver_text (codes "1") (Some (Takes 1 silver_line)) → ⊥ }
    ensures asked_with_another_nonce { IsAskedInAction 1 7 silver_text (codes "2") (Some (Takes 1 silver_line)) → ⊥ }
    ensures asked_by_nobody { IsAskedInAction 1 7 silver_text (codes "1") (Some (Takes 1 Tick)) → ⊥ }
    ensures asked_in_a_stop { IsAskedInAction 1 7 silver_text (codes "1") (Some (StopsIn 1 true silver_line)) }
    ensures stop_at_another_node { IsAskedInAction 2 7 silver_text (codes "1") (Some (StopsIn 1 true silver_line))
        → ⊥ }
    ensures stop_of_another_client { IsAskedInAction 1 8 silver_text (codes "1") (Some (StopsIn 1 true silver_line))
        → ⊥ }
    ensures stop_with_another_nonce { IsAskedInAction 1 7 silver_text (codes "2") (Some (StopsIn 1 true silver_line))
        → ⊥ }
    ensures stop_that_lost_it { IsAskedInAction 1 7 silver_text (codes "1") (Some (StopsIn 1 false silver_line)) → ⊥ }
    ensures said { IsSaidInAction 1 7 silver_text (Some (Takes 1 silver_line)) }
    ensures said_at_another_node { IsSaidInAction 2 7 silver_text (Some (Takes 1 silver_line)) → ⊥ }
    ensures said_by_another_client { IsSaidInAction 1 8 silver_text (Some (Takes 1 silver_line)) → ⊥ }
    ensures said_with_another_text { IsSaidInAction 1 7 [] (Some (Takes 1 silver_line)) → ⊥ }
    ensures said_in_a_stop { IsSaidInAction 1 7 silver_text (Some (StopsIn 1 true silver_line)) → ⊥ }
    ensures belongs { BelongsToAcceptance alone answers_silver silver_ok }
    ensures belongs_to_none { BelongsToAcceptance alone has_silver silver_ok → ⊥ }
    ensures belongs_to_a_later_one { BelongsToAcceptance alone answers_silver (record silver_ok { event = 1 }) → ⊥ }
    ensures told_by_another_node { BelongsToAcceptance alone answers_silver (record silver_ok { node = 2 }) → ⊥ }
    ensures told_to_another_client { BelongsToAcceptance alone answers_silver (record silver_ok { client = 8 }) → ⊥ }
    ensures told_another_factor { BelongsToAcceptance alone answers_silver
        (told_outcome 2 1 7 (codes "1") (Accepted 1)) → ⊥ }
    ensures told_again_unasked { BelongsToAcceptance alone answers_silver (record silver_ok { event = 3 }) → ⊥ }
    ensures reply_of_none { IsTrueReply alone has_silver 1 7 silver_ok.bytes → ⊥ }
    ensures reply_of_another_node { IsTrueReply alone answers_silver 2 7 silver_ok.bytes → ⊥ }
    ensures reply_to_another_client { IsTrueReply alone answers_silver 1 8 silver_ok.bytes → ⊥ }
    ensures reply_of_nothing { IsTrueReply alone answers_silver 1 7 [] → ⊥ }
    // Each OK of a list is meant. None is for a client that sent no line, at any place.
    ensures each { (setting : Setting) (history : List Action) (answers : List Answer) (i : ℕ) (answer : Answer)
        → AnswerTruly setting history answers → slice_get answers i ≡ Some answer → IsOk answer.bytes
        → BelongsToAcceptance setting history answer }
    ensures first_untrue { AnswerTruly alone answers_silver (record silver_ok { client = 8 } ∷ silver_ok ∷ []) → ⊥ }
    ensures second_untrue { AnswerTruly alone answers_silver (silver_ok ∷ record silver_ok { client = 8 } ∷ []) → ⊥ }
{}

/// Worked cases.
pub fn answers_are_worked()
    ensures waits { HasYetToOffer silver_ok (process_of_1 takes_silver) }
    ensures waits_no_more { HasYetToOffer silver_ok (process_of_1 answers_silver) → ⊥ }
    ensures lost { IsLost alone (takes_silver ++ Stops 1 ∷ []) silver_ok }
    ensures not_lost { IsLost alone answers_silver silver_ok → ⊥ }
    ensures not_lost_once_offered { IsLost alone (answers_silver ++ Stops 1 ∷ []) silver_ok → ⊥ }
    ensures of_another { IsOfferedOrEnds alone answers_silver (record silver_ok { client = 8 }) → ⊥ }
    ensures stop { EndsProcess 1 (Some (Stops 1)) }
    ensures stop_in_a_step { EndsProcess 1 (Some (StopsIn 1 false silver_line)) }
    ensures stop_elsewhere { EndsProcess 1 (Some (Stops 2)) → ⊥ }
    ensures stop_in_a_step_elsewhere { EndsProcess 1 (Some (StopsIn 2 false silver_line)) → ⊥ }
    ensures opening { EndsProcess 1 (Some (Opens 1 silver_alone)) → ⊥ }
    ensures opened_gate { EndsProcess 1 (Some (OpensGate 1 0)) → ⊥ }
    ensures loss { EndsProcess 1 (Some (Loses 1)) }
    ensures loss_elsewhere { EndsProcess 1 (Some (Loses 2)) → ⊥ }
    ensures making { EndsProcess 1 (Some (Remakes 1 2 [] (λ token. 0))) → ⊥ }
    // An acceptance written in a stop inside a step has no answer. Every other acceptance has one.
    ensures of_a_stop { IsAnsweredInAction alone (ends_in_the_step true) silver_pass
        (Some (StopsIn 1 true silver_line)) }
    ensures of_a_lost_stop { IsAnsweredInAction alone (ends_in_the_step false) silver_pass
        (Some (StopsIn 1 false silver_line)) → ⊥ }
    ensures of_an_offer { IsAnsweredInAction alone answers_silver silver_pass (Some (Offers 1)) → ⊥ }
    ensures answered { IsAnsweredInAction alone answers_silver silver_pass (Some (Takes 1 silver_line)) }
    ensures in_another_action { IsAnsweredInAction alone answers_silver (record silver_pass { ended = 3 })
        (Some (Takes 1 silver_line)) → ⊥ }
    ensures at_another_node { IsAnsweredInAction alone answers_silver (record silver_pass { node = 2 })
        (Some (Takes 1 silver_line)) → ⊥ }
    // Node 2 is no member. Its line came, and the node alone accepted its own.
    ensures by_another_node { IsAnsweredInAction alone among_strangers (accepted 2 3 2 0 0 0)
        (Some (Takes 1 silver_line)) → ⊥ }
    ensures without_a_line { IsAnsweredInAction alone answers_silver (record silver_pass { began = 0 })
        (Some (Takes 1 silver_line)) → ⊥ }
    ensures with_another_factor { IsAnsweredInAction alone answers_silver (record silver_pass { hi = 1 })
        (Some (Takes 1 silver_line)) → ⊥ }
    // Each acceptance of a list is meant. None ends in an offer, at any place.
    ensures each { (setting : Setting) (history : List Action) (passes : List Acceptance) (i : ℕ) (pass : Acceptance)
        → AnswersAll setting history passes → slice_get passes i ≡ Some pass
        → IsAnsweredInAction setting history pass (slice_get history pass.ended) }
    ensures first_unanswered { AnswersAll alone answers_silver (record silver_pass { ended = 3 } ∷ silver_pass ∷ [])
        → ⊥ }
    ensures second_unanswered { AnswersAll alone answers_silver (silver_pass ∷ record silver_pass { ended = 3 } ∷ [])
        → ⊥ }
{}

/// Worked cases.
pub fn grounds_are_worked()
    ensures drift { drift_of drifted 3 ≡ pos 2 }
    ensures drift_of_another { drift_of drifted 5 ≡ pos 0 }
    ensures drift_without_a_row { drift_of drifted 4 ≡ pos 0 }
    ensures drift_before { drift_in alone takes_silver 1 0 3 ≡ pos 0 }
    ensures offer { IsJustifiedInAction alone answers_silver (accepted 3 3 1 0 0 0) → ⊥ }
    ensures no_action { IsJustifiedInAction alone answers_silver (accepted 9 9 1 0 0 0) → ⊥ }
    ensures node { IsJustifiedInAction alone answers_silver (accepted 2 2 2 0 0 0) → ⊥ }
    ensures token { IsJustifiedInAction alone answers_silver (record silver_pass { token = 1 }) → ⊥ }
    // The line is maple's, whose number is 0. The seat of silver's token has the number 1.
    ensures user { IsJustifiedInAction alone maple_accepted (accepted 3 3 1 0 0 0) → ⊥ }
    ensures lost { IsJustifiedInAction alone (ends_in_the_step false) silver_pass → ⊥ }
    ensures tick { IsJustifiedInAction alone (has_silver ++ Opens 1 silver_alone ∷ Takes 1 Tick ∷ []) silver_pass → ⊥ }
    ensures nobody { IsJustifiedInAction alone (has_silver ++ Stops 1 ∷ Takes 1 silver_line ∷ []) silver_pass → ⊥ }
    ensures node_in_a_stop { IsJustifiedInAction alone (ends_in_the_step true) (accepted 2 2 2 0 0 0) → ⊥ }
    // A failure 4 seconds before has closed the token.
    ensures closed { IsJustifiedInAction alone hurries (accepted 3 3 1 0 0 0) → ⊥ }
    // Each acceptance of a list is meant. An offer justifies none, at any place.
    ensures each { (setting : Setting) (history : List Action) (passes : List Acceptance) (i : ℕ) (pass : Acceptance)
        → JustifiesAll setting history passes → slice_get passes i ≡ Some pass
        → IsJustifiedInAction setting history pass }
    ensures first_unjustified { JustifiesAll alone answers_silver (accepted 3 3 1 0 0 0 ∷ silver_pass ∷ []) → ⊥ }
    ensures second_unjustified { JustifiesAll alone answers_silver (silver_pass ∷ accepted 3 3 1 0 0 0 ∷ []) → ⊥ }
{}

/// Worked cases.
pub fn uses_are_worked()
    ensures first { (first_store late 1).content.boot ≡ last_boot - 1 }
    ensures after { store_after alone three_uses (first_store alone 1)
        ≡ record { names = 0 ∷ []; content = record { rows = row_from 31 ∷ []; boot = 5; last = None } } }
    ensures raised_after_a_process { floor_of (store_after alone (ServesStore silver_alone [] [] [] silver_row.content
        ∷ Writes (Raises 1 0 9) ∷ []) silver_row) 0 ≡ 9 }
    ensures own { own_process alone 1 0 takes_silver (Down (first_store alone 1)) ≡ process_of_1 takes_silver }
    ensures of_another { own_process alone 2 0 takes_silver (Down (first_store alone 2))
        ≡ Down (first_store alone 2) }
    ensures offers { own_offers alone 1 0 answers_silver (Down (first_store alone 1)) ≡ ToClient silver_ok ∷ [] }
    ensures offers_of_another { own_offers alone 2 0 answers_silver (Down (first_store alone 2)) ≡ [] }
    ensures inputs { inputs_at 1 answers_silver ≡ silver_line ∷ [] }
    ensures inputs_of_another { inputs_at 2 answers_silver ≡ [] }
    ensures inputs_of_a_stop { inputs_at 1 (StopsIn 1 true Tick ∷ Takes 1 silver_line ∷ []) ≡ silver_line ∷ [] }
    ensures named { named_output maple_first (ToPeerOwn (record { sender = 2; receiver = 1; message = Floor 1 4 }))
        ≡ ToPeer old_floor }
    ensures answer_named { named_output maple_first (ToClientOwn silver_ok) ≡ ToClient silver_ok }
    ensures answer_encoded { offer_of_output first_key (ToClientOwn silver_ok) ≡ Offered (ToLine 7) silver_ok.bytes }
    ensures recorded { offers_recorded two_replies
        ≡ Offered (ToLine 7) silver_ok.bytes ∷ Offered (ToLine 8) [] ∷ [] }
    ensures replies { AreOffersOfUses two_replies (ToClient silver_ok ∷ ToClient second_reply ∷ []) }
    ensures serving { AreServing 1 (Takes 1 silver_line ∷ Stops 2 ∷ Offers 1 ∷ []) }
    // The uses of a node may stand among another node's actions.
    ensures writes { HasUses alone 1 (first_store alone 1) two_writes among_another }
    ensures process { HasUses alone 1 silver_row idle_use idle_among_another }
{}

/// Counterexamples: each condition of a node's uses fails for minimal ones.
pub fn uses_can_be_broken()
    ensures row_elsewhere { AreUses alone 1 silver_row (Writes (Enrols 2 0 0) ∷ []) → ⊥ }
    ensures unlocked_elsewhere { AreUses alone 1 silver_row (Writes (Unlocks 2 0) ∷ []) → ⊥ }
    ensures opened_gate_is_a_use { AreUses alone 1 silver_row (Writes (OpensGate 1 0) ∷ []) → ⊥ }
    ensures raised_elsewhere { AreUses alone 1 silver_row (Writes (Raises 2 0 0) ∷ []) → ⊥ }
    ensures failed_elsewhere { AreUses alone 1 silver_row (Writes (FailsToOpen 2 true) ∷ []) → ⊥ }
    ensures loss_is_a_use { AreUses alone 1 silver_row (Writes (Loses 1) ∷ []) → ⊥ }
    ensures second_loss_is_a_use { AreUses alone 1 silver_row (Writes (Unlocks 1 0) ∷ Writes (Loses 1) ∷ []) → ⊥ }
    ensures after_another_use { (setting : Setting) (node : ℕ) (store : Store) (terms : Terms) (port : List ℕ)
        (taken : List NodeEvent) (entries : List PortEvent) (left : Content) (uses : List StoreUse)
        → AreUses setting node store (ServesStore terms port taken entries left ∷ uses)
        → AreUses setting node (store_under terms.seats left store) uses }
    // A store without a row for silver, one at the last boot, a tick without a receive, an offer that the machine
    // didn't make, and a stop that forgets the boot.
    ensures no_row_there { IsProcess alone 1 silver_alone [] (first_store alone 1) [] [] silver_row.content → ⊥ }
    ensures no_boot_there { IsProcess alone 1 silver_alone [] (store_with_rows last_boot (0 ∷ []) (λ token. 0)) [] []
        silver_row.content → ⊥ }
    ensures ticked_unasked { IsProcess alone 1 silver_alone [] silver_row (Tick ∷ []) [] silver_row.content → ⊥ }
    ensures offered_unmade { IsProcess alone 1 silver_alone [] silver_row [] (Offered (ToLine 7) [] ∷ [])
        silver_row.content → ⊥ }
    ensures left_as_found { IsProcess alone 1 silver_alone [] silver_row [] [] silver_row.content → ⊥ }
    ensures recorded_unoffered { TakesAndOffers alone 1 silver_alone [] silver_row [] (Offered (ToLine 7) [] ∷ []) []
        → ⊥ }
    ensures reply_unrecorded { AreOffersOfUses [] (ToClient silver_ok ∷ []) → ⊥ }
    ensures second_reply_is_missing { AreOffersOfUses two_replies (ToClient silver_ok ∷ []) → ⊥ }
    ensures stop_serves { AreServing 1 (Stops 1 ∷ []) → ⊥ }
    ensures opened_gate_serves { AreServing 1 (Offers 1 ∷ OpensGate 1 0 ∷ []) → ⊥ }
    ensures second_opening_serves { AreServing 1 (Offers 1 ∷ Opens 1 silver_alone ∷ []) → ⊥ }
    ensures one_action_more { HasUses alone 1 silver_row [] (Offers 2 ∷ Offers 1 ∷ []) → ⊥ }
    ensures second_use_is_missing { HasUses alone 1 silver_row (Writes (Unlocks 1 0) ∷ Writes (Unlocks 1 1) ∷ [])
        (Unlocks 1 0 ∷ []) → ⊥ }
{}
