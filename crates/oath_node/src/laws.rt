ghost use Rattle.std.specs.Prelude.{pos, negsuc, ◌≡◌, ◌<◌, ◌≤◌, ◌^◌, ◌∷◌, ◌++◌, [], ℕ, List, Some, None, codes, false, length, replicate, true, Ok, Err, Result};
ghost use Rattle.token_file.specs.declared.token.Password.TheVariants.{Equal, NoneAllowed, NotChecked};
ghost use Rattle.admit_core.specs.Throttle.{Accepted as Passed, Failed, SpacesFailures};
ghost use Rattle.floor_store.specs.Records.{span_of};
ghost use Rattle.oath_node.specs.Cases.{asking_node, config, content_with, datagram, denial, drifts_left, facts_of, first_line, full_node, grant, idle_node, line, node_with_kept, nothing_at_start, nothing_of_asking, rows_at_start, step_alone, step_among, told_at_start, told_of_asking};
ghost use Rattle.oath_node.specs.Alone.{IsAlone, ServesAlone, alone_place};
ghost use Rattle.oath_node.specs.Column.{column_fits};
ghost use Rattle.oath_node.specs.Grounds.{HasGrounds, IsSameStanding, IsWrong};
ghost use Rattle.oath_node.specs.Machine.{Client, Config, NodeEvent, NodeState, Peer, Tick, made_by_event, opened_node, restarted_node, ruling_at, stopped_node, node_with_answer, quiet_made, reply_made};
ghost use Rattle.oath_node.specs.Outputs.{outputs_of, no_outputs, reply_outputs};
ghost use Rattle.oath_node.specs.ReferenceServer.{Line, Server, restarted_server, service_of, server_at};
ghost use Rattle.oath_node.specs.Refusals.{IsRefusal, KeepsFloors, SparesToken};
ghost use Rattle.oath_node.specs.Report.{AreJustified, acceptances_of, report_of, results_in};
ghost use Rattle.oath_node.specs.Rules.{Standing, ruling};
ghost use Rattle.otp_core.specs.Acceptance.{HaveSingleUse, KeepRealTimeOrder};
ghost use Rattle.otp_core.specs.Limits.{Limits, default_limits};
ghost use Rattle.token_file.specs.Credential.{Credential};
ghost use Rattle.vote_core.specs.Cases.{free_row, pass, place, proposal};
ghost use Rattle.vote_core.specs.NodeSet.{PlaceRecord};
ghost use Rattle.vote_core.specs.Rows.{row};
ghost use Rattle.vote_core.specs.State.{IsPlace, ballot_of};
ghost use Rattle.vote_core.specs.Voting.{fresh_voter};
ghost use Rattle.vote_core.specs.declared.message.Message.TheVariants.{Ask, Floor, Grant};
ghost use Rattle.oath_node.specs.Examples.{IsJustifiedByClock, IsJustifiedInRun, drift_of_passes, kept_in, lines_given_again, lines_of_a_run, outcome_of, outcome_of_clock, pass_with, server_of, silver_before, ruling_by_clock, ruling_on, narrow_limits, one_clock, standing_with, three_tokens};
ghost use Rattle.client_lines.specs.declared.answer.Reason.TheVariants.{Clock, Exhausted, Invalid, Password, Throttled, Unknown};
ghost use Rattle.oath_node.specs.declared.ruling.Ruling.TheVariants.{Again, Denied, Fitting, Outside, Waiting, Wrong};
ghost use Rattle.floor_store.specs.Broken.{broken_at, fallen_at, small_held, store_at, unsettled_at};
ghost use Rattle.floor_store.specs.Examples.{content_at, granted_row, later_row, two_rows};
ghost use Rattle.floor_store.specs.declared.fault.StoreFault.TheVariants.{Disk};
ghost use Rattle.vote_core.specs.Broken.{lone_voter, small_ballot};
ghost use Rattle.oath_node.specs.Broken.{IsProposed, all_free, all_of_a_tick, answering, crowded_node, done, failed, failed_node, fallen_node, first_state, keyed, no_line, node_of_three, node_over, noise, number_spent, opened_at_1, owner_of, owning, quiet, serving_node, small_node, stopped, under, waiting, was_stopped};
ghost use Rattle.oath_node.specs.Calls.{CommitsNode, Handles, IsMade, IsOpened, IsProposal, IsProposing, IsRefused, Restarts, Takes};
ghost use Rattle.oath_node.specs.Hosted.{IsNode, IsOwned, IsSameNode};
ghost use Rattle.oath_node.specs.Serving.{IsAnswered, IsInMemory, IsServerAfter, IsServing};
ghost use Rattle.oath_node.specs.declared.fault.NodeFault.TheVariants.{Store, Stopped, Spent};
ghost use Rattle.oath_node.specs.declared.fault.OpenFault.TheVariants.{Memory, Store as OpenStore};

use admit_core::{failures_are_spaced, gate_keeps_throttle, least_fit_is_least};

/// Worked cases.
pub fn rules_are_worked()
    ensures bad_line { ruling_on 0 1 1099511627776 (codes "CHECK 1 lead 755224") ≡ Outside }
    ensures clock { ruling_on 0 1 1099511627776 (codes "CHECK 1 lead 755224 -") ≡ Denied (codes "1") Clock }
    ensures last_moment { ruling_on 0 0 1099511627775 (codes "CHECK 1 silver 755224 -")
        ≡ Fitting (codes "1") 0 (span_of 0 0) (pos 0) }
    ensures unknown { ruling_on 0 1 100 (codes "CHECK 1 lead 755224 -") ≡ Denied (codes "1") Unknown }
    ensures throttled { ruling_on 4611686018427387904 1 100 (codes "CHECK 1 silver 755224 pw")
        ≡ Denied (codes "1") (Throttled 1) }
    ensures password { ruling_on 4611686018427387904 0 100 (codes "CHECK 1 silver 755224 pw")
        ≡ Wrong (codes "1") Password 0 }
    ensures no_password { ruling_on 0 0 100 (codes "CHECK 1 gold 969429 -") ≡ Wrong (codes "1") Password 1 }
    ensures exhausted { ruling_on 4611686018427387904 0 100 (codes "CHECK 1 silver 755224 -")
        ≡ Denied (codes "1") Exhausted }
    ensures last_factor { ruling_on 4611686018427387903 0 100 (codes "CHECK 1 silver 755224 -")
        ≡ Wrong (codes "1") Invalid 0 }
    ensures not_checked { ruling_on 0 0 100 (codes "CHECK 1 iron 755224 -") ≡ Denied (codes "1") Exhausted }

    // each token with its own floor (first free factor), up to the look-ahead or the range
    ensures first { ruling_on 0 0 100 (codes "CHECK 1 silver 755224 -") ≡ Fitting (codes "1") 0 (span_of 0 0) (pos 0) }
    ensures furthest { ruling_on 0 0 100 (codes "CHECK 1 silver 254676 -")
        ≡ Fitting (codes "1") 0 (span_of 5 5) (pos 0) }
    ensures too_far { ruling_on 0 0 100 (codes "CHECK 1 silver 287922 -") ≡ Wrong (codes "1") Invalid 0 }
    ensures gold { ruling_on 0 1 100 (codes "CHECK 1 gold 969429 pw") ≡ Fitting (codes "1") 1 (span_of 3 3) (pos 0) }
    ensures used_up { ruling_on 0 1 100 (codes "CHECK 1 gold 359152 pw") ≡ Wrong (codes "1") Invalid 1 }
    ensures two_codes { ruling_on 0 0 100 (codes "RESYNC 1 silver 399871 520489 -")
        ≡ Fitting (codes "1") 0 (span_of 8 9) (pos 0) }
    ensures two_too_far { ruling_on 0 0 100 (codes "RESYNC 1 silver 520489 403154 -")
        ≡ Wrong (codes "1") Invalid 0 }
{}

/// Worked cases.
pub fn columns_are_worked()
    ensures none { column_fits NoneAllowed None ≡ true }
    ensures none_allowed { column_fits NoneAllowed (Some (codes "pw")) ≡ false }
    ensures not_checked { column_fits NotChecked None ≡ true }
    ensures any { column_fits NotChecked (Some (codes "pw")) ≡ true }
    ensures missing { column_fits (Equal (record { items = codes "pw" })) None ≡ false }
    ensures equal { column_fits (Equal (record { items = codes "pw" })) (Some (codes "pw")) ≡ true }
    ensures longer { column_fits (Equal (record { items = codes "pw" })) (Some (codes "pwd")) ≡ false }
{}

/// Worked cases.
pub fn runs_are_worked()
    ensures outcome { outcome_of lines_of_a_run ≡ record {
      answers = (0, 7, codes "NO a INVALID") ∷ (1, 7, codes "NO b THROTTLED 1") ∷ (2, 7, codes "OK c 1")
          ∷ (3, 7, codes "NO d INVALID") ∷ (4, 7, codes "OK e 2") ∷ (5, 7, codes "NO - BADLINE")
          ∷ (6, 7, codes "NO f UNKNOWN") ∷ (7, 7, codes "NO g PASSWORD") ∷ [];
      passes = record { began = 2; token = 0; lo = 1; hi = 1 }
          ∷ record { began = 4; token = 1; lo = 1; hi = 2 } ∷ [];
      floors = 2 ∷ 3 ∷ 0 ∷ [];
      results = (Failed 106 ∷ Passed ∷ Failed 100 ∷ []) ∷ (Failed 110 ∷ Passed ∷ []) ∷ [] ∷ [];
    } }
    ensures before_any { silver_before 0 ≡ (0, []) }
    ensures before_accepted { silver_before 2 ≡ (0, Failed 100 ∷ []) }
    ensures after_accepted { silver_before 3 ≡ (2, Passed ∷ Failed 100 ∷ []) }
{}

/// Worked cases.
pub fn answers_are_given_again()
    ensures outcome { outcome_of lines_given_again ≡ record {
      answers = (0, 7, codes "OK 1 0") ∷ (1, 7, codes "OK 1 0") ∷ (2, 8, codes "NO 1 INVALID")
          ∷ (3, 7, codes "NO 2 THROTTLED 1") ∷ (4, 7, codes "NO 2 THROTTLED 1") ∷ (5, 7, codes "NO 3 INVALID")
          ∷ (6, 7, codes "NO - BADLINE") ∷ [];
      passes = record { began = 0; token = 0; lo = 0; hi = 0 } ∷ [];
      floors = 1 ∷ 0 ∷ 0 ∷ [];
      results = (Failed 65 ∷ Failed 60 ∷ Passed ∷ []) ∷ [] ∷ [] ∷ [];
    } }
    ensures kept { kept_in (server_of lines_given_again) ≡ (7, codes "OK 1 0") ∷ (8, codes "NO 1 INVALID")
        ∷ (7, codes "NO 2 THROTTLED 1") ∷ (7, codes "NO 3 INVALID") ∷ [] }
    ensures restarted { restarted_server (server_of lines_given_again) ≡ record {
      floors = 1 ∷ 0 ∷ 0 ∷ [];
      front = record {
        results = (Failed 65 ∷ Failed 60 ∷ Passed ∷ []) ∷ [] ∷ [] ∷ [];
        drifts = pos 0 ∷ pos 0 ∷ pos 0 ∷ [];
        answers = [];
      };
    } }
{}

/// Worked cases.
pub fn drifts_are_worked()
    ensures ten { outcome_of_clock 10
        ≡ (codes "OK 1 3" ∷ codes "OK 2 4" ∷ codes "OK 3 5" ∷ codes "NO 4 INVALID" ∷ [], negsuc 2 ∷ []) }
    ensures one { outcome_of_clock 1
        ≡ (codes "OK 1 3" ∷ codes "OK 2 4" ∷ codes "NO 3 INVALID" ∷ codes "OK 4 9" ∷ [], pos 0 ∷ []) }
    ensures none { outcome_of_clock 0
        ≡ (codes "OK 1 3" ∷ codes "NO 2 INVALID" ∷ codes "NO 3 INVALID" ∷ codes "OK 4 9" ∷ [], pos 0 ∷ []) }
    ensures right { ruling_by_clock (codes "CHECK 1 silver 359152 -") ≡ Fitting (codes "1") 0 (span_of 2 2) (negsuc 0) }
    ensures behind { ruling_by_clock (codes "CHECK 1 gold 287082 -") ≡ Fitting (codes "1") 1 (span_of 1 1) (negsuc 1) }
    ensures two_codes { ruling_by_clock (codes "RESYNC 1 silver 359152 969429 -")
        ≡ Fitting (codes "1") 0 (span_of 2 3) (pos 0) }
    ensures restarted { (restarted_server (record {
      floors = 4 ∷ [];
      front = record { results = [] ∷ []; drifts = negsuc 2 ∷ []; answers = [] };
    })).front.drifts ≡ negsuc 2 ∷ [] }
    ensures no_pass { drift_of_passes 0 [] ≡ pos 7 }
    ensures first_pass { drift_of_passes 0 (pass_with 0 0 3 ∷ []) ≡ negsuc 0 }
    ensures last_pass { drift_of_passes 0 (pass_with 0 0 3 ∷ pass_with 1 0 4 ∷ []) ≡ negsuc 1 }
    ensures far_pass { drift_of_passes 0 (pass_with 3 0 4 ∷ []) ≡ negsuc 2 }
    ensures other_token { drift_of_passes 0 (pass_with 0 0 3 ∷ pass_with 1 1 4 ∷ []) ≡ negsuc 0 }
    ensures event_token { drift_of_passes 1 (pass_with 0 1 3 ∷ []) ≡ pos 0 }
    ensures no_line { drift_of_passes 0 (pass_with 9 0 3 ∷ []) ≡ pos 0 }
    ensures no_token { drift_of_passes 9 (pass_with 0 9 3 ∷ []) ≡ pos 0 }
{}

/// Safety of the reference server: in every run, acceptances have single use and are justified, and failures are far
/// apart.
///
/// A run starts from one floor (first free factor) for each token. It accepts no factor of a token twice, and none at
/// or below an earlier one.
pub fn reference_server_is_safe()
    ensures single_use { (book : List Credential) (limits : Limits) (floors : List ℕ) (lines : List Line)
        → length floors ≡ length book → HaveSingleUse (acceptances_of (report_of book limits floors lines).passes) }
    ensures in_order { (book : List Credential) (limits : Limits) (floors : List ℕ) (lines : List Line)
        → length floors ≡ length book → KeepRealTimeOrder (acceptances_of (report_of book limits floors lines).passes) }
    ensures entitled { (book : List Credential) (limits : Limits) (floors : List ℕ) (lines : List Line)
        → length floors ≡ length book
        → AreJustified book limits floors lines (report_of book limits floors lines).passes }
    ensures spaced { (book : List Credential) (limits : Limits) (floors : List ℕ) (lines : List Line) (token : ℕ)
        → SpacesFailures (results_in book limits floors lines token) }
{
    failures_are_spaced();
    least_fit_is_least();
}

/// Counterexamples: each condition on an acceptance of the worked run fails for a minimal one.
pub fn justifications_in_runs_can_be_broken()
    ensures token { IsJustifiedInRun (record { began = 2; token = 1; lo = 1; hi = 1 }) → ⊥ }
    ensures factor { IsJustifiedInRun (record { began = 2; token = 0; lo = 0; hi = 0 }) → ⊥ }
    ensures bad_line { IsJustifiedInRun (record { began = 5; token = 0; lo = 1; hi = 1 }) → ⊥ }
    ensures no_line { IsJustifiedInRun (record { began = 8; token = 0; lo = 1; hi = 1 }) → ⊥ }
    ensures closed { IsJustifiedInRun (record { began = 1; token = 0; lo = 0; hi = 0 }) → ⊥ }
    ensures used_up { IsJustifiedInRun (record { began = 3; token = 0; lo = 1; hi = 1 }) → ⊥ }
    ensures drifted { IsJustifiedByClock (pass_with 3 0 9) → ⊥ }
{}

/// Grounds: every ruling has its grounds, at any server, and depends only on the standing.
pub fn rulings_have_grounds()
    ensures grounds { (book : List Credential) (limits : Limits) (standing : Standing) (moment : ℕ) (line : List ℕ)
        → HasGrounds book limits standing moment line (ruling book limits standing moment line) }
    ensures same { (book : List Credential) (limits : Limits) (one other : Standing) (moment : ℕ) (line : List ℕ)
        → IsSameStanding (length book) one other
        → ruling book limits one moment line ≡ ruling book limits other moment line }
{
    least_fit_is_least();
}

/// Refusals: a refused line changes gates only, and only the gate of a token that fails.
///
/// Every floor, grant and drift, the boot and the last pass stay unchanged.
pub fn refused_lines_change_gates_alone()
    ensures floors { (config : Config) (place : PlaceRecord) (node : NodeState) (client moment : ℕ) (line : List ℕ)
        → IsRefusal (ruling_at config node client moment line)
        → KeepsFloors node.content (made_by_event config place (Client client moment line) node).state.content }
    ensures gates { (config : Config) (place : PlaceRecord) (node : NodeState) (client moment : ℕ) (line : List ℕ)
        (token : ℕ)
        → IsRefusal (ruling_at config node client moment line)
        → SparesToken token (ruling_at config node client moment line)
        → (row (made_by_event config place (Client client moment line) node).state.content token).gate
        ≡ (row node.content token).gate }
{}

/// Bounded outputs: an event makes at most 264 datagrams and replies.
pub fn outputs_are_few()
    ensures { (key : List ℕ) (config : Config) (place : PlaceRecord) (node : NodeState) (event : NodeEvent)
        → IsPlace place → length node.voter.pending ≤ 32
        → length (outputs_of key place (made_by_event config place event node)).items ≤ 264 }
{}

/// Worked cases.
pub fn events_are_worked()
    // Client lines: each kind of ruling.
    ensures bad_line { step_alone (line (codes "CHECK")) (idle_node 0)
        ≡ record nothing_at_start { replies = (7, codes "NO - BADLINE") ∷ [] } }
    ensures again { step_alone (line (first_line ++ 10 ∷ [])) (node_with_kept (codes "OK a 9"))
        ≡ told_at_start (codes "OK a 9") }
    ensures another_client { step_alone (Client 8 100 first_line) (node_with_kept (codes "OK a 9"))
        ≡ record nothing_at_start {
          replies = (8, codes "OK a 0") ∷ [];
          floors = 1 ∷ 3 ∷ 4611686018427387904 ∷ [];
          kept = codes "OK a 9" ∷ codes "OK a 0" ∷ [];
        } }
    ensures waiting { step_among (line first_line) (asking_node 0 []) ≡ nothing_of_asking }
    ensures unknown { step_alone (line (codes "CHECK a lead 755224 -")) (idle_node 0)
        ≡ told_at_start (codes "NO a UNKNOWN") }
    ensures busy { step_among (line first_line) full_node
        ≡ record (told_at_start (codes "NO a BUSY")) { pending = replicate 32 0 } }
    ensures clock_before_busy { step_among (Client 7 1099511627776 first_line) full_node
        ≡ record (told_at_start (codes "NO a CLOCK")) { pending = replicate 32 0 } }
    ensures busy_before_unknown { step_among (line (codes "CHECK a lead 755224 -")) full_node
        ≡ record (told_at_start (codes "NO a BUSY")) { pending = replicate 32 0 } }
    ensures wrong { step_alone (line (codes "CHECK a silver 000000 -")) (idle_node 0)
        ≡ record (told_at_start (codes "NO a INVALID")) { fails = 1 ∷ 0 ∷ 0 ∷ [] } }
    ensures alone { step_alone (line first_line) (idle_node 0)
        ≡ record (told_at_start (codes "OK a 0")) { floors = 1 ∷ 3 ∷ 4611686018427387904 ∷ [] } }
    ensures among { step_among (line first_line) (idle_node 0) ≡ record nothing_of_asking {
      sends = (2, Ask (proposal 1 1 0) 0 (span_of 0 0)) ∷ (3, Ask (proposal 1 1 0) 0 (span_of 0 0)) ∷ [];
    } }
    ensures no_number { step_among (line first_line) (idle_node 4611686018427387904)
        ≡ record nothing_at_start { running = false } }
    ensures failed { facts_of (made_by_event config (place 1 1) (line (codes "CHECK a silver 000000 -")) (idle_node 0))
        ≡ (None, None, Some (0, 100)) }
    ensures begun { facts_of (made_by_event config (place 1 1) (line first_line) (idle_node 0))
        ≡ (Some (record { proposal = proposal 1 1 0; token = 0; lo = 0; hi = 0 }), Some (pass 0 0 0 1 0), None) }

    // Datagrams: messages that the node hears, and messages that it drops.
    ensures granted { step_among (datagram 2 2 1 grant) (asking_node 0 [])
        ≡ record (told_of_asking (codes "OK a 0")) { drifts = pos 3 ∷ pos 0 ∷ pos 0 ∷ [] } }
    ensures accepted { facts_of (made_by_event config (place 1 3) (datagram 2 2 1 grant) (asking_node 0 []))
        ≡ (None, Some (pass 0 0 0 1 0), None) }
    ensures denied { step_among (datagram 3 3 1 (denial 1)) (asking_node 0 (2 ∷ []))
        ≡ told_of_asking (codes "NO a SPENT") }
    ensures asked { step_among (datagram 2 2 1 (Ask (proposal 2 1 0) 1 (span_of 3 3))) (idle_node 0)
        ≡ record nothing_at_start {
          sends = (2, Grant (proposal 2 1 0) 1 (span_of 3 3)) ∷ [];
          floors = 0 ∷ 4 ∷ 4611686018427387904 ∷ [];
        } }
    ensures floor { step_among (datagram 2 2 1 (Floor 1 9)) (idle_node 0)
        ≡ record nothing_at_start { floors = 0 ∷ 9 ∷ 4611686018427387904 ∷ [] } }
    ensures unread { step_among (Peer 2 None) (asking_node 0 []) ≡ nothing_of_asking }
    ensures other_sender { step_among (datagram 2 3 1 grant) (asking_node 0 []) ≡ nothing_of_asking }
    ensures other_receiver { step_among (datagram 2 2 3 grant) (asking_node 0 []) ≡ nothing_of_asking }
    ensures own { step_among (datagram 1 1 1 (Floor 1 9)) (asking_node 0 []) ≡ nothing_of_asking }
    ensures no_member { step_among (datagram 4 4 1 grant) (asking_node 0 []) ≡ nothing_of_asking }
    ensures no_node { step_among (datagram 0 0 1 grant) (asking_node 0 []) ≡ nothing_of_asking }
    ensures no_token { step_among (datagram 2 2 1 (Floor 3 9)) (asking_node 0 []) ≡ nothing_of_asking }

    // Drifts: the stored drift moves the window. A node alone stores the line's drift at once, and among others it
    // waits with the proposal.
    ensures drifted_alone { drifts_left 1 (negsuc 0) ≡ (negsuc 1 ∷ [], []) }
    ensures drifted_among { drifts_left 3 (negsuc 0) ≡ (negsuc 0 ∷ [], negsuc 1 ∷ []) }
    ensures not_drifted { drifts_left 3 (pos 0) ≡ (pos 0 ∷ [], []) }

    // Ticks, and a stopped node.
    ensures late { step_among Tick (asking_node 7 []) ≡ record (told_of_asking (codes "NO a TIMEOUT")) {
      sends = (2, Floor 0 1) ∷ (3, Floor 0 1) ∷ [];
    } }
    ensures stopped { step_among (line first_line) (stopped_node (idle_node 0))
        ≡ record nothing_at_start { running = false } }

    // Opening and restart.
    ensures restarted { restarted_node (asking_node 0 []) ≡ opened_node (asking_node 0 []).content }
    ensures opened { opened_node (content_with (free_row 5 ∷ [])) ≡ record {
      content = record (content_with (free_row 5 ∷ [])) { boot = 2 };
      voter = fresh_voter;
      owners = [];
      answers = [];
      running = true;
    } }
    ensures last_boot { restarted_node (record (idle_node 0) {
      content = record (content_with rows_at_start) { boot = 4611686018427387903 };
    })
        ≡ record (idle_node 0) {
          content = record (content_with rows_at_start) { boot = 4611686018427387903 };
          running = false;
        } }
{}

/// Equivalence: a node that is alone runs for the first 2^62 lines and answers each line as the reference server does.
///
/// It sends nothing, gives the server's one reply, and its next state is the server's next state.
pub fn one_node_answers_as_the_server()
    ensures runs { (config : Config) (count : ℕ) (node : NodeState) (server : Server) (line : Line)
        → IsAlone count node server → count < 2 ^ 62
        → (made_by_event config alone_place (Client line.client line.moment line.text) node).state.running ≡ true }
    ensures serves { (config : Config) (count : ℕ) (node : NodeState) (server : Server) (line : Line)
        → IsAlone count node server
        → (made_by_event config alone_place (Client line.client line.moment line.text) node).state.running ≡ true
        → ServesAlone count
        (made_by_event config alone_place (Client line.client line.moment line.text) node) line
        (service_of config.book config.limits server line) }
{
    gate_keeps_throttle();
    least_fit_is_least();
}

/// Counterexamples: each promise of a call of a node fails for a minimal one, which keeps all other promises.
pub fn calls_can_be_broken()
    ensures made_told { IsMade [] (place 1 1) (quiet_made first_state) (reply_outputs 7 []) first_state → ⊥ }
    ensures made_left { IsMade [] (place 1 1) (quiet_made first_state) no_outputs (stopped_node first_state) → ⊥ }
    ensures same_book { IsSameNode small_node (record small_node { book = one_clock }) → ⊥ }
    ensures same_limits { IsSameNode small_node (record small_node { limits = narrow_limits }) → ⊥ }
    ensures same_key { IsSameNode small_node (keyed small_node) → ⊥ }
    ensures same_place { IsSameNode small_node (record small_node { voter = record lone_voter { place = place 1 3 } })
        → ⊥ }

    ensures takes { Takes small_held small_node small_node noise quiet }
    ensures takes_failed { Takes small_held small_node failed_node noise (Err (Store Disk)) }
    ensures takes_runs { Takes small_held fallen_node (stopped fallen_node) noise quiet → ⊥ }
    ensures takes_puts { Takes small_held (node_over (record (fallen_at 0) { failures = 1 }) []) fallen_node noise quiet
        → ⊥ }
    ensures takes_fails { Takes small_held small_node (node_over (broken_at 0) []) noise (Err (Store Disk)) → ⊥ }
    ensures takes_stopped { Takes small_held (stopped small_node) failed_node noise (Err (Store Disk)) → ⊥ }
    ensures takes_same { Takes small_held fallen_node (keyed fallen_node) noise quiet → ⊥ }

    ensures commits { CommitsNode small_held (node_over (unsettled_at 0 1) []) small_node done }
    ensures commits_failed { CommitsNode small_held small_node failed_node failed }
    ensures commits_all { CommitsNode small_held (node_over (unsettled_at 0 1) [])
        (node_over (unsettled_at 0 1) []) done → ⊥ }
    ensures commits_state { CommitsNode small_held small_node (answering small_node) done → ⊥ }
    ensures commits_runs { CommitsNode small_held fallen_node (stopped fallen_node) done → ⊥ }
    ensures commits_fails { CommitsNode small_held small_node (node_over (broken_at 0) []) failed → ⊥ }
    ensures commits_spent { CommitsNode small_held small_node small_node number_spent → ⊥ }
    ensures commits_stopped { CommitsNode small_held (stopped small_node) failed_node failed → ⊥ }
    ensures commits_same { CommitsNode small_held fallen_node (keyed fallen_node) done → ⊥ }

    ensures handles { Handles small_held small_node small_node noise quiet }
    ensures handles_failed { Handles small_held small_node failed_node noise (Err (Store Disk)) }
    ensures handles_stopped { Handles small_held (stopped small_node) (stopped small_node) noise (Err Stopped) }
    ensures handles_no_number { Handles small_held (node_of_three 4611686018427387904)
        (stopped (node_of_three 4611686018427387904)) (line first_line) (Err Spent) }
    ensures handles_runs { Handles small_held fallen_node (stopped fallen_node) noise quiet → ⊥ }
    ensures handles_writes { Handles small_held (node_over (record (fallen_at 0) { failures = 1 }) []) fallen_node noise
        quiet → ⊥ }
    ensures handles_same { Handles small_held fallen_node (keyed fallen_node) noise quiet → ⊥ }
    ensures failure_stops { Handles small_held small_node (node_over (broken_at 0) []) noise (Err (Store Disk)) → ⊥ }
    ensures failure_breaks { Handles small_held small_node
        (stopped (node_over (record (store_at 0) { failures = 1 }) [])) noise (Err (Store Disk)) → ⊥ }
    ensures failure_is_counted { Handles small_held (stopped (node_over (broken_at 0) [])) failed_node noise
        (Err (Store Disk)) → ⊥ }
    ensures stopped_before { Handles small_held small_node small_node noise (Err Stopped) → ⊥ }
    ensures stopped_unchanged { Handles small_held (stopped small_node) (stopped (answering small_node)) noise
        (Err Stopped) → ⊥ }
    ensures no_number_to_propose { Handles small_held (node_of_three 4611686018427387904)
        (stopped (node_of_three 4611686018427387904)) noise (Err Spent) → ⊥ }
    ensures no_number_is_left { Handles small_held (node_of_three 0) (stopped (node_of_three 0)) (line first_line)
        (Err Spent) → ⊥ }
    ensures no_number_stops { Handles small_held (node_of_three 4611686018427387904)
        (node_of_three 4611686018427387904) (line first_line) (Err Spent) → ⊥ }
{}

/// Steps: the effect of a call on a node is the step of its machine, with bounded outputs, under any key.
pub fn calls_make_steps()
    ensures takes_made { (key : List ℕ) → Takes small_held (under key small_node) (under key (answering small_node))
        noise quiet → ⊥ }
    ensures takes_few { (key : List ℕ) → Takes small_held (under key crowded_node) (under key crowded_node) Tick
        (all_of_a_tick (under key crowded_node)) → ⊥ }
    ensures handles_made { (key : List ℕ) → Handles small_held (under key small_node) (under key (answering small_node))
        noise quiet → ⊥ }
{}

/// Worked cases.
pub fn rulings_are_told_apart()
    ensures proposes { IsProposal (Fitting [] 0 (span_of 0 0) (pos 0)) }
    ensures bad_line { IsProposal Outside → ⊥ }
    ensures kept { IsProposal (Again []) → ⊥ }
    ensures waits { IsProposal Waiting → ⊥ }
    ensures denied { IsProposal (Denied [] Unknown) → ⊥ }
    ensures wrong { IsProposal (Wrong [] Invalid 0) → ⊥ }
    ensures tick { IsProposing config (idle_node 0) Tick → ⊥ }
    ensures datagram { IsProposing config (idle_node 0) noise → ⊥ }
    ensures refuses { IsRefusal Outside × IsRefusal (Again []) × IsRefusal Waiting × IsRefusal (Denied [] Unknown)
        × IsRefusal (Wrong [] Invalid 0) }
    ensures proposal_is_none { IsRefusal (Fitting [] 0 (span_of 0 0) (pos 0)) → ⊥ }
    ensures spares { SparesToken 0 Outside × SparesToken 0 (Again []) × SparesToken 0 Waiting
        × SparesToken 0 (Denied [] Unknown) × SparesToken 1 (Wrong [] Invalid 0)
        × SparesToken 0 (Fitting [] 0 (span_of 0 0) (pos 0)) }
    ensures spares_not { SparesToken 0 (Wrong [] Invalid 0) → ⊥ }
{}

/// Counterexamples: each promise of the opening, the restart and the invariant of a node fails for a minimal one.
pub fn openings_can_be_broken()
    ensures opened { IsOpened small_held (store_at 0) opened_at_1 }
    ensures opened_state { IsOpened small_held (store_at 0) (answering opened_at_1) → ⊥ }
    ensures opened_runs { IsOpened small_held (fallen_at 0) (stopped fallen_node) → ⊥ }
    ensures opened_raises { IsOpened small_held (record (fallen_at 0) { failures = 1 }) fallen_node → ⊥ }
    ensures refused_memory { IsRefused small_held (store_at 0) (store_at 0) Memory }
    ensures refused_and_changed { IsRefused small_held (store_at 0) (store_at 1) Memory → ⊥ }
    ensures refused_store { IsRefused small_held (store_at 0) (broken_at 0) (OpenStore Disk) }
    ensures refused_unbroken { IsRefused small_held (store_at 0) (store_at 0) (OpenStore Disk) → ⊥ }

    ensures restarts { Restarts small_held (stopped small_node) opened_at_1 done }
    ensures restarts_failed { Restarts small_held small_node failed_node failed }
    ensures restarts_state { Restarts small_held small_node (answering opened_at_1) done → ⊥ }
    ensures restarts_runs { Restarts small_held fallen_node (stopped fallen_node) done → ⊥ }
    ensures restarts_raises { Restarts small_held (node_over (record (fallen_at 0) { failures = 1 }) [])
        fallen_node done → ⊥ }
    ensures restarts_stops { Restarts small_held small_node (node_over (broken_at 0) []) failed → ⊥ }
    ensures restarts_stopped { Restarts small_held small_node small_node was_stopped → ⊥ }
    ensures restarts_spent { Restarts small_held small_node small_node number_spent → ⊥ }
    ensures restarts_same { Restarts small_held fallen_node (keyed fallen_node) done → ⊥ }

    ensures node { IsNode small_held small_node × IsNode small_held failed_node }
    ensures node_tokens { IsNode small_held (record failed_node { book = one_clock }) → ⊥ }
    ensures node_works { IsNode small_held (node_over (record (fallen_at 0) { fault = Some Disk }) []) → ⊥ }
    ensures node_store { IsNode small_held (record small_node { voter = record lone_voter { boot = 1 } }) → ⊥ }
    ensures node_owned { IsNode small_held (record small_node { owners = owner_of 0 ∷ [] }) → ⊥ }
    ensures owned { IsOwned (waiting (owner_of 0 ∷ []) 1) }
    ensures owned_below { IsOwned (waiting (owner_of 0 ∷ []) 0) → ⊥ }
    ensures owned_twice { IsOwned (waiting (owner_of 0 ∷ owner_of 0 ∷ []) 1) → ⊥ }
    ensures owned_pending { IsOwned (owning (owner_of 0 ∷ []) 1) → ⊥ }
    ensures owned_all_pending { IsOwned (waiting (owner_of 0 ∷ owner_of 1 ∷ []) 2) → ⊥ }

    ensures in_memory { IsInMemory [] default_limits (place 1 1) [] (5 ∷ []) serving_node }
    ensures in_memory_state { IsInMemory [] default_limits (place 1 1) [] (6 ∷ []) serving_node → ⊥ }
    ensures in_memory_book { IsInMemory one_clock default_limits (place 1 1) [] (5 ∷ []) serving_node → ⊥ }
    ensures in_memory_limits { IsInMemory [] narrow_limits (place 1 1) [] (5 ∷ []) serving_node → ⊥ }
    ensures in_memory_key { IsInMemory [] default_limits (place 1 1) (7 ∷ []) (5 ∷ []) serving_node → ⊥ }
    ensures in_memory_place { IsInMemory [] default_limits (place 1 3) [] (5 ∷ []) serving_node → ⊥ }
{}

/// Counterexamples: each promise of a node that is alone, beside the reference server, fails for a minimal one.
pub fn service_can_be_broken()
    ensures alone { IsAlone 0 first_state (server_at (5 ∷ [])) }
    ensures alone_running { IsAlone 0 (stopped_node first_state) (server_at (5 ∷ [])) → ⊥ }
    ensures alone_pending { IsAlone 0
        (record first_state { voter = record fresh_voter { pending = ballot_of small_ballot ∷ [] } })
        (server_at (5 ∷ [])) → ⊥ }
    ensures alone_owners { IsAlone 0 (record first_state { owners = owner_of 0 ∷ [] }) (server_at (5 ∷ [])) → ⊥ }
    ensures alone_answers { IsAlone 0 (node_with_answer 7 [] [] first_state) (server_at (5 ∷ [])) → ⊥ }
    ensures alone_floors { IsAlone 0 first_state (record (server_at (5 ∷ [])) { floors = 6 ∷ [] }) → ⊥ }
    ensures alone_gates { IsAlone 0 first_state (record (server_at (5 ∷ [])) {
      front = record (server_at (5 ∷ [])).front { results = (Failed 100 ∷ []) ∷ [] };
    }) → ⊥ }
    ensures alone_drifts { IsAlone 0 first_state (record (server_at (5 ∷ [])) {
      front = record (server_at (5 ∷ [])).front { drifts = pos 1 ∷ [] };
    }) → ⊥ }
    ensures alone_begun { IsAlone 0 (record first_state { voter = record fresh_voter { seq = 1 } }) (server_at (5 ∷ []))
        → ⊥ }

    ensures serves { ServesAlone 0 (reply_made 7 (codes "NO - BADLINE") None first_state) no_line
        (service_of [] default_limits (server_at (5 ∷ [])) no_line) }
    ensures serves_sends { ServesAlone 0
        (record (reply_made 7 (codes "NO - BADLINE") None first_state) { sends = (2, Floor 0 5) ∷ [] }) no_line
        (service_of [] default_limits (server_at (5 ∷ [])) no_line) → ⊥ }
    ensures serves_replies { ServesAlone 0 (quiet_made first_state) no_line
        (service_of [] default_limits (server_at (5 ∷ [])) no_line) → ⊥ }
    ensures serves_pass { ServesAlone 0
        (record (reply_made 7 (codes "NO - BADLINE") None first_state) { pass = Some (pass 0 5 5 1 0) }) no_line
        (service_of [] default_limits (server_at (5 ∷ [])) no_line) → ⊥ }
    ensures serves_state { ServesAlone 0 (reply_made 7 (codes "NO - BADLINE") None (stopped_node first_state)) no_line
        (service_of [] default_limits (server_at (5 ∷ [])) no_line) → ⊥ }

    ensures serving { IsServing serving_node [] default_limits 0 (server_at (5 ∷ [])) }
    ensures serving_book { IsServing serving_node one_clock default_limits 0 (server_at (5 ∷ [])) → ⊥ }
    ensures serving_limits { IsServing serving_node [] narrow_limits 0 (server_at (5 ∷ [])) → ⊥ }
    ensures serving_place { IsServing (record serving_node { voter = record lone_voter { place = place 1 3 } }) []
        default_limits 0 (server_at (5 ∷ [])) → ⊥ }
    ensures serving_alone { IsServing serving_node [] default_limits 0 (server_at (6 ∷ [])) → ⊥ }

    ensures server_after { IsServerAfter (record serving_node { running = false }) 0 → ⊥ }

    ensures answered { IsAnswered serving_node [] default_limits 0 (server_at (5 ∷ [])) no_line (λ bytes. bytes)
        (Ok (codes "NO - BADLINE")) }
    ensures answered_bytes { IsAnswered serving_node [] default_limits 0 (server_at (5 ∷ [])) no_line (λ bytes. bytes)
        (Ok (codes "NO")) → ⊥ }
    ensures answered_serving { IsAnswered (record serving_node { running = false }) [] default_limits 0
        (server_at (5 ∷ [])) no_line (λ bytes. bytes) (Ok (codes "NO - BADLINE")) → ⊥ }
    ensures answered_refused { IsAnswered serving_node [] default_limits 0 (server_at (5 ∷ [])) no_line
        (λ (bytes : List ℕ). bytes) (Err Spent) → ⊥ }
    ensures answered_to_the_end { IsAnswered serving_node [] default_limits 4611686018427387904 (server_at (5 ∷ []))
        no_line (λ (bytes : List ℕ). bytes) (Err Spent) }
{}

/// Counterexamples: each promise of refusals, of a failure's grounds and of standings fails for a minimal one.
pub fn refusals_can_be_broken()
    ensures kept { KeepsFloors (two_rows granted_row later_row None) (two_rows granted_row later_row None) }
    ensures kept_gates { KeepsFloors (content_at 0 (free_row 5 ∷ []))
        (content_at 0 (record (free_row 5) { gate = record { fails = 1; until = 65 } } ∷ [])) }
    ensures kept_tokens { KeepsFloors (content_at 0 []) (content_at 0 (free_row 0 ∷ [])) → ⊥ }
    ensures kept_next { KeepsFloors (content_at 0 (free_row 5 ∷ [])) (content_at 0 (free_row 6 ∷ [])) → ⊥ }
    ensures kept_grant { KeepsFloors (content_at 0 (granted_row ∷ []))
        (content_at 0 (record granted_row { grant = None } ∷ [])) → ⊥ }
    ensures kept_drift { KeepsFloors (content_at 0 (granted_row ∷ []))
        (content_at 0 (record granted_row { drift = pos 0 } ∷ [])) → ⊥ }
    ensures kept_boot { KeepsFloors (content_at 0 []) (content_at 1 []) → ⊥ }
    ensures kept_last { KeepsFloors (content_at 0 []) (record (content_at 0 []) { last = Some (pass 0 5 5 1 0) }) → ⊥ }

    ensures wrong { IsWrong one_clock (standing_with 0 0) 1099511627775 0 }
    ensures wrong_within { IsWrong one_clock (standing_with 0 0) 0 1 → ⊥ }
    ensures wrong_in_range { IsWrong one_clock (standing_with 0 0) 1099511627776 0 → ⊥ }
    ensures wrong_is_open { IsWrong one_clock (standing_with 0 1) 0 0 → ⊥ }

    ensures same_kept { IsSameStanding 1 (standing_with 0 0) (record (standing_with 0 0) { kept = Some [] }) → ⊥ }
    ensures same_waiting { IsSameStanding 1 (standing_with 0 0) (record (standing_with 0 0) { is_waiting = true }) → ⊥ }
    ensures same_full { IsSameStanding 1 (standing_with 0 0) (record (standing_with 0 0) { is_full = true }) → ⊥ }
    ensures same_next { IsSameStanding 1 (standing_with 0 0) (standing_with 1 0) → ⊥ }
    ensures same_drift { IsSameStanding 1 (standing_with 0 0)
        (record (standing_with 0 0) { drift = λ (token : ℕ). pos 1 }) → ⊥ }
    ensures same_wait { IsSameStanding 1 (standing_with 0 0) (standing_with 0 1) → ⊥ }
{}

/// Counterexamples: each independent condition on a line whose factors are proposed fails for a minimal one.
///
/// The first line of the worked steps keeps all of them. The remaining conditions follow from these: the token is in
/// the book, its factors are free, and they are one or two.
pub fn fittings_can_be_broken()
    ensures fitting { IsProposed (standing_with 0 0) 100 first_line (codes "a") 0 0 0 (pos 0) }
    ensures fitting_room { IsProposed (record (standing_with 0 0) { is_full = true }) 100 first_line (codes "a") 0 0 0
        (pos 0) → ⊥ }
    ensures fitting_grammar { IsProposed (standing_with 0 0) 100 (codes "CHECK") (codes "a") 0 0 0 (pos 0) → ⊥ }
    ensures fitting_nonce { IsProposed (standing_with 0 0) 100 first_line (codes "b") 0 0 0 (pos 0) → ⊥ }
    // silver's line with the place of iron, which has the same secret
    ensures fitting_token { IsProposed all_free 100 first_line (codes "a") 2 0 0 (pos 0) → ⊥ }
    ensures fitting_in_range { IsProposed (standing_with 0 0) 1099511627776 first_line (codes "a") 0 0 0 (pos 0) → ⊥ }
    ensures fitting_is_open { IsProposed (standing_with 0 1) 100 first_line (codes "a") 0 0 0 (pos 0) → ⊥ }
    ensures fitting_password { IsProposed (standing_with 0 0) 100 (codes "CHECK a silver 755224 pw") (codes "a") 0 0 0
        (pos 0) → ⊥ }
    ensures fitting_fit { IsProposed (standing_with 0 0) 100 first_line (codes "a") 0 0 1 (pos 0) → ⊥ }
    ensures fitting_kept { IsProposed (standing_with 0 0) 100 first_line (codes "a") 0 0 0 (pos 1) → ⊥ }

    ensures grounds_kept { HasGrounds [] default_limits (standing_with 0 0) 0 [] (Again []) → ⊥ }
    ensures grounds_waiting { HasGrounds [] default_limits (standing_with 0 0) 0 [] Waiting → ⊥ }
    ensures grounds_wrong { HasGrounds one_clock default_limits (standing_with 0 1) 0 [] (Wrong [] Invalid 0) → ⊥ }
    ensures grounds_fitting { HasGrounds three_tokens narrow_limits (standing_with 0 0) 100 first_line
        (Fitting (codes "b") 0 (span_of 0 0) (pos 0)) → ⊥ }
{
    least_fit_is_least();
}
