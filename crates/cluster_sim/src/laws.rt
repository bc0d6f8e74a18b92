ghost use Rattle.std.specs.Prelude.{pos, negsuc, ◌≡◌, ◌+◌, ◌<◌, ◌^◌, List, [], ◌∷◌, ℕ, None, codes, false, length, true};
ghost use Rattle.admit_core.specs.Throttle.{Accepted as Passed, Failed, SpacesFailures};
ghost use Rattle.otp_core.specs.Acceptance.{HaveSingleUse, KeepRealTimeOrder};
ghost use Rattle.vote_core.specs.Safety.{HaveMajority};
ghost use Rattle.vote_core.specs.declared.message.Message.TheVariants.{Floor};
ghost use Rattle.oath_node.specs.Machine.{Config};
ghost use Rattle.client_lines.specs.declared.answer.Outcome.TheVariants.{Accepted, Refused};
ghost use Rattle.client_lines.specs.declared.answer.Reason.TheVariants.{Busy, Clock, Exhausted, Invalid, Password, Spent, Throttled, Timeout, Unknown};
ghost use Rattle.cluster_sim.specs.Answered.{AreAnswered, NamePasses, TellTruth};
ghost use Rattle.cluster_sim.specs.Broken.{first_ok, first_two, no_line_at_1, ok_given, raised, round_line, second_line_waiting, second_spent, second_stopped, second_waiting, start_world};
ghost use Rattle.cluster_sim.specs.Examples.{IsAnsweredBy, IsJustifiedAlone, IsJustifiedAmong, IsJustifiedByClock, IsToldTruly, NamesItsPass, alone, clock_alone, clock_among, clock_config, clock_line_stopped, clock_lines, clock_stopped, clock_three, config, delivery, drift_of_passes, eight_ticks, exhausted, first_at_1, first_pass, five, four, fresh_token, gate_survives_restart, letter_lines, many_floors, many_users, moments_of_others, nothing_happens, old_grants, one_voter_twice, acceptance, password_column, refusal_again, report_with, resynchronization, line_at, second_factor_elsewhere, span_against_one, split_two_to_two, stop_after_the_commit, stop_before_accepting, stop_in_a_line, stop_in_a_tick, stop_in_noise, stop_of_nothing, three, told_outcome, told_bad_line, two_submissions, with_password};
ghost use Rattle.cluster_sim.specs.Drifts.{drift_before};
ghost use Rattle.cluster_sim.specs.LossExamples.{after_loss, alone_lost, answered_before, both_accepted, drifted_before, failed_and_there, failed_before, first_accepted, from_before, old_comes, old_comes_first, old_floor, old_grant, one_of_two, three_after, two_lost, without_a_store};
ghost use Rattle.cluster_sim.specs.Justified.{AreJustified, IsJustified};
ghost use Rattle.cluster_sim.specs.Results.{results_before, results_of};
ghost use Rattle.oath_node.specs.ReferenceServer.{server_at};
ghost use Rattle.cluster_sim.specs.RoundExamples.{clock_rounds, fronted_at, line_after_sweep, lines_after_failure, lines_after_loss, lines_again, lines_of_a_clock, not_level, one_line, one_lost, rounds_from_start, server_after_rounds, swept, three_lines, told_at_fronts, two_lines};
ghost use Rattle.cluster_sim.specs.Rounds.{AreServable, AreServed, HasNonePending, IsAnswerTo, IsSettled, ServesAsOne, RoundsAreTheReference, RoundsAreThese, RoundsByCount, RoundsReported, SweepEndSettles, SweepLevels, SweepSettles, TurnLevels, events_with_rounds};
ghost use Rattle.cluster_sim.specs.SingleNode.{reference_answers, opening_server};
ghost use Rattle.cluster_sim.specs.World.{Anew, MayStart, Restart, Start, WorldEvent, first_start, floor_before, opening_world, passes_of, report_of, world_of};

use admit_core::{failures_are_spaced, gate_keeps_throttle};
use oath_node::{one_node_answers_as_the_server, rulings_have_grounds};
use vote_core::votes_are_safe;

/// Safety of the world: in every list of events, acceptances are safe and justified, and failures are far apart.
///
/// It holds for every book and limits, and from every start of any number of nodes. The nodes may have run in earlier
/// boots.
pub fn world_is_safe()
    ensures single_use { (config : Config) (start : Start) (events : List WorldEvent) → MayStart config start
        → HaveSingleUse (passes_of config start events) }
    ensures in_order { (config : Config) (start : Start) (events : List WorldEvent) → MayStart config start
        → KeepRealTimeOrder (passes_of config start events) }
    ensures majority { (config : Config) (start : Start) (events : List WorldEvent) → MayStart config start
        → HaveMajority start.n (floor_before config start events) (passes_of config start events) }
    ensures justified { (config : Config) (start : Start) (events : List WorldEvent) → MayStart config start
        → AreJustified config start events (passes_of config start events) }
    ensures spaced { (config : Config) (start : Start) (events : List WorldEvent) (node token : ℕ)
        → SpacesFailures (results_of config start events node token) }
{
    votes_are_safe();
    rulings_have_grounds();
    gate_keeps_throttle();
    failures_are_spaced();
}

/// Truth of answers: each `OK` belongs to a pass of the node that gives it, and each pass has its `OK`.
///
/// The `OK` has the pass's last factor. The pass's line came from the same client with the same nonce. No other reply
/// begins like an `OK`. A pass that was accepted in a stop may lack its `OK`.
pub fn answers_belong_to_passes()
    ensures told { (config : Config) (start : Start) (events : List WorldEvent) → MayStart config start
        → let report = report_of config start events in NamePasses events report.passes report.answers }
    ensures no_other { (config : Config) (start : Start) (events : List WorldEvent) →
        let report = report_of config start events in TellTruth events report.passes report.answers }
    ensures answered { (config : Config) (start : Start) (events : List WorldEvent) →
        let report = report_of config start events in AreAnswered events report.answers report.passes }
{
    votes_are_safe();
    rulings_have_grounds();
    gate_keeps_throttle();
}

/// Equivalence: a single node answers as the reference server does, in every list of events that leaves boots and
/// numbers.
pub fn one_node_is_the_reference()
    ensures { (config : Config) (floors : List ℕ) (events : List WorldEvent) → 1 + length events < 2 ^ 62 →
        (report_of config (first_start (floors ∷ [])) events).answers
        ≡ reference_answers config 0 events (opening_server config floors) }
{
    one_node_answers_as_the_server();
}

/// Sweeps: from any world, a sweep levels the floors (first free factors) of all live members. A sweep of a strict
/// majority settles it.
///
/// The turn of a live member brings the others up to its floors. Both leave nothing waiting.
pub fn sweep_levels()
    ensures turn { TurnLevels }
    ensures sweep { SweepLevels }
    ensures settles { SweepSettles }
    ensures settles_at_end { SweepEndSettles }
{}

/// Rounds: a strict majority of settled members answers lines that arrive one at a time as one server does.
///
/// The members are front ends of this server. There must be numbers left for proposals.
pub fn rounds_are_the_reference()
    ensures rounds { RoundsAreTheReference }
    ensures counted { RoundsByCount }
    ensures these { RoundsAreThese }
    ensures reported { RoundsReported }
{
    rulings_have_grounds();
    gate_keeps_throttle();
}

/// Worked cases.
pub fn scripts_are_worked()
    ensures two_submissions { report_of config three two_submissions
        ≡ report_with (acceptance 0 4 1 0 0 ∷ []) (told_outcome 4 1 7 (codes "a") (Accepted 0)
        ∷ told_outcome 7 2 8 (codes "b") (Refused Spent) ∷ []) 7 }
    ensures split { report_of config four split_two_to_two
        ≡ report_with [] (told_outcome 9 1 7 (codes "a") (Refused Spent)
        ∷ told_outcome 13 2 8 (codes "b") (Refused Spent) ∷ []) 12 }
    ensures stop_kept { report_of config three (stop_after_the_commit true)
        ≡ report_with (acceptance 0 5 1 0 0 ∷ []) (told_outcome 5 1 7 (codes "a") (Accepted 0) ∷ []) 6 }
    ensures stop_lost { report_of config three (stop_after_the_commit false)
        ≡ report_with (acceptance 0 5 1 0 0 ∷ []) (told_outcome 5 1 7 (codes "a") (Accepted 0) ∷ []) 6 }
    ensures old_grants { report_of config three old_grants
        ≡ report_with (acceptance 6 8 1 1 1 ∷ []) (told_outcome 5 1 7 (codes "a") (Refused Invalid)
        ∷ told_outcome 8 1 7 (codes "c") (Accepted 1) ∷ []) 6 }
    ensures timeout { report_of config three eight_ticks
        ≡ report_with [] (told_outcome 8 1 7 (codes "a") (Refused Timeout) ∷ []) 32 }
    ensures elsewhere { report_of config three second_factor_elsewhere
        ≡ report_with (acceptance 0 2 1 0 0 ∷ acceptance 3 5 2 1 1 ∷ [])
        (told_outcome 2 1 7 (codes "a") (Accepted 0) ∷ told_outcome 5 2 8 (codes "b") (Accepted 1) ∷ []) 6 }
    ensures one_voter_twice { report_of config five one_voter_twice
        ≡ report_with (acceptance 0 5 1 0 0 ∷ []) (told_outcome 5 1 7 (codes "a") (Accepted 0) ∷ []) 6 }
    ensures span_against_one { report_of config three span_against_one
        ≡ report_with (acceptance 0 4 1 0 0 ∷ []) (told_outcome 4 1 7 (codes "a") (Accepted 0)
        ∷ told_outcome 7 2 8 (codes "b") (Refused Spent) ∷ []) 7 }
    ensures nothing_happens { report_of config three nothing_happens
        ≡ report_with (acceptance 0 8 1 0 0 ∷ []) (told_outcome 9 1 7 (codes "a") (Refused Invalid) ∷ []) 3 }
    ensures fresh_token { report_of config alone fresh_token
        ≡ report_with (acceptance 0 0 1 0 0 ∷ acceptance 6 6 1 2 2 ∷ [])
        (told_outcome 0 1 7 (codes "1") (Accepted 0) ∷ told_outcome 1 1 7 (codes "2") (Refused Invalid)
        ∷ told_outcome 2 1 7 (codes "1") (Accepted 0) ∷ told_outcome 3 1 8 (codes "1") (Refused (Throttled 1))
        ∷ told_outcome 4 1 8 (codes "3") (Refused Invalid) ∷ told_outcome 5 1 7 (codes "4") (Refused (Throttled 1))
        ∷ told_outcome 6 1 7 (codes "5") (Accepted 2) ∷ told_outcome 7 1 7 (codes "6") (Refused Unknown)
        ∷ told_bad_line 8 1 7 ∷ told_outcome 9 1 7 (codes "8") (Refused Clock) ∷ []) 0 }
    ensures refusal_again { report_of config alone refusal_again
        ≡ report_with (acceptance 2 2 1 0 0 ∷ []) (told_outcome 0 1 7 (codes "1") (Refused Invalid)
        ∷ told_outcome 1 1 7 (codes "1") (Refused Invalid) ∷ told_outcome 2 1 7 (codes "2") (Accepted 0) ∷ []) 0 }
    ensures resynchronization { report_of config alone resynchronization
        ≡ report_with (acceptance 1 1 1 7 8 ∷ []) (told_outcome 0 1 7 (codes "4") (Refused Invalid)
        ∷ told_outcome 1 1 7 (codes "5") (Accepted 8) ∷ []) 0 }
    ensures gate_survives_restart { report_of config alone gate_survives_restart
        ≡ report_with (acceptance 3 3 1 0 0 ∷ []) (told_outcome 0 1 7 (codes "1") (Refused Invalid)
        ∷ told_outcome 2 1 7 (codes "1") (Refused (Throttled 1)) ∷ told_outcome 3 1 7 (codes "3") (Accepted 0) ∷ []) 0 }
    ensures password_column { report_of with_password alone password_column
        ≡ report_with (acceptance 1 1 1 0 0 ∷ []) (told_outcome 0 1 7 (codes "1") (Refused Password)
        ∷ told_outcome 1 1 7 (codes "2") (Accepted 0) ∷ []) 0 }
    ensures exhausted { report_of config exhausted (line_at 1 7 100 (codes "CHECK 1 silver 755224 -") ∷ [])
        ≡ report_with [] (told_outcome 0 1 7 (codes "1") (Refused Exhausted) ∷ []) 0 }
{}

/// Worked cases.
pub fn stops_are_worked()
    ensures before_accepting { report_of config three stop_before_accepting
        ≡ report_with [] (told_outcome 3 1 7 (codes "a") (Refused Invalid) ∷ []) 3 }
    ensures of_nothing { report_of config three stop_of_nothing
        ≡ report_with (acceptance 0 3 1 0 0 ∷ []) (told_outcome 3 1 7 (codes "a") (Accepted 0) ∷ []) 3 }
    ensures in_noise { report_of config three stop_in_noise ≡ report_with [] [] 3 }
    ensures in_a_tick { report_of config three stop_in_a_tick ≡ report_with [] [] 3 }
    ensures in_a_line_kept { report_of config three (stop_in_a_line true)
        ≡ report_with [] (told_outcome 1 1 7 (codes "a") (Refused Invalid) ∷ []) 0 }
    ensures in_a_line_lost { report_of config three (stop_in_a_line false) ≡ report_with [] [] 2 }
{}

/// Worked cases.
pub fn busy_script_is_worked()
    ensures { report_of many_users many_floors (letter_lines 33)
        ≡ report_with [] (told_outcome 32 1 7 (codes "n") (Refused Busy) ∷ []) 64 }
{}

/// Worked cases.
pub fn losses_are_worked()
    ensures made_anew { report_of config three (after_loss (Anew 2 2 (1 ∷ []))) ≡ both_accepted }
    ensures boot_anew { ((world_of config three (after_loss (Anew 2 2 (1 ∷ [])))).nodes 2).content.boot ≡ 2 }
    ensures at_the_last_boot { report_of config three (after_loss (Anew 2 4611686018427387903 (1 ∷ [])))
        ≡ both_accepted }
    ensures too_low { report_of config three (after_loss (Anew 2 2 (0 ∷ []))) ≡ first_accepted }
    ensures no_floors { report_of config three (after_loss (Anew 2 2 [])) ≡ first_accepted }
    ensures at_a_used_boot { report_of config three (after_loss (Anew 2 1 (1 ∷ []))) ≡ first_accepted }
    ensures past_the_last_boot { report_of config three (after_loss (Anew 2 4611686018427387904 (1 ∷ [])))
        ≡ first_accepted }
    ensures not_lost { report_of config three (after_loss (Anew 3 2 (1 ∷ []))) ≡ first_accepted }
    ensures there { report_of config three failed_and_there
        ≡ report_with [] (told_outcome 0 1 7 (codes "a") (Refused Invalid)
        ∷ told_outcome 2 1 7 (codes "b") (Refused (Throttled 5)) ∷ []) 0 }
    ensures no_member { report_of config three (after_loss (Anew 4 2 (1 ∷ []))) ≡ first_accepted }
    ensures two_of_three { report_of config three two_lost ≡ first_accepted }
    ensures one_of_two { report_of config (first_start ((0 ∷ []) ∷ (0 ∷ []) ∷ [])) one_of_two
        ≡ report_with (acceptance 2 4 1 0 0 ∷ []) (told_outcome 4 1 7 (codes "a") (Accepted 0) ∷ []) 2 }
    ensures without_a_store { report_of config three without_a_store ≡ report_with [] [] 0 }
    ensures alone { report_of config alone alone_lost
        ≡ report_with (acceptance 0 0 1 0 0 ∷ []) (told_outcome 0 1 7 (codes "a") (Accepted 0) ∷ []) 0 }
    ensures alone_as_the_server { reference_answers config 0 alone_lost (opening_server config (0 ∷ []))
        ≡ told_outcome 0 1 7 (codes "a") (Accepted 0) ∷ [] }
    ensures answers { report_of config three answered_before
        ≡ report_with (acceptance 0 2 1 0 0 ∷ []) (told_outcome 2 1 7 (codes "a") (Accepted 0)
        ∷ told_outcome 5 1 7 (codes "a") (Refused Invalid) ∷ []) 3 }
    ensures gates { report_of config three failed_before
        ≡ report_with [] (told_outcome 0 1 7 (codes "a") (Refused Invalid) ∷ []) 2 }
    ensures results { results_before config three failed_before 1 0 2 ≡ Failed 1000 ∷ [] }
    ensures results_anew { results_of config three failed_before 1 0 ≡ [] }
    ensures drift { drift_before (clock_config 10) clock_three (drifted_before 1) 1 0 4 ≡ negsuc 0 }
    ensures drift_anew { drift_before (clock_config 10) clock_three (drifted_before 1) 1 0 5 ≡ pos 0 }
    ensures other_drift { drift_before (clock_config 10) clock_three (drifted_before 2) 1 0 5 ≡ negsuc 0 }
{}

/// Worked cases.
pub fn starts_are_worked()
    ensures first { MayStart config three }
    ensures grant_of_before { report_of config (three_after 2 old_grant) old_comes ≡ report_with [] [] 3 }
    ensures grant_at_its_boot { passes_of config (three_after 1 old_grant) old_comes ≡ acceptance 0 1 1 0 0 ∷ [] }
    ensures floor_of_before { report_of config (three_after 2 old_floor) old_comes_first
        ≡ report_with [] (told_outcome 1 1 7 (codes "a") (Refused Invalid) ∷ []) 1 }
    ensures boot { ((opening_world config (three_after 2 old_grant)).nodes 3).content.boot ≡ 2 }
    ensures later_boot { MayStart config (three_after 2 old_grant) }
    ensures same_boot { MayStart config (three_after 1 old_grant) → ⊥ }
    ensures to_no_member { MayStart config (three_after 2 (record old_floor { receiver = 4 })) → ⊥ }
    ensures of_no_token { MayStart config (three_after 2 (from_before (Floor 1 1))) → ⊥ }
    ensures floor_at_any_boot { MayStart config (three_after 1 old_floor) }
{}

/// Worked cases.
pub fn results_are_worked()
    ensures all { results_of config alone fresh_token 1 0
        ≡ Passed ∷ Failed 105 ∷ Failed 100 ∷ Passed ∷ [] }
    ensures before { results_before config alone fresh_token 1 0 4 ≡ Failed 100 ∷ Passed ∷ [] }
    ensures other_node { results_of config alone fresh_token 2 0 ≡ [] }
    ensures other_token { results_of config alone fresh_token 1 1 ≡ [] }
{}

/// Worked cases.
pub fn drifts_are_worked()
    ensures ten { report_of (clock_config 10) clock_alone clock_lines
        ≡ report_with (acceptance 0 0 1 3 3 ∷ acceptance 1 1 1 4 4 ∷ acceptance 2 2 1 5 5 ∷ [])
        (told_outcome 0 1 7 (codes "1") (Accepted 3) ∷ told_outcome 1 1 7 (codes "2") (Accepted 4)
        ∷ told_outcome 2 1 7 (codes "3") (Accepted 5) ∷ told_outcome 3 1 7 (codes "4") (Refused Invalid) ∷ []) 0 }
    ensures one { report_of (clock_config 1) clock_alone clock_lines
        ≡ report_with (acceptance 0 0 1 3 3 ∷ acceptance 1 1 1 4 4 ∷ acceptance 3 3 1 9 9 ∷ [])
        (told_outcome 0 1 7 (codes "1") (Accepted 3) ∷ told_outcome 1 1 7 (codes "2") (Accepted 4)
        ∷ told_outcome 2 1 7 (codes "3") (Refused Invalid) ∷ told_outcome 3 1 7 (codes "4") (Accepted 9) ∷ []) 0 }
    ensures none { report_of (clock_config 0) clock_alone clock_lines
        ≡ report_with (acceptance 0 0 1 3 3 ∷ acceptance 3 3 1 9 9 ∷ [])
        (told_outcome 0 1 7 (codes "1") (Accepted 3) ∷ told_outcome 1 1 7 (codes "2") (Refused Invalid)
        ∷ told_outcome 2 1 7 (codes "3") (Refused Invalid) ∷ told_outcome 3 1 7 (codes "4") (Accepted 9) ∷ []) 0 }
    ensures among { report_of (clock_config 10) clock_three clock_among
        ≡ report_with (acceptance 0 2 1 3 3 ∷ acceptance 4 6 1 4 4 ∷ [])
        (told_outcome 2 1 7 (codes "1") (Accepted 3) ∷ told_outcome 3 2 7 (codes "2") (Refused Invalid)
        ∷ told_outcome 6 1 7 (codes "2") (Accepted 4) ∷ []) 6 }
    ensures stop_kept { report_of (clock_config 10) clock_three (clock_stopped true)
        ≡ report_with (acceptance 0 2 1 3 3 ∷ []) [] 5 }
    ensures stop_lost { report_of (clock_config 10) clock_three (clock_stopped false)
        ≡ report_with [] (told_outcome 3 1 7 (codes "2") (Refused Invalid) ∷ []) 3 }
    ensures waits { drift_before (clock_config 10) clock_three clock_among 1 0 2 ≡ pos 0 }
    ensures kept { drift_before (clock_config 10) clock_three clock_among 1 0 3 ≡ negsuc 0 }
    ensures last { drift_before (clock_config 10) clock_three clock_among 1 0 7 ≡ negsuc 1 }
    ensures other_node { drift_before (clock_config 10) clock_three clock_among 2 0 7 ≡ pos 0 }
    ensures stopped { drift_before (clock_config 10) clock_three (clock_stopped true) 1 0 3 ≡ negsuc 0 }
    ensures stopped_in_line { drift_before (clock_config 10) clock_alone clock_line_stopped 1 0 1 ≡ negsuc 0 }
    ensures no_pass { drift_of_passes 0 [] ≡ pos 7 }
    ensures last_factor { drift_of_passes 0 (acceptance 0 0 1 2 3 ∷ []) ≡ negsuc 0 }
    ensures other_token { drift_of_passes 0 (record (acceptance 0 0 1 3 3) { token = 1 } ∷ []) ≡ pos 7 }
    ensures no_token { drift_of_passes 1 (record (acceptance 0 0 1 3 3) { token = 1 } ∷ []) ≡ pos 0 }
    ensures no_event { drift_of_passes 0 (acceptance 9 9 1 3 3 ∷ []) ≡ pos 0 }
    ensures no_line { moments_of_others ≡ None ∷ None ∷ None ∷ None ∷ [] }
{}

/// Counterexamples: each condition on a justified acceptance fails for a minimal one.
pub fn justifications_can_be_broken()
    ensures node { IsJustifiedAmong second_factor_elsewhere (acceptance 0 2 2 0 0) → ⊥ }
    ensures delivery { IsJustifiedAmong second_factor_elsewhere (acceptance 1 2 1 0 0) → ⊥ }
    ensures no_event { IsJustifiedAmong second_factor_elsewhere (acceptance 9 9 1 0 0) → ⊥ }
    ensures tick { IsJustifiedAmong eight_ticks (acceptance 1 1 1 0 0) → ⊥ }
    ensures noise { IsJustifiedAmong nothing_happens (acceptance 2 2 2 0 0) → ⊥ }
    ensures restart { IsJustifiedAmong old_grants (acceptance 2 2 1 0 0) → ⊥ }
    ensures lost { IsJustifiedAmong (stop_in_a_line false) (acceptance 0 0 1 0 0) → ⊥ }
    ensures store_lost { IsJustifiedAmong (after_loss (Restart 0)) (acceptance 3 3 2 1 1) → ⊥ }
    ensures store_anew { IsJustifiedAmong (after_loss (Anew 2 2 (1 ∷ []))) (acceptance 4 4 2 1 1) → ⊥ }
    ensures token { IsJustifiedAlone (record (acceptance 0 0 1 0 0) { token = 1 }) → ⊥ }
    ensures factor { IsJustifiedAlone (acceptance 0 0 1 1 1) → ⊥ }
    ensures used_up { IsJustifiedAlone (acceptance 1 1 1 0 0) → ⊥ }
    ensures closed { IsJustifiedAlone (acceptance 5 5 1 2 2) → ⊥ }
    ensures drifted { IsJustifiedByClock (acceptance 3 3 1 9 9) → ⊥ }
    ensures user { IsJustified config alone (line_at 1 7 100 (codes "CHECK 1 gold 755224 -") ∷ [])
        (acceptance 0 0 1 0 0) → ⊥ }
    ensures kept_stop_elsewhere { IsJustifiedAmong (stop_in_a_line true) (acceptance 0 0 2 0 0) → ⊥ }
    ensures one_of_a_list { AreJustified config three second_factor_elsewhere (acceptance 0 2 2 0 0 ∷ []) → ⊥ }
{}

/// Counterexamples: each condition on answers and their acceptances fails for a minimal one.
pub fn answers_can_be_broken()
    ensures no_pass { TellTruth second_factor_elsewhere [] (told_outcome 2 1 7 (codes "a") (Accepted 0) ∷ []) → ⊥ }
    ensures node { IsToldTruly (told_outcome 2 3 7 (codes "a") (Accepted 0)) → ⊥ }
    ensures client { IsToldTruly (told_outcome 2 1 9 (codes "a") (Accepted 0)) → ⊥ }
    ensures nonce { IsToldTruly (told_outcome 2 1 7 (codes "c") (Accepted 0)) → ⊥ }
    ensures factor { IsToldTruly (told_outcome 2 1 7 (codes "a") (Accepted 1)) → ⊥ }
    ensures early { IsToldTruly (told_outcome 1 1 7 (codes "a") (Accepted 0)) → ⊥ }
    ensures again { IsToldTruly (told_outcome 3 1 7 (codes "a") (Accepted 0)) → ⊥ }
    ensures pass_elsewhere { TellTruth second_factor_elsewhere (acceptance 0 2 2 0 0 ∷ [])
        (told_outcome 2 1 7 (codes "a") (Accepted 0) ∷ []) → ⊥ }
    ensures asked_elsewhere { TellTruth second_factor_elsewhere (acceptance 0 2 2 0 0 ∷ [])
        (told_outcome 2 2 7 (codes "a") (Accepted 0) ∷ []) → ⊥ }
    ensures delivery { TellTruth second_factor_elsewhere (acceptance 1 2 1 0 0 ∷ [])
        (told_outcome 2 1 7 (codes "a") (Accepted 0) ∷ []) → ⊥ }
    ensures tick { TellTruth eight_ticks (acceptance 1 1 1 0 0 ∷ [])
        (told_outcome 1 1 7 (codes "a") (Accepted 0) ∷ []) → ⊥ }
    ensures noise { TellTruth nothing_happens (acceptance 2 2 2 0 0 ∷ [])
        (told_outcome 2 2 7 (codes "a") (Accepted 0) ∷ []) → ⊥ }
    ensures no_event { TellTruth second_factor_elsewhere (acceptance 9 9 1 0 0 ∷ [])
        (told_outcome 9 1 7 (codes "a") (Accepted 0) ∷ []) → ⊥ }
    ensures kept_stop_of_another { TellTruth (stop_in_a_line true) (acceptance 0 0 1 0 0 ∷ [])
        (told_outcome 0 1 8 (codes "a") (Accepted 0) ∷ []) → ⊥ }
    ensures lost_stop { TellTruth (stop_in_a_line false) (acceptance 0 0 1 0 0 ∷ [])
        (told_outcome 0 1 7 (codes "a") (Accepted 0) ∷ []) → ⊥ }
    ensures restart { TellTruth old_grants (acceptance 2 2 1 0 0 ∷ [])
        (told_outcome 2 1 7 (codes "a") (Accepted 0) ∷ []) → ⊥ }
    ensures store_lost { TellTruth (after_loss (Restart 0)) (acceptance 3 3 2 0 0 ∷ [])
        (told_outcome 3 2 7 (codes "a") (Accepted 0) ∷ []) → ⊥ }
    ensures store_anew { TellTruth (after_loss (Anew 2 2 (1 ∷ []))) (acceptance 4 4 2 0 0 ∷ [])
        (told_outcome 4 2 7 (codes "a") (Accepted 0) ∷ []) → ⊥ }
    ensures again_another_line { TellTruth fresh_token (acceptance 0 0 1 0 0 ∷ [])
        (told_outcome 1 1 7 (codes "1") (Accepted 0) ∷ []) → ⊥ }
    ensures again_elsewhere { TellTruth (first_at_1 ∷ delivery 2 0 ∷ delivery 1 2
        ∷ line_at 2 7 1000 (codes "CHECK a silver 755224 -") ∷ []) (first_pass ∷ [])
        (told_outcome 3 1 7 (codes "a") (Accepted 0) ∷ []) → ⊥ }
    ensures again_by_another { TellTruth fresh_token (acceptance 0 0 1 0 0 ∷ [])
        (told_outcome 3 1 7 (codes "1") (Accepted 0) ∷ []) → ⊥ }
    ensures again_by_no_line { IsToldTruly (told_outcome 4 1 7 (codes "a") (Accepted 0)) → ⊥ }
    ensures names_no_pass { NamePasses second_factor_elsewhere [] (told_outcome 2 1 7 (codes "a") (Accepted 0) ∷ [])
        → ⊥ }
    ensures names_node { NamesItsPass (told_outcome 2 3 7 (codes "a") (Accepted 0)) → ⊥ }
    ensures names_client { NamesItsPass (told_outcome 2 1 9 (codes "a") (Accepted 0)) → ⊥ }
    ensures names_factor { NamesItsPass (told_outcome 2 1 7 (codes "a") (Accepted 1)) → ⊥ }
    ensures names_early { NamesItsPass (told_outcome 1 1 7 (codes "a") (Accepted 0)) → ⊥ }
    ensures names_again { NamesItsPass (told_outcome 3 1 7 (codes "a") (Accepted 0)) → ⊥ }
    ensures missing { IsAnsweredBy [] → ⊥ }
    ensures from_node { IsAnsweredBy (told_outcome 2 2 7 (codes "a") (Accepted 0) ∷ []) → ⊥ }
    ensures in_event { IsAnsweredBy (told_outcome 3 1 7 (codes "a") (Accepted 0) ∷ []) → ⊥ }
    ensures to_client { IsAnsweredBy (told_outcome 2 1 9 (codes "a") (Accepted 0) ∷ []) → ⊥ }
    ensures with_nonce { IsAnsweredBy (told_outcome 2 1 7 (codes "c") (Accepted 0) ∷ []) → ⊥ }
    ensures with_factor { IsAnsweredBy (told_outcome 2 1 7 (codes "a") (Accepted 1) ∷ []) → ⊥ }
    ensures ended_nowhere { AreAnswered second_factor_elsewhere [] (acceptance 9 9 1 0 0 ∷ []) → ⊥ }
    ensures ended_in_lost_stop { AreAnswered (stop_in_a_line false) [] (acceptance 0 0 1 0 0 ∷ []) → ⊥ }
    ensures ended_in_restart { AreAnswered old_grants [] (acceptance 2 2 1 0 0 ∷ []) → ⊥ }
    ensures ended_in_loss { AreAnswered (after_loss (Restart 0)) [] (acceptance 3 3 2 0 0 ∷ []) → ⊥ }
    ensures ended_in_anew { AreAnswered (after_loss (Anew 2 2 (1 ∷ []))) [] (acceptance 4 4 2 0 0 ∷ []) → ⊥ }
{}

/// Worked cases.
pub fn rounds_are_worked()
    ensures two { report_of config three (rounds_from_start (1 ∷ 2 ∷ []) two_lines)
        ≡ report_with (acceptance 0 2 1 0 0 ∷ acceptance 3 5 2 1 1 ∷ [])
        (told_outcome 2 1 7 (codes "a") (Accepted 0) ∷ told_outcome 5 2 8 (codes "b") (Accepted 1) ∷ []) 6 }
    ensures three { report_of config three (rounds_from_start (1 ∷ 2 ∷ []) three_lines)
        ≡ report_with (acceptance 0 2 1 0 0 ∷ acceptance 3 5 2 1 1 ∷ [])
        (told_outcome 2 1 7 (codes "a") (Accepted 0) ∷ told_outcome 5 2 8 (codes "b") (Accepted 1)
        ∷ told_outcome 6 1 9 (codes "c") (Refused Invalid) ∷ []) 6 }
    ensures after_loss { report_of config three (events_with_rounds config three one_lost (2 ∷ 3 ∷ []) lines_after_loss)
        ≡ report_with (acceptance 5 7 3 1 1 ∷ [])
        (told_outcome 4 3 8 (codes "b") (Refused Invalid) ∷ told_outcome 7 3 8 (codes "c") (Accepted 1) ∷ []) 8 }
    ensures after_sweep { report_of config three (events_with_rounds config three swept (2 ∷ 3 ∷ []) line_after_sweep)
        ≡ report_with (acceptance 35 37 3 1 1 ∷ [])
        (told_outcome 33 3 8 (codes "b") (Refused Timeout) ∷ told_outcome 37 3 8 (codes "c") (Accepted 1) ∷ []) 54 }
    ensures drifted { report_of (clock_config 10) clock_three clock_rounds
        ≡ report_with (acceptance 0 2 1 3 3 ∷ acceptance 4 6 1 4 4 ∷ [])
        (told_outcome 2 1 7 (codes "1") (Accepted 3) ∷ told_outcome 3 2 7 (codes "2") (Refused Invalid)
        ∷ told_outcome 6 1 7 (codes "2") (Accepted 4) ∷ []) 6 }
    ensures no_majority { report_of config three (rounds_from_start (1 ∷ []) one_line) ≡ report_with [] [] 2 }
    ensures waits_already { report_of config three
        (events_with_rounds config three (line_at 1 7 1000 (codes "CHECK a silver 755224 -") ∷ [])
        (1 ∷ 2 ∷ []) one_line)
        ≡ report_with [] [] 2 }
    ensures not_level { report_of config not_level (events_with_rounds config not_level [] (1 ∷ 2 ∷ []) one_line)
        ≡ report_with [] [] 3 }
    ensures settled { IsSettled config (1 ∷ 2 ∷ []) (opening_world config three) }
{}

/// Worked cases.
pub fn servers_are_worked()
    ensures opens_with_fewer { opening_server config [] ≡ server_at (0 ∷ []) }
    ensures opens_with_more { opening_server config (5 ∷ 6 ∷ []) ≡ server_at (5 ∷ []) }
    ensures answers { told_at_fronts config (fronted_at (0 ∷ [])) lines_again
        ≡ codes "OK a 0" ∷ codes "NO a INVALID" ∷ codes "OK a 0" ∷ [] }
    ensures results { told_at_fronts config (fronted_at (0 ∷ [])) lines_after_failure
        ≡ codes "NO a INVALID" ∷ codes "NO b THROTTLED 5" ∷ codes "OK c 0" ∷ [] }
    ensures drifts { told_at_fronts (clock_config 10) (fronted_at (2 ∷ [])) lines_of_a_clock
        ≡ codes "OK 1 3" ∷ codes "NO 2 INVALID" ∷ codes "OK 2 4" ∷ [] }
    ensures stands_for { server_after_rounds ≡ record {
      floors = 2 ∷ [];
      front = record {
        results = (Passed ∷ []) ∷ [];
        drifts = pos 0 ∷ [];
        answers = record { client = 8; line = codes "CHECK b silver 287082 -"; text = codes "OK b 1" } ∷ [];
      };
    } }
{}

/// Counterexamples: each promise of settled members, of rounds and of their reports fails for a minimal one.
pub fn services_can_be_broken()
    ensures ascending { IsSettled config (2 ∷ 1 ∷ []) start_world → ⊥ }
    ensures majority { IsSettled config (1 ∷ []) start_world → ⊥ }
    ensures up { IsSettled config first_two second_stopped → ⊥ }
    ensures member { IsSettled config (2 ∷ 3 ∷ 4 ∷ []) start_world → ⊥ }
    ensures none { IsSettled config first_two second_waiting → ⊥ }
    ensures level { IsSettled config first_two (opening_world config not_level) → ⊥ }

    ensures pending { HasNonePending second_waiting 2 → ⊥ }
    ensures owners { HasNonePending second_line_waiting 2 → ⊥ }

    ensures servable { AreServable config first_two start_world one_line }
    ensures servable_settled { AreServable config (1 ∷ []) start_world one_line → ⊥ }
    ensures servable_at_live { AreServable config (2 ∷ 3 ∷ []) start_world one_line → ⊥ }
    ensures servable_numbers { AreServable config first_two second_spent one_line → ⊥ }

    ensures answer { IsAnswerTo 2 3 round_line ok_given first_ok }
    ensures answer_since { IsAnswerTo 3 4 round_line ok_given first_ok → ⊥ }
    ensures answer_before { IsAnswerTo 0 2 round_line ok_given first_ok → ⊥ }
    ensures answer_node { IsAnswerTo 2 3 round_line ok_given (record first_ok { node = 2 }) → ⊥ }
    ensures answer_client { IsAnswerTo 2 3 round_line ok_given (record first_ok { client = 8 }) → ⊥ }
    ensures answer_bytes { IsAnswerTo 2 3 round_line ok_given (record first_ok { bytes = [] }) → ⊥ }
    ensures answer_is_given { IsAnswerTo 2 3 round_line [] first_ok → ⊥ }

    ensures served { AreServed config three [] [] first_two [] [] }
    ensures served_told { AreServed config three no_line_at_1 [] first_two [] [] → ⊥ }
    ensures served_are { AreServed config three [] [] first_two [] (first_ok ∷ []) → ⊥ }
    ensures served_settled { AreServed config three [] [] (1 ∷ []) [] [] → ⊥ }
    ensures answer_missing { AreServed config three [] [] first_two one_line [] → ⊥ }
    ensures answer_to_another { AreServed config three [] [] first_two one_line (record first_ok { client = 8 } ∷ [])
        → ⊥ }
    ensures answer_twice { AreServed config three [] [] first_two one_line (first_ok ∷ first_ok ∷ []) → ⊥ }

    ensures as_one { ServesAsOne config first_two 0 start_world start_world [] }
    ensures as_one_told { ServesAsOne config first_two 0 (record start_world { told = first_ok ∷ [] }) start_world []
        → ⊥ }
    ensures as_one_are { ServesAsOne config first_two 0 start_world (record start_world { told = first_ok ∷ [] }) []
        → ⊥ }
    ensures as_one_settled { ServesAsOne config (1 ∷ []) 0 start_world start_world [] → ⊥ }
    ensures as_one_server { ServesAsOne config first_two 0 start_world (opening_world config raised) [] → ⊥ }
{}
