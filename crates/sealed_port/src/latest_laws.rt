//! The laws of the latest moment of a gate, at which the next incarnation of the gate may begin.

ghost use Rattle.std.specs.Prelude.{◌≡◌, ◌≤◌, ◌∷◌, [], ℕ, List, Some};
ghost use Rattle.std.specs.List.{AllByRecursion, IsDistinct};
ghost use Rattle.sealed_port.specs.Examples.{client_at, first_gate, gate_at, later_gate, still_life, window_at};
ghost use Rattle.sealed_port.specs.Gate.{GateRecord, named};
ghost use Rattle.sealed_port.specs.Latest.{AreGatesMarked, AreOperatorsMarked, latest_in};
ghost use Rattle.sealed_port.specs.RequestExamples.{gate_of_operator, operator_at, still_operator_life};
ghost use Rattle.sealed_port.specs.RequestRuns.{aside_in, aside_over, is_same_request};
ghost use Rattle.sealed_port.specs.Requests.{operator_named};
ghost use Rattle.sealed_port.specs.Runs.{GateLife, Step, gate_run, is_same, opened_in, opened_over};
ghost use Rattle.sealed_port.specs.declared.client.Client.{Client};
ghost use Rattle.sealed_port.specs.declared.operator.Operator.{Operator};

/// The latest moment: what a gate opened is not later than the latest moment of its windows afterwards.
///
/// The first mark of each window isn't later either. So the latest moment is as great as each earlier one at which the
/// windows began.
pub fn what_is_opened_is_no_later()
    ensures lines { (gate : GateRecord) (steps : List Step) →
        AllByRecursion (λ line. line.moment ≤ latest_in (gate_run gate steps)) (opened_in gate steps) }
    ensures requests { (gate : GateRecord) (steps : List Step) →
        AllByRecursion (λ request. request.moment ≤ latest_in (gate_run gate steps)) (aside_in gate steps) }
    ensures marks { (gate : GateRecord) (steps : List Step) (number : ℕ) (client : Client) →
        named number gate.clients ≡ Some client → client.window.low ≤ latest_in (gate_run gate steps) }
    ensures marks_of_operators { (gate : GateRecord) (steps : List Step) (number : ℕ) (operator : Operator) →
        operator_named number gate.operators ≡ Some operator →
        operator.holder.window.low ≤ latest_in (gate_run gate steps) }
{}

/// No replay over boots: incarnations of a gate open no line twice and set no request aside twice.
///
/// The law holds if the windows of each later incarnation begin at or above the latest moment at the end of each
/// earlier one. The clock may be set back.
pub fn nothing_is_opened_twice_over_boots()
    ensures lines { (lives : List GateLife) → AreGatesMarked lives → IsDistinct is_same (opened_over lives) }
    ensures requests { (lives : List GateLife) → AreOperatorsMarked lives →
        IsDistinct is_same_request (aside_over lives) }
{}

/// Worked cases. The latest moment of a gate.
pub fn latest_moments_are_worked()
    ensures none { latest_in (record first_gate { clients = [] }) ≡ 0 }
    ensures mark { latest_in (gate_at (window_at 5 []) []) ≡ 5 }
    ensures kept { latest_in later_gate ≡ 1000000 }
    ensures clients { latest_in (record first_gate {
      clients = client_at 7 (window_at 3 (9 ∷ 4 ∷ [])) ∷ client_at 258 (window_at 5 (8 ∷ [])) ∷ [];
    }) ≡ 9 }
    ensures operators { latest_in (gate_of_operator (window_at 7 (8 ∷ [])) []) ≡ 8 }
    ensures both { latest_in (record later_gate { operators = operator_at 9 (window_at 1000001 []) ∷ [] }) ≡ 1000001 }
    ensures more_of_clients { latest_in (record later_gate { operators = operator_at 9 (window_at 6 []) ∷ [] })
        ≡ 1000000 }
{}

/// Counterexamples: incarnations that begin at the latest moments of the earlier ones, and one that begins too low.
pub fn marks_can_be_broken()
    ensures marked { AreGatesMarked (still_life 5 ∷ still_life 5 ∷ still_life 6 ∷ []) }
    ensures low_mark { AreGatesMarked (still_life 5 ∷ still_life 4 ∷ []) → ⊥ }
    ensures low_mark_of_the_third { AreGatesMarked (still_life 5 ∷ still_life 7 ∷ still_life 6 ∷ []) → ⊥ }
    ensures operators_marked { AreOperatorsMarked (still_operator_life 5 ∷ still_operator_life 5
        ∷ still_operator_life 6 ∷ []) }
    ensures operators_low_mark { AreOperatorsMarked (still_operator_life 5 ∷ still_operator_life 4 ∷ []) → ⊥ }
    ensures operators_low_mark_of_the_third { AreOperatorsMarked (still_operator_life 5 ∷ still_operator_life 7
        ∷ still_operator_life 6 ∷ []) → ⊥ }
{}
