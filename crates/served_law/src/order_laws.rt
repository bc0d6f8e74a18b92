//! The worked cases and counterexamples of runs by names in the order in which they happened.

ghost use Rattle.std.specs.Prelude.{◌≡◌, ℕ, ◌++◌, List, [], ◌∷◌, Option, Some, None, Result, Err};
ghost use Rattle.std.proofs.Common.{inl, inr, refl};
ghost use Rattle.datagram_port.specs.Port.{PortEvent};
ghost use Rattle.floor_store.specs.Broken.{SmallStore, small_held};
ghost use Rattle.floor_store.specs.Content.{Content};
ghost use Rattle.oath_node.specs.Hosted.{Hosted};
ghost use Rattle.oath_node.specs.TurnServing.{ServesUntil};
ghost use Rattle.oath_node.specs.declared.serve_fault.ServeFault.{ServeFault};
ghost use Rattle.oath_node.specs.declared.turns.Served.{Served};
ghost use Rattle.node_serving.specs.Stretches.{FailsToAct, operator_acts, unasked};
ghost use Rattle.vote_wire.specs.Key.{bare};
ghost use Rattle.book_law.specs.Lives.{Enrols, Raises, Setting, Store, Terms, Unlocks};
ghost use Rattle.order_law.specs.Steps.{AreOfProcess, AreSteps, Closed, Does, Ends, HasSteps, Loses, Starts, Step, entries_of_steps, place_in_end};
ghost use Rattle.served_law.specs.Examples.{former_rows, no_rows, put_of, three_names, three_tokens};
ghost use Rattle.served_law.specs.Orders.{AreStepsOf, HasStepsOf, IsInOrder, MayClear};
ghost use Rattle.served_law.specs.Processes.{RunsIn, number_unlocked, stretches_of};
ghost use Rattle.served_law.specs.RunExamples.{two_commands, two_steps, unlocking};
ghost use Rattle.served_law.specs.Runs.{AreNamedUses, AreStepsOfRun, IsRunOver, NamedRun, NamedUse, entries_of, opening_steps, store_found, store_left, terms_in};
ghost use Rattle.served_law.specs.Uses.{AreFirstOf, RunsBy};
ghost use Rattle.book_law.specs.Examples.{maple_first};

use node_serving::Stop;
use oathd_database::Database;
use sqlite::Alter;

/// Worked cases and counterexamples: each condition of the steps of one run fails for a minimal one.
pub fn runs_in_order_can_be_broken()
    // What the end of a run cleared.
    ensures turns_clear_none { (terms : Terms) (from new : Hosted SmallStore) (first entries : Option (List PortEvent))
        (asked told : Option (List (Option ℕ))) (turns : ℕ) (end : Result Served ServeFault)
        (serves : ServesUntil small_held from new first entries asked told turns unasked end)
        → MayClear small_held terms [] from new first entries asked told turns unasked end (inl serves) (Some 0 ∷ [])
        → ⊥ }
    ensures act_clears_none { (terms : Terms) (from new : Hosted SmallStore) (first entries : Option (List PortEvent))
        (asked told : Option (List (Option ℕ))) (turns : ℕ) (end : Result Served ServeFault)
        (fails : FailsToAct small_held (operator_acts small_held) from new first entries asked told turns end)
        → MayClear small_held terms [] from new first entries asked told turns unasked end (inr fails) [] }
    ensures act_clears_two { (terms : Terms) (from new : Hosted SmallStore) (first entries : Option (List PortEvent))
        (asked told : Option (List (Option ℕ))) (turns : ℕ) (end : Result Served ServeFault)
        (fails : FailsToAct small_held (operator_acts small_held) from new first entries asked told turns end)
        → MayClear small_held terms [] from new first entries asked told turns unasked end (inr fails)
        (Some 0 ∷ Some 1 ∷ []) → ⊥ }

    // The steps that a run is.
    ensures in_order_with_another_end { (old new : Hosted SmallStore) (entries recorded : List PortEvent)
        (turns node : ℕ) (result : Result Served ServeFault) (setting : Setting) (terms : Terms) (port : List ℕ)
        (found : Store) (left : Content) (run : RunsIn small_held old new entries turns unasked result)
        → ((tokens : List (Option ℕ)) → MayClear small_held terms (stretches_of small_held run) run.from new
        run.from_first (Some entries) run.from_asked None run.left unasked run.end run.last tokens → ⊥)
        → IsInOrder small_held run setting node terms port found recorded left → ⊥ }
    ensures in_order_with_these_tokens { (old new : Hosted SmallStore) (entries recorded : List PortEvent)
        (turns node : ℕ) (result : Result Served ServeFault) (setting : Setting) (terms : Terms) (port : List ℕ)
        (found : Store) (left : Content) (run : RunsIn small_held old new entries turns unasked result)
        (is : IsInOrder small_held run setting node terms port found recorded left)
        → HasSteps setting node terms port found is.tokens recorded left }

    // An opening raises rows, and then enrols new ones.
    ensures opening { opening_steps 1 three_names former_rows (put_of 0 5 ∷ put_of 1 6 ∷ [])
        (former_rows ++ former_rows) (7 ∷ [])
        ≡ Does (Raises 1 1 5) ∷ Does (Raises 1 2 6) ∷ Does (Enrols 1 1 7) ∷ [] }
    ensures opening_of_none { opening_steps 1 three_names former_rows [] [] (7 ∷ []) ≡ [] }
{}

/// Worked cases and counterexamples: the tokens whose gates a run cleared, in order.
///
/// The last stretch stands first in a list. Maple is number 0 and token 1, and silver is number 1 and token 0.
pub fn clearings_can_be_broken()
    ensures turns { (from new : Hosted SmallStore) (first entries : Option (List PortEvent))
        (asked told : Option (List (Option ℕ))) (turns : ℕ) (end : Result Served ServeFault)
        (serves : ServesUntil small_held from new first entries asked told turns unasked end)
        → MayClear small_held maple_first (unlocking (Some 1) ∷ unlocking (Some 0) ∷ []) from new first entries asked
        told turns unasked end (inl serves) (Some 1 ∷ Some 0 ∷ []) }
    ensures turns_without_the_first { (from new : Hosted SmallStore) (first entries : Option (List PortEvent))
        (asked told : Option (List (Option ℕ))) (turns : ℕ) (end : Result Served ServeFault)
        (serves : ServesUntil small_held from new first entries asked told turns unasked end)
        → MayClear small_held maple_first (unlocking (Some 1) ∷ unlocking (Some 0) ∷ []) from new first entries asked
        told turns unasked end (inl serves) (Some 0 ∷ []) → ⊥ }
    ensures turns_in_another_order { (from new : Hosted SmallStore) (first entries : Option (List PortEvent))
        (asked told : Option (List (Option ℕ))) (turns : ℕ) (end : Result Served ServeFault)
        (serves : ServesUntil small_held from new first entries asked told turns unasked end)
        → MayClear small_held maple_first (unlocking (Some 1) ∷ unlocking (Some 0) ∷ []) from new first entries asked
        told turns unasked end (inl serves) (Some 0 ∷ Some 1 ∷ []) → ⊥ }
    ensures turns_by_numbers { (from new : Hosted SmallStore) (first entries : Option (List PortEvent))
        (asked told : Option (List (Option ℕ))) (turns : ℕ) (end : Result Served ServeFault)
        (serves : ServesUntil small_held from new first entries asked told turns unasked end)
        → MayClear small_held maple_first (unlocking (Some 1) ∷ []) from new first entries asked told turns unasked
        end (inl serves) (Some 1 ∷ []) → ⊥ }
    ensures act { (from new : Hosted SmallStore) (first entries : Option (List PortEvent))
        (asked told : Option (List (Option ℕ))) (turns : ℕ) (end : Result Served ServeFault)
        (fails : FailsToAct small_held (operator_acts small_held) from new first entries asked told turns end)
        → MayClear small_held maple_first (unlocking (Some 1) ∷ []) from new first entries asked told turns unasked
        end (inr fails) (Some 0 ∷ []) }
    ensures act_without_the_stretch { (from new : Hosted SmallStore) (first entries : Option (List PortEvent))
        (asked told : Option (List (Option ℕ))) (turns : ℕ) (end : Result Served ServeFault)
        (fails : FailsToAct small_held (operator_acts small_held) from new first entries asked told turns end)
        → MayClear small_held maple_first (unlocking (Some 1) ∷ []) from new first entries asked told turns unasked
        end (inr fails) [] → ⊥ }
    // An act that failed at the end cleared its own gate, or none.
    ensures act_with_its_own { (from new : Hosted SmallStore) (first entries : Option (List PortEvent))
        (asked told : Option (List (Option ℕ))) (turns : ℕ) (end : Result Served ServeFault)
        (fails : FailsToAct small_held (operator_acts small_held) from new first entries asked told turns end)
        → number_unlocked small_held fails.stood new (Err fails.fault) fails.fails ≡ Some 0
        → MayClear small_held maple_first (unlocking (Some 1) ∷ []) from new first entries asked told turns unasked
        end (inr fails) (Some 0 ∷ Some 1 ∷ []) }
    ensures act_with_another { (from new : Hosted SmallStore) (first entries : Option (List PortEvent))
        (asked told : Option (List (Option ℕ))) (turns : ℕ) (end : Result Served ServeFault)
        (fails : FailsToAct small_held (operator_acts small_held) from new first entries asked told turns end)
        → number_unlocked small_held fails.stood new (Err fails.fault) fails.fails ≡ Some 0
        → MayClear small_held maple_first (unlocking (Some 1) ∷ []) from new first entries asked told turns unasked
        end (inr fails) (Some 0 ∷ Some 0 ∷ []) → ⊥ }
{}

/// Worked cases and counterexamples: each condition of the steps of all runs fails for a minimal one, or is among them.
pub fn orders_of_runs_can_be_broken<S: Alter + Drop, D: Database<S>, U: Stop>()
    // The steps of a run.
    ensures of_one_process { (setting : Setting) (node : ℕ) (names : List (List ℕ)) (store : Store) (run : NamedRun U)
        (is : IsRunOver S.Store D.finds U.answers setting node names store run) (steps : List Step)
        (are : AreStepsOfRun S.Store D.finds U.answers setting node names store run is steps) → AreOfProcess are.body }
    ensures recorded { (setting : Setting) (node : ℕ) (names : List (List ℕ)) (store : Store) (run : NamedRun U)
        (is : IsRunOver S.Store D.finds U.answers setting node names store run) (steps : List Step)
        (are : AreStepsOfRun S.Store D.finds U.answers setting node names store run is steps)
        → entries_of_steps bare are.body ≡ entries_of is.served names }
    ensures finds { (setting : Setting) (node : ℕ) (names : List (List ℕ)) (store : Store) (run : NamedRun U)
        (is : IsRunOver S.Store D.finds U.answers setting node names store run) (steps : List Step)
        (are : AreStepsOfRun S.Store D.finds U.answers setting node names store run is steps)
        → place_in_end setting node (Closed store) (opening_steps node names are.former are.puts are.new are.floors)
        ≡ Closed (store_found is.served names run.rows) }
    ensures leaves { (setting : Setting) (node : ℕ) (names : List (List ℕ)) (store : Store) (run : NamedRun U)
        (is : IsRunOver S.Store D.finds U.answers setting node names store run) (steps : List Step)
        → AreStepsOfRun S.Store D.finds U.answers setting node names store run is steps
        → place_in_end setting node (Closed store) steps
        ≡ Closed (store_left S.Store D.finds U.answers setting node names store run is) }
    ensures are { (setting : Setting) (node : ℕ) (names : List (List ℕ)) (store : Store) (run : NamedRun U)
        (is : IsRunOver S.Store D.finds U.answers setting node names store run) (steps : List Step)
        (are : AreStepsOfRun S.Store D.finds U.answers setting node names store run is steps)
        → steps ≡ opening_steps node names are.former are.puts are.new are.floors
        ++ (Starts (terms_in is.served names) bare ∷ are.body ++ Ends are.kept ∷ []) }
    ensures of_no_steps { (setting : Setting) (node : ℕ) (names : List (List ℕ)) (store : Store) (run : NamedRun U)
        (is : IsRunOver S.Store D.finds U.answers setting node names store run)
        → AreStepsOfRun S.Store D.finds U.answers setting node names store run is [] → ⊥ }

    // The steps of a store.
    ensures nothing { (steps : List Step)
        → AreStepsOf S.Store D.finds U.answers three_tokens 1 three_names no_rows [] tt steps → steps ≡ [] }
    ensures writes { AreStepsOf S.Store D.finds U.answers three_tokens 1 three_names no_rows (two_commands U) (
      refl,
      (refl, tt),
    ) two_steps }
    ensures no_writes { AreStepsOf S.Store D.finds U.answers three_tokens 1 three_names no_rows (two_commands U)
        (refl, (refl, tt)) [] → ⊥ }
    ensures one_write { AreStepsOf S.Store D.finds U.answers three_tokens 1 three_names no_rows (two_commands U)
        (refl, (refl, tt))
        (Does (Enrols 1 0 5) ∷ []) → ⊥ }
    ensures another_order { AreStepsOf S.Store D.finds U.answers three_tokens 1 three_names no_rows (two_commands U)
        (refl, (refl, tt)) (Does (Unlocks 1 0) ∷ Does (Enrols 1 0 5) ∷ []) → ⊥ }
    ensures first_run { (setting : Setting) (node : ℕ) (names : List (List ℕ)) (store : Store) (run : NamedRun U)
        (later : List (NamedUse U))
        (are : AreNamedUses S.Store D.finds U.answers setting node names store (RunsBy run ∷ later))
        (steps : List Step)
        (of : AreStepsOf S.Store D.finds U.answers setting node names store (RunsBy run ∷ later) are steps)
        → (steps ≡ of.0 ++ of.1) × AreStepsOfRun S.Store D.finds U.answers setting node names store run are.0 of.0 }
    ensures after_the_run { (setting : Setting) (node : ℕ) (names : List (List ℕ)) (store : Store) (run : NamedRun U)
        (later : List (NamedUse U))
        (are : AreNamedUses S.Store D.finds U.answers setting node names store (RunsBy run ∷ later))
        (steps : List Step)
        (of : AreStepsOf S.Store D.finds U.answers setting node names store (RunsBy run ∷ later) are steps)
        → AreStepsOf S.Store D.finds U.answers setting node names
        (store_left S.Store D.finds U.answers setting node names store run are.0) later are.1 of.1 }
    ensures steps_are_of { (setting : Setting) (node : ℕ) (names : List (List ℕ)) (store : Store) (named : List
        (NamedUse U))
        (are : AreNamedUses S.Store D.finds U.answers setting node names store named)
        (has : HasStepsOf S.Store D.finds U.answers setting node names store named are)
        → AreStepsOf S.Store D.finds U.answers setting node names store named are has.steps }
    ensures steps_are_steps { (setting : Setting) (node : ℕ) (names : List (List ℕ)) (store : Store) (named : List
        (NamedUse U))
        (are : AreNamedUses S.Store D.finds U.answers setting node names store named)
        (has : HasStepsOf S.Store D.finds U.answers setting node names store named are)
        → AreSteps setting node (Closed store) has.steps }

    ensures first { AreFirstOf [] (Loses ∷ []) }
    ensures not_first { AreFirstOf (Loses ∷ []) [] → ⊥ }
{}
