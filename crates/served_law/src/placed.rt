//! The laws of nodes that are served by place: a token is its place in the users file.

ghost use Rattle.std.specs.Prelude.{◌≡◌, ℕ, List, [], ◌∷◌, ◌++◌, None, Some, Result, Ok, Err, length, slice_get, false, true};
ghost use Rattle.std.proofs.Common.{refl};
ghost use Rattle.floor_store.specs.Content.{Content};
ghost use Rattle.floor_store.specs.Examples.{content_at, free_row, granted_row, later_row, two_rows};
ghost use Rattle.floor_store.specs.Range.{IsCount};
ghost use Rattle.oath_node.specs.declared.turns.Served.{Served};
ghost use Rattle.seated_store.specs.Places.{own_seats};
ghost use Rattle.token_file.specs.Credential.{Credential};
ghost use Rattle.node_serving.specs.NodeKey.{tag_key};
ghost use Rattle.node_serving.specs.Stretches.{unasked};
ghost use Rattle.node_serving.specs.declared.serving.Serving.{Serving};
ghost use Rattle.oathd_database.specs.declared.fault.Fault.{Fault};
ghost use Rattle.store_serving.specs.Placed.{HasServed, never};
ghost use Rattle.admit_core.specs.Throttle.{SpacesFailures};
ghost use Rattle.cluster_sim.specs.Answered.{IsOk};
ghost use Rattle.otp_core.specs.Acceptance.{HaveSingleUse, KeepRealTimeOrder};
ghost use Rattle.vote_core.specs.Safety.{HaveMajority};
ghost use Rattle.vote_core.specs.Schedule.{is_member};
ghost use Rattle.book_law.specs.Answered.{AnswersAll};
ghost use Rattle.book_law.specs.Justified.{JustifiesAll};
ghost use Rattle.book_law.specs.Lives.{Enrols, Setting, Store, Unlocks, accepted_in, floor_in, store_under};
ghost use Rattle.book_law.specs.Results.{results_in};
ghost use Rattle.book_law.specs.Uses.{IsTrueReply, written_store};
ghost use Rattle.order_law.specs.Examples.{at};
ghost use Rattle.order_law.specs.Interleavings.{AreCaused, AreOfMembers, AreReplaced, IsCausal, Item, first_place, history_of, said_before, steps_at};
ghost use Rattle.order_law.specs.Steps.{Does, Ends, Replies, Says, Starts, Step};
ghost use Rattle.served_law.specs.Examples.{no_rows, three_tokens};
ghost use Rattle.served_law.specs.Placed.{AreStepsOfPlaced, IsPlacedInOrder, IsPlacedOrder, IsPlacedRunOver, IsPlacedUse, IsSoundPlaced, PlacedRun, placed_answers, placed_left, placed_runs, placed_store, placed_terms};
ghost use Rattle.served_law.specs.Processes.{StaysClean};
ghost use Rattle.served_law.specs.RunExamples.{commands_of_node, lost_items, stores_with_a_loss, two_steps};
ghost use Rattle.served_law.specs.Runs.{view_of};
ghost use Rattle.served_law.specs.Uses.{AreAllStores, AreFirstOf, AreStoreUses, AreUseSteps, HasAllSteps, HasUseSteps, Keeps, RunsBy, Stores, Use};

use oathd_database::Database;
use order_law::causal_interleavings_are_safe;
use sqlite::Alter;

/// Runs: the whole run of a command that serves a node by place is one use of its store in a history.
///
/// It is a process in parts. Between two of them an operator may have had it unlock a token. The process speaks to its
/// port under the cluster's key, by the places of its tokens.
pub fn served_places_are_processes<S: Alter + Drop, D: Database<S>>()
    ensures served { (serving : Serving) (result : Result Served Fault) (text : List ℕ) (setting : Setting)
        (left : Content) (run : HasServed S.Store D.finds serving never result text)
        → IsSoundPlaced run setting → (view_of S.Store run.over.last.store).leaves left
        → IsPlacedUse run setting left }
    // The same if the command ended with a fault.
    ensures failed { (serving : Serving) (result : Result Served Fault) (text : List ℕ) (setting : Setting)
        (left : Content) (run : HasServed S.Store D.finds serving unasked result text)
        → IsSoundPlaced run setting → (view_of S.Store run.over.last.store).leaves left
        → IsPlacedUse run setting left }
{}

/// Orders: all runs by place over the members' stores are steps in the order in which they happened.
///
/// At any moment, each order of what the members did so far that keeps each member's own is an interleaving of
/// `order_law`. If each vote that is heard was said before in it, `served_places_are_safe` says what holds of it.
pub fn served_places_have_steps<S: Alter + Drop, D: Database<S>>()
    ensures served { (serving : Serving) (result : Result Served Fault) (text : List ℕ) (setting : Setting)
        (left : Content) (run : HasServed S.Store D.finds serving never result text)
        → IsSoundPlaced run setting → (view_of S.Store run.over.last.store).leaves left
        → IsPlacedInOrder run setting left }
    // The same if the command ended with a fault.
    ensures failed { (serving : Serving) (result : Result Served Fault) (text : List ℕ) (setting : Setting)
        (left : Content) (run : HasServed S.Store D.finds serving unasked result text)
        → IsSoundPlaced run setting → (view_of S.Store run.over.last.store).leaves left
        → IsPlacedInOrder run setting left }
    ensures uses { (setting : Setting) (node : ℕ) (store : Store) (uses : List (Use PlacedRun))
        (are : AreStoreUses (placed_runs S.Store D.finds setting) node store uses)
        → HasUseSteps (placed_runs S.Store D.finds setting) node store uses are }
    // A store that was lost has its steps up to the loss, and the next one its own.
    ensures members { (setting : Setting) (stores : ℕ → Stores PlacedRun)
        (are : AreAllStores (placed_runs S.Store D.finds setting) stores)
        → HasAllSteps (placed_runs S.Store D.finds setting) stores are }
    // If all members kept their first stores, no rule of replacements is asked for.
    ensures kept { (setting : Setting) (uses : ℕ → List (Use PlacedRun))
        (are : AreAllStores (placed_runs S.Store D.finds setting) (λ node. Keeps (uses node)))
        (has : HasAllSteps (placed_runs S.Store D.finds setting) (λ node. Keeps (uses node)) are)
        (items : List Item) → AreOfMembers setting items
        → ((node : ℕ) → is_member setting.n node ≡ true → AreFirstOf (steps_at node items) (has.steps node).steps)
        → AreReplaced setting items }
{}

/// Safety of runs: in each order of all members' runs by place, acceptances and answers keep all promises.
///
/// A vote that a node reads in bytes under its key was said before in the order: nobody else has the key, and time goes
/// forward. A lost store is replaced if the rule of the votes allows it, and the next run finds the replacement as it
/// was made.
pub fn served_places_are_safe<S: Alter + Drop, D: Database<S>>()
    ensures single_use { (setting : Setting) (stores : ℕ → Stores PlacedRun)
        (are : AreAllStores (placed_runs S.Store D.finds setting) stores) (items : List Item)
        → IsPlacedOrder S.Store D.finds setting stores are items
        → HaveSingleUse (accepted_in setting (history_of items)) }
    ensures in_order { (setting : Setting) (stores : ℕ → Stores PlacedRun)
        (are : AreAllStores (placed_runs S.Store D.finds setting) stores) (items : List Item)
        → IsPlacedOrder S.Store D.finds setting stores are items
        → KeepRealTimeOrder (accepted_in setting (history_of items)) }
    ensures majority { (setting : Setting) (stores : ℕ → Stores PlacedRun)
        (are : AreAllStores (placed_runs S.Store D.finds setting) stores) (items : List Item)
        → IsPlacedOrder S.Store D.finds setting stores are items
        → HaveMajority setting.n (floor_in setting (history_of items)) (accepted_in setting (history_of items)) }
    ensures justified { (setting : Setting) (stores : ℕ → Stores PlacedRun)
        (are : AreAllStores (placed_runs S.Store D.finds setting) stores) (items : List Item)
        → IsPlacedOrder S.Store D.finds setting stores are items
        → JustifiesAll setting (history_of items) (accepted_in setting (history_of items)) }
    ensures spaced { (setting : Setting) (stores : ℕ → Stores PlacedRun)
        (are : AreAllStores (placed_runs S.Store D.finds setting) stores) (items : List Item) (node token : ℕ)
        → IsPlacedOrder S.Store D.finds setting stores are items
        → SpacesFailures (results_in setting (history_of items) node token) }
    // Each acceptance that no stop cut off has its `OK`.
    ensures answered { (setting : Setting) (stores : ℕ → Stores PlacedRun)
        (are : AreAllStores (placed_runs S.Store D.finds setting) stores) (items : List Item)
        → IsPlacedOrder S.Store D.finds setting stores are items
        → AnswersAll setting (history_of items) (accepted_in setting (history_of items)) }
    // Each reply that a member's port recorded, and that begins as an `OK`, belongs to an acceptance.
    ensures replied { (setting : Setting) (stores : ℕ → Stores PlacedRun)
        (are : AreAllStores (placed_runs S.Store D.finds setting) stores) (items : List Item)
        (i node client : ℕ) (bytes : List ℕ) → IsPlacedOrder S.Store D.finds setting stores are items
        → slice_get items i ≡ Some (record { node = node; step = Says (Replies client bytes) }) → IsOk bytes
        → IsTrueReply setting (history_of items) node client bytes }
{
    causal_interleavings_are_safe();
}

/// Worked cases and counterexamples: the terms and the store of a process by place, and each condition of its run.
pub fn placed_runs_can_be_broken<S: Alter + Drop, D: Database<S>>()
    ensures store { (placed_store (two_rows granted_row later_row None)).names ≡ 0 ∷ 1 ∷ [] }
    ensures content { placed_store (two_rows granted_row later_row None)
        ≡ record { names = 0 ∷ 1 ∷ []; content = two_rows granted_row later_row None } }
    ensures seats { (serving : Serving) (one other : Credential)
        → (placed_terms serving (one ∷ other ∷ [])).seats ≡ 0 ∷ 1 ∷ [] }
    ensures config { (serving : Serving) (book : List Credential)
        → (placed_terms serving book).config ≡ record { book = book; limits = serving.settings } }
    ensures key { (serving : Serving) (book : List Credential)
        → (placed_terms serving book).key ≡ tag_key serving.key book }
    ensures of_fewer_members { (serving : Serving) (result : Result Served Fault) (text : List ℕ)
        (setting : Setting) (run : HasServed S.Store D.finds serving unasked result text)
        → setting.n ≡ 3 → serving.place.n ≡ 5 → IsSoundPlaced run setting → ⊥ }
    ensures unclean { (serving : Serving) (result : Result Served Fault) (text : List ℕ)
        (setting : Setting) (run : HasServed S.Store D.finds serving unasked result text)
        → (StaysClean (view_of S.Store) run.over.served_is.serves → ⊥) → IsSoundPlaced run setting → ⊥ }
    ensures past_the_last_boot { (serving : Serving) (result : Result Served Fault) (text : List ℕ)
        (setting : Setting) (run : HasServed S.Store D.finds serving unasked result text)
        → (IsCount (view_of S.Store run.over.first.store).content.boot → ⊥) → IsSoundPlaced run setting → ⊥ }
{}

/// Worked cases and counterexamples: each condition of runs by place over a store fails for a minimal one, or is among
/// them.
pub fn placed_uses_can_be_broken<S: Alter + Drop, D: Database<S>>()
    // Nothing ends the turns of a run but their number, or a fault.
    ensures turns { (served : Served) → placed_answers (Ok served) 0 true false }
    ensures ended_turns { (served : Served) → placed_answers (Ok served) 0 true true → ⊥ }
    ensures ended_by_a_fault { (fault : Fault) → placed_answers (Err fault) 0 true true }

    // Runs.
    ensures run_elsewhere { (setting : Setting) (store : Store) (run : PlacedRun) → run.serving.place.me ≡ 2
        → IsPlacedRunOver S.Store D.finds setting 1 store run → ⊥ }
    ensures run_over_another { (setting : Setting) (node : ℕ) (store : Store) (run : PlacedRun)
        → ((content : Content) → placed_store content ≡ store → ⊥)
        → IsPlacedRunOver S.Store D.finds setting node store run → ⊥ }
    ensures run_over { (setting : Setting) (node : ℕ) (store : Store) (run : PlacedRun)
        (is : IsPlacedRunOver S.Store D.finds setting node store run) → placed_store is.served.found.mirror ≡ store }
    ensures sound_run { (setting : Setting) (node : ℕ) (store : Store) (run : PlacedRun)
        (is : IsPlacedRunOver S.Store D.finds setting node store run) → IsSoundPlaced is.served setting }
    ensures left { (setting : Setting) (node : ℕ) (store : Store) (run : PlacedRun)
        (is : IsPlacedRunOver S.Store D.finds setting node store run)
        → (view_of S.Store is.served.over.last.store).leaves run.left }
    ensures after { (setting : Setting) (node : ℕ) (store : Store) (run : PlacedRun)
        (is : IsPlacedRunOver S.Store D.finds setting node store run)
        → placed_left S.Store D.finds setting node store run is
        ≡ store_under (own_seats (length is.served.import.book)) run.left store }

    // A command that creates a store enrols its tokens by place. A run leaves the content that a stop left.
    ensures created { written_store three_tokens (Enrols 1 1 6) (written_store three_tokens (Enrols 1 0 5) no_rows)
        ≡ placed_store (content_at 4 (free_row 5 ∷ free_row 6 ∷ [])) }
    ensures served { store_under (own_seats 2) (content_at 5 (free_row 9 ∷ free_row 8 ∷ []))
        (placed_store (content_at 4 (free_row 5 ∷ free_row 6 ∷ [])))
        ≡ placed_store (content_at 5 (free_row 9 ∷ free_row 8 ∷ [])) }

    // Uses, each on what the one before it left.
    ensures writes { AreStoreUses (placed_runs S.Store D.finds three_tokens) 1 no_rows (commands_of_node PlacedRun) }
    ensures writes_elsewhere { AreStoreUses (placed_runs S.Store D.finds three_tokens) 2 no_rows
        (commands_of_node PlacedRun) → ⊥ }
    ensures later_run { (setting : Setting) (node : ℕ) (store : Store) (run : PlacedRun)
        (later : List (Use PlacedRun))
        → AreStoreUses (placed_runs S.Store D.finds setting) node store (RunsBy run ∷ later)
        → (is : IsPlacedRunOver S.Store D.finds setting node store run)
        × AreStoreUses (placed_runs S.Store D.finds setting) node
        (placed_left S.Store D.finds setting node store run is) later }
{}

/// Worked cases and counterexamples: each condition of the steps of runs by place fails for a minimal one, or is among
/// them.
pub fn orders_of_places_can_be_broken<S: Alter + Drop, D: Database<S>>()
    // The steps of a run.
    ensures one_run { (setting : Setting) (node : ℕ) (store : Store) (run : PlacedRun)
        (is : IsPlacedRunOver S.Store D.finds setting node store run) (steps : List Step)
        → AreStepsOfPlaced S.Store D.finds setting node store run is steps
        → IsPlacedInOrder is.served setting run.left }
    ensures are { (setting : Setting) (node : ℕ) (store : Store) (run : PlacedRun)
        (is : IsPlacedRunOver S.Store D.finds setting node store run) (steps : List Step)
        (are : AreStepsOfPlaced S.Store D.finds setting node store run is steps)
        → steps ≡ Starts (placed_terms run.serving is.served.import.book)
        (tag_key run.serving.key is.served.import.book)
        ∷ are.in_order.has.steps ++ Ends are.in_order.has.kept ∷ [] }
    ensures of_no_steps { (setting : Setting) (node : ℕ) (store : Store) (run : PlacedRun)
        (is : IsPlacedRunOver S.Store D.finds setting node store run)
        → AreStepsOfPlaced S.Store D.finds setting node store run is [] → ⊥ }

    // The steps of a store.
    ensures writes { AreUseSteps (placed_runs S.Store D.finds three_tokens) 1 no_rows (commands_of_node PlacedRun)
        (refl, (refl, tt)) two_steps }
    ensures another_order { AreUseSteps (placed_runs S.Store D.finds three_tokens) 1 no_rows
        (commands_of_node PlacedRun) (refl, (refl, tt)) (Does (Unlocks 1 0) ∷ Does (Enrols 1 0 5) ∷ []) → ⊥ }
    ensures first_run { (setting : Setting) (node : ℕ) (store : Store) (run : PlacedRun)
        (later : List (Use PlacedRun))
        (are : AreStoreUses (placed_runs S.Store D.finds setting) node store (RunsBy run ∷ later))
        (steps : List Step)
        (of : AreUseSteps (placed_runs S.Store D.finds setting) node store (RunsBy run ∷ later) are steps)
        → (steps ≡ of.0 ++ of.1) × AreStepsOfPlaced S.Store D.finds setting node store run are.0 of.0
        × AreUseSteps (placed_runs S.Store D.finds setting) node
        (placed_left S.Store D.finds setting node store run are.0) later are.1 of.1 }

    // Node 1 lost its store, and got one with the floor that node 2 has.
    ensures order { (are : AreAllStores (placed_runs S.Store D.finds three_tokens) (stores_with_a_loss PlacedRun 1 5))
        → IsPlacedOrder S.Store D.finds three_tokens (stores_with_a_loss PlacedRun 1 5) are (lost_items 1 5) }
    ensures of_a_stranger { (are : AreAllStores (placed_runs S.Store D.finds three_tokens)
        (stores_with_a_loss PlacedRun 1 5))
        → IsPlacedOrder S.Store D.finds three_tokens (stores_with_a_loss PlacedRun 1 5) are
        (lost_items 1 5 ++ at 4 (Does (Enrols 4 0 5)) ∷ []) → ⊥ }
    ensures with_another_step { (are : AreAllStores (placed_runs S.Store D.finds three_tokens)
        (stores_with_a_loss PlacedRun 1 5))
        → IsPlacedOrder S.Store D.finds three_tokens (stores_with_a_loss PlacedRun 1 5) are
        (at 2 (Does (Enrols 2 0 6)) ∷ []) → ⊥ }
    ensures replaced_too_low { (are : AreAllStores (placed_runs S.Store D.finds three_tokens)
        (stores_with_a_loss PlacedRun 1 4))
        → IsPlacedOrder S.Store D.finds three_tokens (stores_with_a_loss PlacedRun 1 4) are (lost_items 1 4) → ⊥ }

    // What the laws have of an order.
    ensures caused { (setting : Setting) (stores : ℕ → Stores PlacedRun)
        (are : AreAllStores (placed_runs S.Store D.finds setting) stores) (items : List Item)
        → IsPlacedOrder S.Store D.finds setting stores are items
        → AreCaused setting (first_place setting) (said_before setting) items }
    ensures causal { (setting : Setting) (stores : ℕ → Stores PlacedRun)
        (are : AreAllStores (placed_runs S.Store D.finds setting) stores) (items : List Item)
        → IsPlacedOrder S.Store D.finds setting stores are items → IsCausal setting items }
{}
