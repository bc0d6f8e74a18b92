//! The worked cases and counterexamples of stores that were lost and replaced, and of orders of all members' steps.

ghost use Rattle.std.specs.Prelude.{◌≡◌, ℕ, ◌+◌, ◌^◌, List, [], ◌∷◌, ◌++◌, map, true};
ghost use Rattle.vote_core.specs.Books.{blank_opening};
ghost use Rattle.vote_core.specs.Safety.{MayOpen};
ghost use Rattle.vote_core.specs.Schedule.{is_member};
ghost use Rattle.book_law.specs.Broken.{old_grant};
ghost use Rattle.book_law.specs.Lives.{Enrols, Raises, Sealed, Setting, Store, made_boot, store_with_rows};
ghost use Rattle.book_law.specs.Uses.{first_store};
ghost use Rattle.name_law.specs.Examples.{user_names};
ghost use Rattle.named_order_law.specs.Bytes.{AreUnforgedItems};
ghost use Rattle.order_law.specs.Examples.{at};
ghost use Rattle.order_law.specs.Interleavings.{AreOfMembers, AreReplaced, IsInterleaving, Item, first_place, said_before, steps_at};
ghost use Rattle.order_law.specs.Steps.{Does, Loses};
ghost use Rattle.served_law.specs.Devices.{HaveDevices, HaveDevicesInStores};
ghost use Rattle.served_law.specs.Examples.{no_rows, three_names, three_tokens};
ghost use Rattle.served_law.specs.Orders.{HasNamedSteps, HaveHappened, HaveStepsOf, IsOrderOf};
ghost use Rattle.served_law.specs.RunExamples.{enrolled_at, gets_at, lost_items, lost_stores, lost_then, raises_next, two_commands, two_steps, two_stores};
ghost use Rattle.served_law.specs.Runs.{AreAllNamedStores, AreNamedStores, AreNamedUses, NamedStores, NamedUse};
ghost use Rattle.served_law.specs.Uses.{Keeps, Replaces, WritesBy};

use node_serving::Stop;
use oathd_database::Database;
use sqlite::Alter;

/// Worked cases and counterexamples: each condition of a member's stores fails for a minimal one, or is among them.
pub fn stores_can_be_broken<S: Alter + Drop, D: Database<S>, U: Stop>()
    // Each store has its uses, and each but the first begins as it was made.
    ensures stores { AreNamedStores S.Store D.finds U.answers three_tokens 1 three_names no_rows (two_stores U) }
    ensures stores_elsewhere { AreNamedStores S.Store D.finds U.answers three_tokens 2 three_names no_rows
        (two_stores U) → ⊥ }
    ensures later_elsewhere { AreNamedStores S.Store D.finds U.answers three_tokens 1 three_names no_rows
        (Replaces [] 5 (0 ∷ []) (λ token. 6) (Keeps (WritesBy (Raises 2 0 7) ∷ []))) → ⊥ }
    ensures before_a_loss { (setting : Setting) (node boot : ℕ) (names : List (List ℕ)) (store : Store)
        (named : List (NamedUse U)) (given : List ℕ) (floor : ℕ → ℕ) (later : NamedStores U)
        → AreNamedStores S.Store D.finds U.answers setting node names store (Replaces named boot given floor later)
        → AreNamedUses S.Store D.finds U.answers setting node names store named }
    ensures after_a_loss { (setting : Setting) (node boot : ℕ) (names : List (List ℕ)) (store : Store)
        (named : List (NamedUse U)) (given : List ℕ) (floor : ℕ → ℕ) (later : NamedStores U)
        → AreNamedStores S.Store D.finds U.answers setting node names store (Replaces named boot given floor later)
        → AreNamedStores S.Store D.finds U.answers setting node names (store_with_rows boot given floor) later }
    ensures all_members { (setting : Setting) (node : ℕ) (names : List (List ℕ)) (stores : ℕ → NamedStores U)
        → AreAllNamedStores S.Store D.finds U.answers setting names stores
        → AreNamedStores S.Store D.finds U.answers setting node names (first_store setting node) (stores node) }

    // The steps that have happened. A store is lost at any moment of its uses, once, and then replaced as it says.
    ensures before { (are : AreNamedStores S.Store D.finds U.answers three_tokens 1 three_names no_rows (two_stores U))
        (have : HaveStepsOf S.Store D.finds U.answers three_tokens 1 three_names no_rows (two_stores U) are)
        → HaveHappened S.Store D.finds U.answers three_tokens 1 three_names no_rows (two_stores U) are have two_steps }
    ensures lost { (are : AreNamedStores S.Store D.finds U.answers three_tokens 1 three_names no_rows (two_stores U))
        (have : HaveStepsOf S.Store D.finds U.answers three_tokens 1 three_names no_rows (two_stores U) are)
        → HaveHappened S.Store D.finds U.answers three_tokens 1 three_names no_rows (two_stores U) are have
        (lost_then []) }
    ensures lost_early { (are : AreNamedStores S.Store D.finds U.answers three_tokens 1 three_names no_rows
        (two_stores U))
        (have : HaveStepsOf S.Store D.finds U.answers three_tokens 1 three_names no_rows (two_stores U) are)
        → HaveHappened S.Store D.finds U.answers three_tokens 1 three_names no_rows (two_stores U) are have
        (Does (Enrols 1 0 5) ∷ Loses ∷ []) }
    ensures replaced { (are : AreNamedStores S.Store D.finds U.answers three_tokens 1 three_names no_rows
        (two_stores U))
        (have : HaveStepsOf S.Store D.finds U.answers three_tokens 1 three_names no_rows (two_stores U) are)
        → HaveHappened S.Store D.finds U.answers three_tokens 1 three_names no_rows (two_stores U) are have
        (lost_then (gets_at 5 ∷ raises_next ∷ [])) }
    ensures lost_twice { (are : AreNamedStores S.Store D.finds U.answers three_tokens 1 three_names no_rows
        (two_stores U))
        (have : HaveStepsOf S.Store D.finds U.answers three_tokens 1 three_names no_rows (two_stores U) are)
        → HaveHappened S.Store D.finds U.answers three_tokens 1 three_names no_rows (two_stores U) are have
        (lost_then (Loses ∷ [])) → ⊥ }
    ensures replaced_at_another_boot { (are : AreNamedStores S.Store D.finds U.answers three_tokens 1 three_names
        no_rows (two_stores U))
        (have : HaveStepsOf S.Store D.finds U.answers three_tokens 1 three_names no_rows (two_stores U) are)
        → HaveHappened S.Store D.finds U.answers three_tokens 1 three_names no_rows (two_stores U) are have
        (lost_then (gets_at 6 ∷ [])) → ⊥ }
    ensures used_while_lost { (are : AreNamedStores S.Store D.finds U.answers three_tokens 1 three_names no_rows
        (two_stores U))
        (have : HaveStepsOf S.Store D.finds U.answers three_tokens 1 three_names no_rows (two_stores U) are)
        → HaveHappened S.Store D.finds U.answers three_tokens 1 three_names no_rows (two_stores U) are have
        (lost_then (raises_next ∷ [])) → ⊥ }
    ensures used_otherwise { (are : AreNamedStores S.Store D.finds U.answers three_tokens 1 three_names no_rows
        (two_stores U))
        (have : HaveStepsOf S.Store D.finds U.answers three_tokens 1 three_names no_rows (two_stores U) are)
        → HaveHappened S.Store D.finds U.answers three_tokens 1 three_names no_rows (two_stores U) are have
        (lost_then (gets_at 5 ∷ Does (Raises 1 0 8) ∷ [])) → ⊥ }
    ensures replaced_unlost { (are : AreNamedStores S.Store D.finds U.answers three_tokens 1 three_names no_rows
        (two_stores U))
        (have : HaveStepsOf S.Store D.finds U.answers three_tokens 1 three_names no_rows (two_stores U) are)
        → HaveHappened S.Store D.finds U.answers three_tokens 1 three_names no_rows (two_stores U) are have
        (two_steps ++ gets_at 5 ∷ []) → ⊥ }
    ensures lost_though_kept { (are : AreNamedStores S.Store D.finds U.answers three_tokens 1 three_names no_rows
        (Keeps (two_commands U)))
        (have : HaveStepsOf S.Store D.finds U.answers three_tokens 1 three_names no_rows (Keeps (two_commands U)) are)
        → HaveHappened S.Store D.finds U.answers three_tokens 1 three_names no_rows (Keeps (two_commands U)) are have
        (lost_then []) → ⊥ }

    // Devices of each store.
    ensures devices_before_a_loss { (setting : Setting) (node boot : ℕ) (names : List (List ℕ)) (seed : ℕ → ℕ)
        (store : Store) (named : List (NamedUse U)) (given : List ℕ) (floor : ℕ → ℕ) (later : NamedStores U)
        (are : AreNamedStores S.Store D.finds U.answers setting node names store
        (Replaces named boot given floor later))
        → HaveDevicesInStores S.Store D.finds U.answers setting node names seed store
        (Replaces named boot given floor later) are
        → HaveDevices S.Store D.finds U.answers setting node names seed store named are.0 }
    ensures devices_after_a_loss { (setting : Setting) (node boot : ℕ) (names : List (List ℕ)) (seed : ℕ → ℕ)
        (store : Store) (named : List (NamedUse U)) (given : List ℕ) (floor : ℕ → ℕ) (later : NamedStores U)
        (are : AreNamedStores S.Store D.finds U.answers setting node names store
        (Replaces named boot given floor later))
        → HaveDevicesInStores S.Store D.finds U.answers setting node names seed store
        (Replaces named boot given floor later) are
        → HaveDevicesInStores S.Store D.finds U.answers setting node names seed (store_with_rows boot given floor)
        later are.1 }
    ensures devices_of_a_kept_store { (setting : Setting) (node : ℕ) (names : List (List ℕ)) (seed : ℕ → ℕ)
        (store : Store) (named : List (NamedUse U))
        (are : AreNamedStores S.Store D.finds U.answers setting node names store (Keeps named))
        → HaveDevicesInStores S.Store D.finds U.answers setting node names seed store (Keeps named) are
        → HaveDevices S.Store D.finds U.answers setting node names seed store named are }
{}

/// Worked cases and counterexamples: each condition of an order of all members' steps fails alone, or is among them.
pub fn orders_can_be_broken<S: Alter + Drop, D: Database<S>, U: Stop>()
    // Node 1 lost its store, and got one with the floor that node 2 has.
    ensures order { (are : AreAllNamedStores S.Store D.finds U.answers three_tokens three_names (lost_stores U 1 5))
        → IsOrderOf S.Store D.finds U.answers three_tokens three_names (lost_stores U 1 5) are (lost_items 1 5) }
    ensures until_the_loss { (are : AreAllNamedStores S.Store D.finds U.answers three_tokens three_names
        (lost_stores U 1 5)) → IsOrderOf S.Store D.finds U.answers three_tokens three_names (lost_stores U 1 5) are
        (at 1 Loses ∷ []) }
    ensures of_a_stranger { (are : AreAllNamedStores S.Store D.finds U.answers three_tokens three_names
        (lost_stores U 1 5)) → IsOrderOf S.Store D.finds U.answers three_tokens three_names (lost_stores U 1 5) are
        (lost_items 1 5 ++ at 4 (Does (Enrols 4 0 5)) ∷ []) → ⊥ }
    ensures with_another_step { (are : AreAllNamedStores S.Store D.finds U.answers three_tokens three_names
        (lost_stores U 1 5)) → IsOrderOf S.Store D.finds U.answers three_tokens three_names (lost_stores U 1 5) are
        (at 2 (Does (Enrols 2 0 6)) ∷ []) → ⊥ }
    ensures replaced_too_low { (are : AreAllNamedStores S.Store D.finds U.answers three_tokens three_names
        (lost_stores U 1 4)) → IsOrderOf S.Store D.finds U.answers three_tokens three_names (lost_stores U 1 4) are
        (lost_items 1 4) → ⊥ }
    ensures replaced_at_a_used_boot { (are : AreAllNamedStores S.Store D.finds U.answers three_tokens three_names
        (lost_stores U 0 5)) → IsOrderOf S.Store D.finds U.answers three_tokens three_names (lost_stores U 0 5) are
        (lost_items 0 5) → ⊥ }
    ensures former_of_the_boot { (are : AreAllNamedStores S.Store D.finds U.answers (old_grant 1) user_names
        (λ node. Keeps [])) → IsOrderOf S.Store D.finds U.answers (old_grant 1) user_names (λ node. Keeps []) are []
        → ⊥ }
    ensures past_the_last_floor { (are : AreAllNamedStores S.Store D.finds U.answers three_tokens three_names
        (enrolled_at U (2 ^ 62 + 1))) → IsOrderOf S.Store D.finds U.answers three_tokens three_names
        (enrolled_at U (2 ^ 62 + 1)) are (at 2 (Does (Enrols 2 0 (2 ^ 62 + 1))) ∷ []) → ⊥ }

    // What the laws have of an order.
    ensures interleavings { (setting : Setting) (names : List (List ℕ)) (stores : ℕ → NamedStores U)
        (are : AreAllNamedStores S.Store D.finds U.answers setting names stores)
        (has : HasNamedSteps S.Store D.finds U.answers setting names stores are) (items : List Item)
        → AreOfMembers setting items
        → ((node : ℕ) → is_member setting.n node ≡ true
        → HaveHappened S.Store D.finds U.answers setting node names (first_store setting node) (stores node)
        (are node) (has.steps node) (steps_at node items)) → AreReplaced setting items → IsInterleaving setting items }
    ensures of_members { (setting : Setting) (names : List (List ℕ)) (stores : ℕ → NamedStores U)
        (are : AreAllNamedStores S.Store D.finds U.answers setting names stores) (items : List Item)
        → IsOrderOf S.Store D.finds U.answers setting names stores are items → AreOfMembers setting items }
    ensures own_steps { (setting : Setting) (node : ℕ) (names : List (List ℕ)) (stores : ℕ → NamedStores U)
        (are : AreAllNamedStores S.Store D.finds U.answers setting names stores) (items : List Item)
        (is : IsOrderOf S.Store D.finds U.answers setting names stores are items)
        → is_member setting.n node ≡ true
        → HaveHappened S.Store D.finds U.answers setting node names (first_store setting node) (stores node)
        (are node) (is.has.steps node) (steps_at node items) }
    ensures replaced { (setting : Setting) (names : List (List ℕ)) (stores : ℕ → NamedStores U)
        (are : AreAllNamedStores S.Store D.finds U.answers setting names stores) (items : List Item)
        → IsOrderOf S.Store D.finds U.answers setting names stores are items → AreReplaced setting items }
    ensures starts { (setting : Setting) (names : List (List ℕ)) (stores : ℕ → NamedStores U)
        (are : AreAllNamedStores S.Store D.finds U.answers setting names stores) (items : List Item)
        → IsOrderOf S.Store D.finds U.answers setting names stores are items → MayOpen setting.n setting.tokens
        (blank_opening (made_boot setting) (map (λ (sealed : Sealed). sealed.envelope) setting.old)) }
    ensures unforged { (setting : Setting) (names : List (List ℕ)) (stores : ℕ → NamedStores U)
        (are : AreAllNamedStores S.Store D.finds U.answers setting names stores) (items : List Item)
        → IsOrderOf S.Store D.finds U.answers setting names stores are items
        → AreUnforgedItems names setting (first_place setting) (said_before setting) items }
{}
