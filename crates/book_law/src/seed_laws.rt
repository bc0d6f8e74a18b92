//! The laws about the devices of users files, in every history. Floor: the first free factor of a token at a node.

ghost use Rattle.std.specs.Prelude.{◌≡◌, [], ◌∷◌, List, None, true, ℕ};
ghost use Rattle.vote_core.specs.Cases.{accepted};
ghost use Rattle.vote_core.specs.Schedule.{is_member};
ghost use Rattle.seat_law.specs.Seeds.{AreGivenUp, HaveSingleUseOfSeeds, KeepOrderOfSeeds};
ghost use Rattle.seat_law.specs.Votes.{HaveVotes};
ghost use Rattle.book_law.specs.Examples.{alone, maple_alone, row_from, silver_alone, silver_first, store_of_1, two_rows};
ghost use Rattle.book_law.specs.Lives.{Action, IsHistory, Raises, Setting, accepted_in, floor_in};
ghost use Rattle.book_law.specs.SeedExamples.{asks_again, both_names, both_rows, comes_back_lower, one_device, own_devices, renamed, renamed_back, serves, serves_in_parts};
ghost use Rattle.book_law.specs.Seeds.{AreGreatest, HaveSeedsOnce, OpensGreatest, UsesGreatest, row_for, rows_in};
ghost use Rattle.book_law.specs.Uses.{AreAllUses, IsHistoryOf, StoreUse, Writes, first_store};

use oath_node::rulings_have_grounds;
use vote_core::votes_are_safe;

/// Single use by device: in every history of nodes, no factor of a device is accepted twice, whatever its names are.
///
/// No users file has a device twice. When a process opens a store, the row of each of its seats has the greatest floor
/// of its device there.
pub fn devices_are_safe()
    ensures single_use { (seed : ℕ → ℕ) (setting : Setting) (history : List Action) → IsHistory setting history
        → OpensGreatest seed setting history → HaveSingleUseOfSeeds seed (accepted_in setting history) }
    ensures in_order { (seed : ℕ → ℕ) (setting : Setting) (history : List Action) → IsHistory setting history
        → OpensGreatest seed setting history → KeepOrderOfSeeds seed (accepted_in setting history) }
    ensures majority { (seed : ℕ → ℕ) (setting : Setting) (history : List Action) → IsHistory setting history
        → OpensGreatest seed setting history
        → AreGivenUp setting.n (floor_in setting history) seed (accepted_in setting history) }
    // A majority of the nodes voted for each acceptance. A vote changes one row of its node.
    ensures votes { (setting : Setting) (history : List Action) → IsHistory setting history
        → HaveVotes setting.n (rows_in setting history) (accepted_in setting history) }
{
    votes_are_safe();
    rulings_have_grounds();
}

/// Openings: a history of uses keeps the rule of openings if each process among the uses does.
pub fn uses_open_stores()
    ensures { (seed : ℕ → ℕ) (setting : Setting) (uses : ℕ → List StoreUse) (history : List Action)
        → AreAllUses setting uses → IsHistoryOf setting uses history
        → ((node : ℕ) → is_member setting.n node ≡ true
        → UsesGreatest seed setting (first_store setting node) (uses node))
        → OpensGreatest seed setting history }
{}

/// Worked cases, and counterexamples: a factor of a device is accepted twice after an opening that breaks one rule.
pub fn devices_can_be_broken()
    // A device that is renamed and renamed back.
    ensures renamed { accepted_in alone renamed_back
        ≡ accepted 2 2 1 0 0 0 ∷ accepted 6 6 1 1 1 1 ∷ accepted 10 10 1 0 2 2 ∷ [] }
    ensures refused { accepted_in alone asks_again ≡ accepted 2 2 1 0 0 0 ∷ accepted 6 6 1 1 1 1 ∷ [] }
    ensures opens { OpensGreatest one_device alone renamed_back }

    // Its row comes back with the floor that it had.
    ensures lower { accepted_in alone comes_back_lower
        ≡ accepted 2 2 1 0 0 0 ∷ accepted 6 6 1 1 1 1 ∷ accepted 9 9 1 0 1 1 ∷ [] }
    ensures lower_twice { HaveSingleUseOfSeeds one_device (accepted_in alone comes_back_lower) → ⊥ }
    ensures lower_out_of_order { KeepOrderOfSeeds one_device (accepted_in alone comes_back_lower) → ⊥ }
    ensures lower_opening { OpensGreatest one_device alone comes_back_lower → ⊥ }
    ensures lower_row { AreGreatest one_device (0 ∷ []) (store_of_1 renamed) → ⊥ }
    ensures lower_than_another_device { AreGreatest own_devices (0 ∷ []) (store_of_1 renamed) }

    // Two rows of a device are in seats.
    ensures both { accepted_in alone both_names ≡ accepted 3 3 1 0 0 0 ∷ accepted 4 4 1 1 0 0 ∷ [] }
    ensures both_twice { HaveSingleUseOfSeeds one_device (accepted_in alone both_names) → ⊥ }
    ensures both_opening { OpensGreatest one_device alone both_names → ⊥ }
    ensures once { HaveSeedsOnce one_device (0 ∷ []) }
    ensures not_once { HaveSeedsOnce one_device (0 ∷ 1 ∷ []) → ⊥ }
    ensures once_each { HaveSeedsOnce own_devices (0 ∷ 1 ∷ []) }

    // The row of a token, and of one without a row. It is read before an action.
    ensures row { row_for (two_rows None) 3 ≡ row_from 30 }
    ensures no_row { row_for (two_rows None) 4 ≡ row_from 0 }
    ensures row_before { (rows_in alone renamed 1 0 2).next ≡ 0 }
    ensures row_after { (rows_in alone renamed 1 0 3).next ≡ 1 }
    ensures row_of_another { (rows_in alone renamed 1 1 3).next ≡ 0 }
{}

/// Worked cases, and counterexamples: each use of a store that breaks one rule of openings.
pub fn uses_of_devices_can_be_broken()
    ensures served { UsesGreatest one_device alone (store_of_1 renamed) (serves maple_alone ∷ []) }
    ensures served_in_parts { UsesGreatest one_device alone (store_of_1 renamed) (serves_in_parts maple_alone ∷ []) }
    ensures served_lower { UsesGreatest one_device alone (store_of_1 renamed) (serves silver_alone ∷ []) → ⊥ }
    ensures served_lower_in_parts { UsesGreatest one_device alone (store_of_1 renamed)
        (serves_in_parts silver_alone ∷ []) → ⊥ }
    ensures served_both { UsesGreatest one_device alone both_rows (serves silver_first ∷ []) → ⊥ }
    ensures served_both_in_parts { UsesGreatest one_device alone both_rows (serves_in_parts silver_first ∷ []) → ⊥ }
    // A later use finds what the one before it left.
    ensures served_then_lower { UsesGreatest one_device alone (store_of_1 renamed)
        (serves maple_alone ∷ serves silver_alone ∷ []) → ⊥ }
    ensures served_in_parts_then_lower { UsesGreatest one_device alone (store_of_1 renamed)
        (serves_in_parts maple_alone ∷ serves silver_alone ∷ []) → ⊥ }
    ensures raised_then_served { UsesGreatest one_device alone (store_of_1 renamed)
        (Writes (Raises 1 0 2) ∷ serves silver_alone ∷ []) }
    ensures raised_another_then_served { UsesGreatest one_device alone (store_of_1 renamed)
        (Writes (Raises 1 1 2) ∷ serves silver_alone ∷ []) → ⊥ }
{}
