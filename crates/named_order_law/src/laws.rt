//! The laws of interleavings of nodes that speak by names.

ghost use Rattle.std.specs.Prelude.{◌≡◌, ℕ, List, Some, slice_get};
ghost use Rattle.admit_core.specs.Throttle.{SpacesFailures};
ghost use Rattle.cluster_sim.specs.Answered.{IsOk};
ghost use Rattle.otp_core.specs.Acceptance.{HaveSingleUse, KeepRealTimeOrder};
ghost use Rattle.seat_law.specs.Seeds.{AreGivenUp, HaveSingleUseOfSeeds, KeepOrderOfSeeds};
ghost use Rattle.vote_core.specs.Safety.{HaveMajority};
ghost use Rattle.book_law.specs.Answered.{AnswersAll};
ghost use Rattle.book_law.specs.Justified.{JustifiesAll};
ghost use Rattle.book_law.specs.Lives.{Setting, accepted_in, answered_in, floor_in};
ghost use Rattle.book_law.specs.Promises.{AnswerTruly};
ghost use Rattle.book_law.specs.Results.{results_in};
ghost use Rattle.book_law.specs.Uses.{IsTrueReply};
ghost use Rattle.name_law.specs.Unforged.{IsSized, IsUnforgedHistory};
ghost use Rattle.order_law.specs.Devices.{StartsAreGreatest};
ghost use Rattle.order_law.specs.Interleavings.{Item, history_of};
ghost use Rattle.order_law.specs.Steps.{Replies, Says};
ghost use Rattle.named_order_law.specs.Bytes.{IsUnforgedInterleaving};

use name_law::{unforged_devices_are_safe, unforged_names_are_safe};
use order_law::interleavings_open_greatest;

/// Unforged interleavings: if no datagram of a vote by names is forged, byte for byte, an interleaving is a history.
pub fn unforged_interleavings_are_genuine()
    ensures { (names : List (List ℕ)) (setting : Setting) (items : List Item)
        → IsUnforgedInterleaving names setting items → IsUnforgedHistory names setting (history_of items) }
{}

/// Safety by names: if no vote by names is forged, acceptances and answers of an interleaving keep all promises.
pub fn unforged_interleavings_are_safe()
    ensures single_use { (names : List (List ℕ)) (setting : Setting) (items : List Item) → IsSized names setting
        → IsUnforgedInterleaving names setting items → HaveSingleUse (accepted_in setting (history_of items)) }
    ensures in_order { (names : List (List ℕ)) (setting : Setting) (items : List Item) → IsSized names setting
        → IsUnforgedInterleaving names setting items → KeepRealTimeOrder (accepted_in setting (history_of items)) }
    ensures majority { (names : List (List ℕ)) (setting : Setting) (items : List Item) → IsSized names setting
        → IsUnforgedInterleaving names setting items
        → HaveMajority setting.n (floor_in setting (history_of items)) (accepted_in setting (history_of items)) }
    ensures told { (names : List (List ℕ)) (setting : Setting) (items : List Item) → IsSized names setting
        → IsUnforgedInterleaving names setting items
        → AnswerTruly setting (history_of items) (answered_in setting (history_of items)) }
    ensures justified { (names : List (List ℕ)) (setting : Setting) (items : List Item) → IsSized names setting
        → IsUnforgedInterleaving names setting items
        → JustifiesAll setting (history_of items) (accepted_in setting (history_of items)) }
    ensures spaced { (names : List (List ℕ)) (setting : Setting) (items : List Item) (node token : ℕ)
        → IsSized names setting → IsUnforgedInterleaving names setting items
        → SpacesFailures (results_in setting (history_of items) node token) }
    // Each acceptance that no stop cut off has its `OK`.
    ensures answered { (names : List (List ℕ)) (setting : Setting) (items : List Item) → IsSized names setting
        → IsUnforgedInterleaving names setting items
        → AnswersAll setting (history_of items) (accepted_in setting (history_of items)) }
    // Each reply of an item that begins as an `OK` belongs to an acceptance.
    ensures replied { (names : List (List ℕ)) (setting : Setting) (items : List Item) (i node client : ℕ)
        (bytes : List ℕ) → IsSized names setting → IsUnforgedInterleaving names setting items
        → slice_get items i ≡ Some (record { node = node; step = Says (Replies client bytes) }) → IsOk bytes
        → IsTrueReply setting (history_of items) node client bytes }
{
    unforged_names_are_safe();
    unforged_interleavings_are_genuine();
}

/// Single use by device: if no vote by names is forged, no factor of a device is accepted twice in an interleaving,
/// whatever its names are.
///
/// `seed` gives the device of each canonical token. Each process starts over a store with the greatest floors of its
/// devices in its seats.
pub fn unforged_interleavings_keep_devices()
    ensures single_use { (names : List (List ℕ)) (seed : ℕ → ℕ) (setting : Setting) (items : List Item)
        → IsSized names setting → IsUnforgedInterleaving names setting items → StartsAreGreatest seed setting items
        → HaveSingleUseOfSeeds seed (accepted_in setting (history_of items)) }
    ensures in_order { (names : List (List ℕ)) (seed : ℕ → ℕ) (setting : Setting) (items : List Item)
        → IsSized names setting → IsUnforgedInterleaving names setting items → StartsAreGreatest seed setting items
        → KeepOrderOfSeeds seed (accepted_in setting (history_of items)) }
    ensures majority { (names : List (List ℕ)) (seed : ℕ → ℕ) (setting : Setting) (items : List Item)
        → IsSized names setting → IsUnforgedInterleaving names setting items → StartsAreGreatest seed setting items
        → AreGivenUp setting.n (floor_in setting (history_of items)) seed (accepted_in setting (history_of items)) }
{
    unforged_devices_are_safe();
    unforged_interleavings_are_genuine();
    interleavings_open_greatest();
}
