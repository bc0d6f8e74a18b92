//! The laws of interleavings.

ghost use Rattle.std.specs.Prelude.{◌≡◌, ◌⊎◌, ◌++◌, [], ◌∷◌, ℕ, List, Option, Result, Some, Ok, Err, map, slice_get, true};
ghost use Rattle.admit_core.specs.Throttle.{SpacesFailures};
ghost use Rattle.cluster_sim.specs.Answered.{IsOk};
ghost use Rattle.datagram_port.specs.Port.{PortEvent};
ghost use Rattle.floor_store.specs.Content.{Content};
ghost use Rattle.floor_store.specs.Range.{IsCount};
ghost use Rattle.oath_node.specs.Calls.{IsOpened};
ghost use Rattle.oath_node.specs.Hosted.{Hosted};
ghost use Rattle.oath_node.specs.TurnServing.{Serves as ServesTurns};
ghost use Rattle.oath_node.specs.declared.fault.NodeFault.{NodeFault};
ghost use Rattle.oath_node.specs.declared.serve_fault.ServeFault.{ServeFault};
ghost use Rattle.oath_node.specs.declared.turns.Served.{Served};
ghost use Rattle.otp_core.specs.Acceptance.{HaveSingleUse, KeepRealTimeOrder};
ghost use Rattle.seat_law.specs.Seeds.{AreGivenUp, HaveSingleUseOfSeeds, KeepOrderOfSeeds};
ghost use Rattle.seated_store.specs.Seated.{SeatedRecord, seated_held};
ghost use Rattle.vote_core.specs.Safety.{HaveMajority};
ghost use Rattle.vote_core.specs.Schedule.{is_member};
ghost use Rattle.book_law.specs.Answered.{AnswersAll};
ghost use Rattle.book_law.specs.Justified.{JustifiesAll};
ghost use Rattle.book_law.specs.Lives.{IsHistory, Setting, Store, Terms, accepted_in, answered_in, floor_in, state_of};
ghost use Rattle.book_law.specs.Promises.{AnswerTruly};
ghost use Rattle.book_law.specs.Seeds.{OpensGreatest};
ghost use Rattle.book_law.specs.Results.{results_in};
ghost use Rattle.book_law.specs.Stretches.{ActsAs, AreServed, Stretch, token_cleared, tokens_cleared};
ghost use Rattle.book_law.specs.Uses.{IsSeatedMember, IsTrueReply};
ghost use Rattle.order_law.specs.Devices.{StartsAreGreatest};
ghost use Rattle.order_law.specs.Interleavings.{IsCausal, IsInterleaving, Item, Stands, first_place, history_of, said_before, said_by_output, said_in, steps_at};
ghost use Rattle.order_law.specs.Steps.{HasSteps, Replies, Says, place_in_end};

use book_law::{books_are_safe, devices_are_safe};
use floor_store::FloorStore;

/// Steps: over any store, a node that `Node::open` opened over a seated store and `run_turns` served has made steps.
///
/// Its port recorded the entries of the steps, in their order. This holds at every end of the turns, with everything
/// that a stop leaves of what the node sees.
pub fn served_nodes_have_steps<S: FloorStore>()
    ensures { (setting : Setting) (place : ℕ) (terms : Terms) (port : List ℕ) (found : Store)
        (store : SeatedRecord S) (old new : Hosted (SeatedRecord S)) (entries : List PortEvent)
        (asked told : Option (List (Option ℕ))) (turns : ℕ) (result : Result Served ServeFault) (content : Content)
        → IsSeatedMember S.held setting place terms port found store old → IsOpened (seated_held S.held) store old
        → (seated_held S.held old.store).is_clean → IsCount (seated_held S.held old.store).content.boot
        → ServesTurns (seated_held S.held) old new (Some []) (Some entries) asked told turns result
        → (seated_held S.held new.store).is_clean → (seated_held S.held new.store).leaves content
        → HasSteps setting place terms port found [] entries content }
{}

/// Stretches: over any store, a process that `run_turns` served in stretches has made steps, with a pause after each.
///
/// Operators may have had it clear gates between the stretches.
pub fn stretches_have_steps<S: FloorStore>()
    ensures turns { (setting : Setting) (place : ℕ) (terms : Terms) (port : List ℕ) (found : Store)
        (store : SeatedRecord S) (old from new : Hosted (SeatedRecord S)) (stretches : List (Stretch (SeatedRecord S)))
        (first : Option (List PortEvent)) (entries : List PortEvent) (asked told : Option (List (Option ℕ)))
        (turns : ℕ) (result : Result Served ServeFault) (content : Content)
        → IsSeatedMember S.held setting place terms port found store old → IsOpened (seated_held S.held) store old
        → (seated_held S.held old.store).is_clean → IsCount (seated_held S.held old.store).content.boot
        → AreServed (seated_held S.held) old (Some []) stretches from first
        → ServesTurns (seated_held S.held) from new first (Some entries) asked told turns result
        → (seated_held S.held new.store).is_clean → (seated_held S.held new.store).leaves content
        → HasSteps setting place terms port found (tokens_cleared terms stretches []) entries content }
    // If the last act fails, or a stop cuts it off, its gate is cleared or not.
    ensures act { (setting : Setting) (place : ℕ) (terms : Terms) (port : List ℕ) (found : Store)
        (store : SeatedRecord S) (old from stood new : Hosted (SeatedRecord S))
        (stretches : List (Stretch (SeatedRecord S))) (first : Option (List PortEvent)) (entries : List PortEvent)
        (asked told : Option (List (Option ℕ))) (turns : ℕ) (served : Served) (unlocked : Option ℕ)
        (fault : NodeFault) (content : Content)
        → IsSeatedMember S.held setting place terms port found store old → IsOpened (seated_held S.held) store old
        → (seated_held S.held old.store).is_clean → IsCount (seated_held S.held old.store).content.boot
        → AreServed (seated_held S.held) old (Some []) stretches from first
        → ServesTurns (seated_held S.held) from stood first (Some entries) asked told turns (Ok served)
        → ActsAs (seated_held S.held) unlocked stood new (Err fault)
        → (seated_held S.held new.store).is_clean → (seated_held S.held new.store).leaves content
        → HasSteps setting place terms port found (tokens_cleared terms stretches []) entries content
        ⊎ HasSteps setting place terms port found (tokens_cleared terms stretches
        (token_cleared terms unlocked ∷ [])) entries content }
{}

/// Interleavings: each order of the nodes' steps is a list of actions that the nodes can make.
///
/// Where a datagram came from is left open.
pub fn interleavings_are_actions()
    // Each member is where its own steps lead it, whatever the other nodes do between them.
    ensures nodes { (setting : Setting) (items : List Item) (node : ℕ) → IsInterleaving setting items
        → is_member setting.n node ≡ true
        → Stands node ((state_of setting (history_of items)).processes node)
        (place_in_end setting node (first_place setting node) (steps_at node items)) }
    // What is offered in the actions is what the nodes said, in the order of the steps.
    ensures offered { (setting : Setting) (items : List Item) → IsInterleaving setting items
        → map said_by_output (state_of setting (history_of items)).offered
        ≡ said_before setting ++ said_in setting (first_place setting) items }
{}

/// Causes: if each vote that is heard was said before, an interleaving is a history.
pub fn causal_interleavings_are_histories()
    ensures { (setting : Setting) (items : List Item) → IsCausal setting items
        → IsHistory setting (history_of items) }
{}

/// Safety of interleavings: if each vote that is heard was said before, acceptances and answers keep all promises.
pub fn causal_interleavings_are_safe()
    ensures single_use { (setting : Setting) (items : List Item) → IsCausal setting items
        → HaveSingleUse (accepted_in setting (history_of items)) }
    ensures in_order { (setting : Setting) (items : List Item) → IsCausal setting items
        → KeepRealTimeOrder (accepted_in setting (history_of items)) }
    ensures majority { (setting : Setting) (items : List Item) → IsCausal setting items
        → HaveMajority setting.n (floor_in setting (history_of items)) (accepted_in setting (history_of items)) }
    ensures told { (setting : Setting) (items : List Item) → IsCausal setting items
        → AnswerTruly setting (history_of items) (answered_in setting (history_of items)) }
    ensures justified { (setting : Setting) (items : List Item) → IsCausal setting items
        → JustifiesAll setting (history_of items) (accepted_in setting (history_of items)) }
    ensures spaced { (setting : Setting) (items : List Item) (node token : ℕ) → IsCausal setting items
        → SpacesFailures (results_in setting (history_of items) node token) }
    // Each acceptance that no stop cut off has its `OK`.
    ensures answered { (setting : Setting) (items : List Item) → IsCausal setting items
        → AnswersAll setting (history_of items) (accepted_in setting (history_of items)) }
    // Each reply of an item that begins as an `OK` belongs to an acceptance.
    ensures replied { (setting : Setting) (items : List Item) (i node client : ℕ) (bytes : List ℕ)
        → IsCausal setting items
        → slice_get items i ≡ Some (record { node = node; step = Says (Replies client bytes) }) → IsOk bytes
        → IsTrueReply setting (history_of items) node client bytes }
{
    books_are_safe();
    causal_interleavings_are_histories();
}

/// Openings: each store that is opened in an interleaving has the greatest floors of its devices in its seats, if each
/// member's steps start processes over such stores alone.
pub fn interleavings_open_greatest()
    ensures { (seed : ℕ → ℕ) (setting : Setting) (items : List Item) → IsInterleaving setting items
        → StartsAreGreatest seed setting items → OpensGreatest seed setting (history_of items) }
{}

/// Single use by device: if each vote that is heard was said before, no factor of a device is accepted twice, whatever
/// its names are.
///
/// `seed` gives the device of each token. Each process starts over a store as in `interleavings_open_greatest`.
pub fn causal_devices_are_safe()
    ensures single_use { (seed : ℕ → ℕ) (setting : Setting) (items : List Item) → IsCausal setting items
        → StartsAreGreatest seed setting items → HaveSingleUseOfSeeds seed (accepted_in setting (history_of items)) }
    ensures in_order { (seed : ℕ → ℕ) (setting : Setting) (items : List Item) → IsCausal setting items
        → StartsAreGreatest seed setting items → KeepOrderOfSeeds seed (accepted_in setting (history_of items)) }
    ensures majority { (seed : ℕ → ℕ) (setting : Setting) (items : List Item) → IsCausal setting items
        → StartsAreGreatest seed setting items
        → AreGivenUp setting.n (floor_in setting (history_of items)) seed (accepted_in setting (history_of items)) }
{
    devices_are_safe();
    causal_interleavings_are_histories();
    interleavings_open_greatest();
}
