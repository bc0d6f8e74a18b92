//! The calls of a node over a store in memory, which is a machine of the world.

ghost use Rattle.std.specs.Prelude.{ℕ, List};
ghost use Rattle.vote_core.specs.NodeSet.{PlaceRecord};
ghost use Rattle.oath_node.specs.Hosted.{event_of};
ghost use Rattle.oath_node.specs.Machine.{Config, NodeState, restarted_node};
ghost use Rattle.cluster_sim.specs.Journal.{IsHanded, IsHost};

use floor_store::MemStore;
use oath_node::{Event, Node, Outputs, Scratch};

/// Passes `event` to `node`. Returns its outputs, or None if the event has no effect.
pub(crate) fn hand<'b: 'k, 'k>(
    node: &mut Node<'b, MemStore>,
    event: Event<'_>,
    scratch: &'k mut Scratch,
) -> Option<Outputs<'k>>
    ensures { (config : Config) (key : List ℕ) (place : PlaceRecord) (x : NodeState)
        → IsHost config key place x node.old
        → IsHanded config key place x (event_of key event.entry) node.new result }
{
    match node.handle(event, scratch) {
        Ok(outputs) => Some(outputs),
        Err(_) => None,
    }
}

/// Restarts `node` in a new boot. At the last boot the node stops.
pub(crate) fn reopen(node: &mut Node<'_, MemStore>)
    ensures { (config : Config) (key : List ℕ) (place : PlaceRecord) (x : NodeState)
        → IsHost config key place x node.old
        → IsHost config key place (restarted_node x) node.new }
{
    let _ = node.restart();
}
