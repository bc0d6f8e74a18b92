//! The laws about every history of a cluster whose users file never changes. Floor: the first free factor of a token at
//! a node.

ghost use Rattle.std.specs.Prelude.{◌+◌, ◌<◌, ◌^◌, ℕ, List, ◌++◌, length};
ghost use Rattle.book_law.specs.Lives.{Action, IsHistory, answered_in};
ghost use Rattle.cluster_sim.specs.World.{WorldEvent};
ghost use Rattle.oath_node.specs.Machine.{Config};
ghost use Rattle.world_law.specs.Bytes.{IsSized, IsUnforgedHistory};
ghost use Rattle.world_law.specs.SingleNode.{IsPartOf, cluster_of_one, reference_of};
ghost use Rattle.world_law.specs.Steady.{AreEnrolled, IsSteady, SteadyCluster, enrolments_of, setting_of};
ghost use Rattle.world_law.specs.Sweeps.{SweepsLevel};
ghost use Rattle.world_law.specs.Worlds.{IsExplained, IsRunOf};

use cluster_sim::{answers_belong_to_passes, sweep_levels, world_is_safe};
use oath_node::{one_node_answers_as_the_server, rulings_have_grounds};
use vote_wire::one_spelling;

/// Worlds: each history of a cluster whose users file never changes is a run of the world, event by event.
pub fn steady_histories_are_worlds()
    // It is a history of nodes, so all laws of these hold.
    ensures history { (cluster : SteadyCluster) (before actions : List Action) → IsSteady cluster before actions
        → IsHistory (setting_of cluster) (before ++ actions) }
    ensures world { (cluster : SteadyCluster) (before actions : List Action) → IsSteady cluster before actions
        → (events : List WorldEvent) × IsRunOf cluster before actions events }
    ensures explained { (cluster : SteadyCluster) (before actions : List Action) → IsSteady cluster before actions
        → IsExplained cluster before actions }
{
    world_is_safe();
    answers_belong_to_passes();
    rulings_have_grounds();
}

/// Enrolments: the stores of each cluster can get their rows.
pub fn clusters_can_be_enrolled()
    ensures { (cluster : SteadyCluster) → AreEnrolled cluster (enrolments_of cluster) }
{}

/// Equivalence: the answers of a single node's processes are a subsequence of the reference server's answers.
///
/// The reference server answers the lines that the processes took and whose changes the store kept.
pub fn one_node_answers_as_the_reference()
    ensures { (config : Config) (key floors : List ℕ) (before actions : List Action) → 1 + length actions < 2 ^ 62
        → IsSteady (cluster_of_one config key floors) before actions
        → IsPartOf (answered_in (setting_of (cluster_of_one config key floors)) (before ++ actions))
        (reference_of config key floors before actions) }
{
    world_is_safe();
    rulings_have_grounds();
    one_node_answers_as_the_server();
}

/// Sweeps: after any history of a cluster whose users file never changes, a sweep gives all live members the same
/// floors, and leaves nothing waiting.
///
/// In a sweep live members tick and receive each other's floors, and take nothing else. Each floor is then the greatest
/// that a live member had.
pub fn sweeps_level_stores()
    ensures { SweepsLevel }
{
    world_is_safe();
    rulings_have_grounds();
    sweep_levels();
}

/// Unforged bytes: if no datagram is forged, byte for byte, the laws of these histories hold.
///
/// Only a datagram with a valid tag, from the address of the sender that it names, can be forged. It is unforged if a
/// node offered exactly its bytes before.
pub fn unforged_bytes_are_genuine()
    ensures { (cluster : SteadyCluster) (before actions : List Action) → IsSized cluster
        → IsUnforgedHistory cluster before actions → IsSteady cluster before actions }
{
    one_spelling();
    rulings_have_grounds();
    world_is_safe();
}
