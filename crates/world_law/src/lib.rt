//! The histories of a cluster whose users file, limits and key never change, and the world of such nodes.
//!
//! They are histories of nodes, as `book_law` has them. Each is a run of the world of `cluster_sim`, action by action.
#![tactic(auto)]

mod cases;
mod laws;

pub use cases::{
    reference_is_worked, runs_can_be_broken, steady_histories_are_worked,
    steady_histories_can_be_broken, sweeps_are_worked, sweeps_can_be_broken,
    unforged_bytes_can_be_broken,
};
pub use laws::{
    clusters_can_be_enrolled, one_node_answers_as_the_reference, steady_histories_are_worlds,
    sweeps_level_stores, unforged_bytes_are_genuine,
};
