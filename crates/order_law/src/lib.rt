//! The laws of all nodes' steps in the order in which they happened.
//!
//! An interleaving has the steps of each node in their order: what its port received, what it committed, and what it
//! offered. If each vote that is heard was said before, the actions of an interleaving are a history of `book_law`.
#![tactic(auto)]

mod laws;
mod nine_nodes;
mod worked;

pub use laws::{
    causal_devices_are_safe, causal_interleavings_are_histories, causal_interleavings_are_safe,
    interleavings_are_actions, interleavings_open_greatest, served_nodes_have_steps,
    stretches_have_steps,
};
pub use nine_nodes::nine_nodes_are_safe;
pub use worked::{
    interleavings_are_worked, interleavings_can_be_broken, orders_are_worked, places_are_worked,
    starts_can_be_broken, steps_can_be_broken,
};
