//! The law of the steps of nodes that speak by names, in the order in which they happened.
#![tactic(auto)]

mod laws;
mod worked;

pub use laws::{
    unforged_interleavings_are_genuine, unforged_interleavings_are_safe,
    unforged_interleavings_keep_devices,
};
pub use worked::{bytes_can_be_broken, heard_grants_can_be_broken, named_interleavings_are_worked};
