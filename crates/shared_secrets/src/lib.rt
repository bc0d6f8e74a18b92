//! Rows of a users file that have one seed: the same kind and the same secret.
//!
//! Whoever has the device of a seed has the codes of each token of it. Two rows of one seed are one device under two
//! names, and each accepts the codes of the other.
#![tactic(auto)]

mod key;
mod laws;
mod search;
mod shared;

pub use laws::{repeats_can_be_broken, seeds_are_worked};
pub use search::shared_secret;
pub use shared::SharedSecret;
