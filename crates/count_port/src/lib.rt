//! A node's port that counts what passes.
//!
//! A [`CountPort`] is a node's port over another one. It passes on everything unchanged, and counts the datagrams that
//! the node received, its answers by their reasons, and its ticks. It knows when each other member was heard last. It
//! measures how long the commits of batches took.
#![tactic(auto)]

mod batches;
mod counts;
mod laws;
mod members;
mod port;
mod worked;

pub use batches::Batches;
pub use counts::Counts;
pub use laws::{batches_are_counted, batches_are_worked, buckets_are_worked};
pub use port::CountPort;
pub use worked::{counts_are_worked, members_are_worked};
