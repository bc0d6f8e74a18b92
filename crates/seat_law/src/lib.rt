//! The law of votes for nodes whose users files change.
//!
//! A store keeps the row of each token that its node ever enrolled. A process sees the tokens of its users file alone,
//! in their order there. The next process may see others, in another order.
#![tactic(auto)]

mod laws;
mod seed_laws;

pub use laws::{seats_are_safe, sites_are_seated_stores, sites_are_worked, sites_can_be_broken};
pub use seed_laws::{
    acceptances_have_votes, seats_of_seeds_are_safe, seats_of_seeds_can_be_broken, seeds_are_safe,
    seeds_can_be_broken, votes_can_be_broken,
};
