//! Replaces the tables of a store of version 3 by new ones, in one transaction.
#![tactic(auto)]

mod dropping;
mod laws;
mod renewing;
mod texts;

pub use laws::renewals_can_be_broken;
pub use renewing::renew;
