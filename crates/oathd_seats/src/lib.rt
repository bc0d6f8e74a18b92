//! The commands of `oathd` that look at a store by the places or the names of its tokens, and the one that unlocks a
//! token in it.
//!
//! Each is over any [`Database`](oathd_database::Database), and takes a [`Naming`]. None of them enrols a token. A
//! users file with a token that the store hasn't is refused, and nothing changes. By names, the tokens of the users
//! file may stand in any order, and tokens of the store may be missing.
#![tactic(auto)]

mod audit;
mod export;
mod fault;
mod gates;
mod laws;
mod naming;
mod roster;
mod seeing;
mod unlock;

pub use audit::audit_store;
pub use export::export_store;
pub use fault::SeatsFault;
pub use gates::gates_store;
pub use laws::{faults_are_worked, places_can_be_broken, rosters_are_worked, seats_can_be_broken};
pub use naming::Naming;
pub use roster::roster_named_store;
pub use unlock::unlock_store;
