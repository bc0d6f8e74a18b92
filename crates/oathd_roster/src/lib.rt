//! The commands of `oathd` over a store that has its tokens by their names, from the first to the last step.
//!
//! Each is over any [`Database`](oathd_database::Database). The tokens of a users file may change their rows, and new
//! ones may be added: at each start [`open_named_store`] finds the row of each token by its name, and enrols the new
//! ones. A store that has no room for them is opened for the other tokens.
#![tactic(auto)]

mod begin;
mod cluster;
mod enrolled;
mod enrolment;
mod fault;
mod laws;
mod opening;
mod roster;
mod users;

pub use begin::{begin_store, open_created};
pub use cluster::NamedCluster;
pub use enrolled::enrolled_rows;
pub use enrolment::{enrolments_are_worked, fresh_tokens_are_ready};
pub use fault::RosterFault;
pub use laws::{enrolled_rows_are_lines, enrolled_rows_are_worked, faults_are_worked};
pub use opening::open_named_store;
pub use roster::write_roster;
pub use users::{NamedUsers, read_named_users};
