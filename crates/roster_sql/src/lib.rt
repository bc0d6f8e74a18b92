//! The tables of version 3 of a store: the names of its tokens, and the cluster that the store is bound to.
#![tactic(auto)]

mod checking;
mod enrolling;
mod entry;
mod laws;
mod making;
mod naming;
mod opening;
mod reading;
mod texts;

pub use checking::node_of_named;
pub use enrolling::enrol;
pub use entry::{Bond, Entry, MAX_WORD_LEN, NAME_LEN};
pub use laws::{enrolments_can_be_broken, openings_can_be_broken, rosters_can_be_broken};
pub use making::add_names;
pub use naming::name_tables;
pub use opening::make_named;
pub use reading::{read_bond, read_roster};
