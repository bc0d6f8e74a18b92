//! The commands of `oathd` over floors files by names: `floors`, `init --lost`, `init --anew` and `level`, the one that
//! gives a store of version 2 names, `migrate`, and the one that drops rows of retired tokens, `roster --drop-retired`.
//!
//! Each is over any [`Database`](oathd_database::Database). A floor is the first free factor of a token at a node. A
//! floors file by names has a row for each row of a store, also for a retired token, and its last line is a MAC under
//! the own key of the cluster. So the commands that read such files or write one need no users file for them.
#![tactic(auto)]

mod drop_laws;
mod dropping;
mod fault;
mod files;
mod kinds;
mod laws;
mod levelling;
mod naming;
mod remade_laws;
mod remaking;
mod rows;
mod telling;

pub use drop_laws::{drops_are_worked, drops_can_be_broken, drops_forget_no_floor};
pub use dropping::drop_retired_rows;
pub use fault::{NamedFloorsFault, NamingFault};
pub use kinds::is_of_kind;
pub use laws::{
    faults_are_worked, files_are_worked, floors_can_be_broken, kinds_are_worked,
    levels_can_be_broken, names_can_be_broken, rows_can_be_broken, told_are_worked,
    told_can_be_broken,
};
pub use levelling::level_named_store;
pub use naming::name_store;
pub use remade_laws::{
    gatherings_can_be_broken, makings_can_be_broken, remaking_faults_can_be_broken,
    replacements_can_be_broken,
};
pub use remaking::{Former, remake_named_store};
pub use telling::tell_named_floors;
