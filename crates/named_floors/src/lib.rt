//! The floors of a node by names: told as a floors file, taken into a new store, and raised in a store.
//!
//! A floor is the first free factor of a token at a node. A store of version 3 has a row for each name that it ever
//! had, also for a retired token.
//!
//! 1. [`named_floors_of`] returns the content of a node's floors file.
//! 2. [`make_from_floors`] creates a store from floors files. [`remade`] finds its rows.
//! 3. [`level_named`] raises the floors of a store to the floors in files.
#![tactic(auto)]

mod laws;
mod level;
mod making;
mod remaking;
mod rows;
mod told;

pub use laws::{
    faults_are_worked, floors_can_be_broken, levels_are_worked, makings_can_be_broken,
    remade_are_distinct, remade_are_worked, remade_lose_nothing, told_are_worked,
};
pub use level::level_named;
pub use making::make_from_floors;
pub use remaking::{RemadeRows, remade};
pub use told::{TellingNode, named_floors_of};
